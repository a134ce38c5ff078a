//! What is asked of a view's creation.

use super::Row;

pub(super) static ROWS: [Row; 8] = [
    Row {
        shows: "a view's id is from 1 to 65535, asked before its buffer",
        log: "0 buffer 1 16 0 6 1 0 -\n0 view 0 9 0 0 0 0 4\n0 view 65536 9 0 0 0 0 4\n0 view 1 1 0 0 0 0 4\n0 view 65535 1 1 0 0 0 4\n",
        says: "2 refused OutOfRange\n3 refused OutOfRange\nend 5\n",
    },
    Row {
        shows: "a view's buffer is live, asked before the view's id",
        log: "0 buffer 1 16 0 6 1 0 -\n0 buffer 2 16 0 6 1 0 -\n0 view 1 1 0 0 0 0 4\n0 destroy 1 2\n0 view 2 0 0 0 0 0 4\n0 view 2 2 0 0 0 0 4\n0 view 1 9 0 0 0 0 4\n0 view 2 65536 9 9 9 9 9\n",
        says: "5 refused UnknownId\n6 refused UnknownId\n7 refused UnknownId\n8 refused UnknownId\nend 8\n",
    },
    Row {
        shows: "a live view's id, asked before the view's kind; free again once it is destroyed",
        log: "0 buffer 1 16 0 6 1 0 -\n0 view 1 1 0 0 0 0 4\n0 view 1 1 9 0 0 0 4\n0 destroy 2 1\n0 view 1 1 1 0 0 0 4\n",
        says: "3 refused IdInUse\nend 5\n",
    },
    Row {
        shows: "a view's kind, and the bind bit that it takes, asked before the form",
        log: "0 buffer 1 16 0 2 1 0 -\n0 buffer 2 16 0 4 1 0 -\n0 buffer 3 16 0 1 0 0 -\n0 view 1 1 2 9 0 0 4\n0 view 1 1 1 9 0 0 4\n0 view 1 2 0 9 0 0 4\n0 view 1 3 0 2 1 0 4\n0 view 1 3 1 2 1 0 4\n0 view 1 1 0 0 0 0 4\n0 view 2 2 1 0 0 0 4\n",
        says: "4 refused BadBind\n5 refused BadBind\n6 refused BadBind\n7 refused BadBind\n8 refused BadBind\nend 10\n",
    },
    Row {
        shows: "a view's form, and the buffer's that it takes, asked before the elements",
        log: "0 buffer 1 16 0 6 1 0 -\n0 buffer 2 16 0 6 2 8 -\n0 buffer 3 16 0 6 0 0 -\n0 view 1 1 0 3 0 0 0\n0 view 1 3 0 0 0 0 0\n0 view 1 2 0 0 0 0 1\n0 view 1 1 0 1 0 0 1\n0 view 1 3 1 1 0 0 1\n0 view 1 2 0 2 1 0 1\n0 view 1 1 0 2 1 0 4\n0 view 2 3 1 2 1 0 4\n0 view 3 2 0 1 0 0 2\n0 view 4 1 1 0 0 0 4\n",
        says: "4 refused BadFormat\n5 refused BadFormat\n6 refused BadFormat\n7 refused BadFormat\n8 refused BadFormat\n9 refused BadFormat\nend 13\n",
    },
    Row {
        shows: "components are 1, 2 or 4 of a typed view, and 0 of the others",
        log: "0 buffer 1 16 0 6 1 0 -\n0 buffer 2 16 0 6 2 8 -\n0 view 1 1 0 2 0 0 1\n0 view 1 1 0 2 3 0 1\n0 view 1 1 0 2 5 0 1\n0 view 1 1 0 0 1 0 1\n0 view 1 2 0 1 2 0 1\n0 view 1 1 0 2 1 0 4\n0 view 2 1 0 2 2 0 2\n0 view 3 1 0 2 4 0 1\n",
        says: "3 refused BadFormat\n4 refused BadFormat\n5 refused BadFormat\n6 refused BadFormat\n7 refused BadFormat\nend 10\n",
    },
    Row {
        shows: "the elements of a raw view, in words",
        log: "0 buffer 1 16 0 2 1 0 -\n0 view 1 1 0 0 0 0 0\n0 view 1 1 0 0 0 4 0\n0 view 1 1 0 0 0 0 5\n0 view 1 1 0 0 0 3 2\n0 view 1 1 0 0 0 4 1\n0 view 1 1 0 0 0 4294967295 1\n0 view 1 1 0 0 0 1 4294967295\n0 view 1 1 0 0 0 1073741823 1\n0 view 1 1 0 0 0 0 4\n0 view 2 1 0 0 0 3 1\n",
        says: "2 refused OutOfRange\n3 refused OutOfRange\n4 refused OutOfRange\n5 refused OutOfRange\n6 refused OutOfRange\n7 refused OutOfRange\n8 refused OutOfRange\n9 refused OutOfRange\nend 11\n",
    },
    Row {
        shows: "the elements of structured views, in strides, and of typed ones, in their components",
        log: "0 buffer 1 32 0 2 2 8 -\n0 buffer 2 32 0 2 0 0 -\n0 view 1 1 0 1 0 0 0\n0 view 1 1 0 1 0 0 5\n0 view 1 1 0 1 0 4 1\n0 view 1 2 0 2 1 0 9\n0 view 1 2 0 2 2 1 4\n0 view 1 2 0 2 4 0 3\n0 view 1 2 0 2 4 2 1\n0 view 1 2 0 2 4 0 0\n0 view 1 1 0 1 0 0 4\n0 view 2 1 0 1 0 3 1\n0 view 3 2 0 2 1 0 8\n0 view 4 2 0 2 2 1 3\n0 view 5 2 0 2 4 1 1\n",
        says: "3 refused OutOfRange\n4 refused OutOfRange\n5 refused OutOfRange\n6 refused OutOfRange\n7 refused OutOfRange\n8 refused OutOfRange\n9 refused OutOfRange\n10 refused OutOfRange\nend 15\n",
    },
];
