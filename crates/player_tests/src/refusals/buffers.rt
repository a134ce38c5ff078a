//! What is asked of a buffer's creation.

use super::Row;

pub(super) static ROWS: [Row; 12] = [
    Row {
        shows: "a buffer's id is from 1 to 65535, asked before the rest",
        log: "0 buffer 0 16 9 0 0 0 -\n0 buffer 65536 16 9 0 0 0 -\n0 buffer 4294967295 16 0 0 0 0 -\n0 buffer 1 16 0 0 0 0 -\n0 buffer 65535 16 0 0 0 0 -\n",
        says: "1 refused OutOfRange\n2 refused OutOfRange\n3 refused OutOfRange\nend 5\n",
    },
    Row {
        shows: "a live id, asked before the usage; free again once it is destroyed",
        log: "0 buffer 1 16 0 0 0 0 -\n0 buffer 1 16 9 0 0 0 -\n0 destroy 1 1\n0 buffer 1 16 0 0 0 0 -\n",
        says: "2 refused IdInUse\nend 4\n",
    },
    Row {
        shows: "usages above 3, and immutable without bytes, asked before the size",
        log: "0 buffer 1 0 4 0 0 0 -\n0 buffer 1 0 1 0 0 0 -\n0 buffer 1 16 4294967295 0 0 0 -\n0 buffer 1 4 1 0 0 0 01020304\n0 buffer 2 4 3 0 0 0 -\n",
        says: "1 refused BadUsage\n2 refused BadUsage\n3 refused BadUsage\nend 5\n",
    },
    Row {
        shows: "sizes of 0, of no whole words and above the limits, asked before the bind bits",
        log: "0 buffer 1 0 0 8 0 0 -\n0 buffer 1 1 0 8 0 0 -\n0 buffer 1 6 0 0 0 0 -\n0 buffer 1 16777220 0 0 0 0 -\n0 buffer 1 4294967292 0 0 0 0 -\n0 buffer 1 4194308 2 2 0 0 -\n0 buffer 1 16777216 0 0 0 0 -\n0 buffer 2 4194304 2 2 0 0 -\n0 buffer 3 4 0 0 0 0 -\n",
        says: "1 refused BadSize\n2 refused BadSize\n3 refused BadSize\n4 refused BadSize\n5 refused BadSize\n6 refused BadSize\nend 9\n",
    },
    Row {
        shows: "bytes are none, or exactly the size",
        log: "0 buffer 1 8 0 0 0 0 00\n0 buffer 1 8 0 0 0 0 00000000\n0 buffer 1 8 0 0 0 0 000000000000000000000000\n0 buffer 1 8 1 0 0 0 00000000\n0 buffer 1 8 0 0 0 0 0000000000000000\n",
        says: "1 refused BadSize\n2 refused BadSize\n3 refused BadSize\n4 refused BadSize\nend 5\n",
    },
    Row {
        shows: "constant buffers have whole vectors, at most 65536 bytes",
        log: "0 buffer 1 20 0 1 0 0 -\n0 buffer 1 8 2 1 0 0 -\n0 buffer 1 65552 0 1 0 0 -\n0 buffer 1 20 0 3 0 0 -\n0 buffer 1 65536 0 1 0 0 -\n0 buffer 2 16 2 1 0 0 -\n",
        says: "1 refused BadSize\n2 refused BadSize\n3 refused BadSize\n4 refused BadSize\nend 6\n",
    },
    Row {
        shows: "strides of structured buffers, from 4 to 2048 in whole words, and sizes of whole elements",
        log: "0 buffer 1 4096 0 2 2 0 -\n0 buffer 1 4096 0 2 2 2 -\n0 buffer 1 4096 0 2 2 6 -\n0 buffer 1 8208 0 2 2 2052 -\n0 buffer 1 12 0 2 2 8 -\n0 buffer 1 12 0 0 3 8 -\n0 buffer 1 4096 0 2 2 2048 -\n0 buffer 2 4 0 4 2 4 -\n0 buffer 3 16 0 6 6 8 -\n",
        says: "1 refused BadSize\n2 refused BadSize\n3 refused BadSize\n4 refused BadSize\n5 refused BadSize\n6 refused BadSize\nend 9\n",
    },
    Row {
        shows: "no stride where the buffer isn't structured",
        log: "0 buffer 1 16 0 2 0 4 -\n0 buffer 1 16 0 2 1 4 -\n0 buffer 1 16 0 2 4 4 -\n0 buffer 1 16 0 2 1 0 -\n",
        says: "1 refused BadSize\n2 refused BadSize\n3 refused BadSize\nend 4\n",
    },
    Row {
        shows: "bind and misc bits above 7",
        log: "0 buffer 1 16 0 8 0 0 -\n0 buffer 1 16 0 4294967280 0 0 -\n0 buffer 1 16 0 2 8 0 -\n0 buffer 1 16 0 2 10 4 -\n",
        says: "1 refused BadBind\n2 refused BadBind\n3 refused BadBind\n4 refused BadBind\nend 4\n",
    },
    Row {
        shows: "a constant buffer has no other bind bit",
        log: "0 buffer 1 16 0 3 0 0 -\n0 buffer 1 16 0 5 0 0 -\n0 buffer 1 16 0 7 0 0 -\n0 buffer 1 16 0 1 0 0 -\n0 buffer 2 16 0 6 0 0 -\n",
        says: "1 refused BadBind\n2 refused BadBind\n3 refused BadBind\nend 5\n",
    },
    Row {
        shows: "bind bits of each usage",
        log: "0 buffer 1 16 3 1 0 0 -\n0 buffer 1 16 3 2 0 0 -\n0 buffer 1 16 3 4 0 0 -\n0 buffer 1 16 2 0 0 0 -\n0 buffer 1 16 2 4 0 0 -\n0 buffer 1 16 2 6 0 0 -\n0 buffer 1 4 1 4 0 0 00000000\n0 buffer 1 4 1 6 0 0 00000000\n0 buffer 1 16 2 1 0 0 -\n0 buffer 2 16 2 2 0 0 -\n0 buffer 3 4 1 2 0 0 00000000\n0 buffer 4 16 1 1 0 0 00000000000000000000000000000000\n0 buffer 5 16 3 0 0 0 -\n",
        says: "1 refused BadBind\n2 refused BadBind\n3 refused BadBind\n4 refused BadBind\n5 refused BadBind\n6 refused BadBind\n7 refused BadBind\n8 refused BadBind\nend 13\n",
    },
    Row {
        shows: "raw and structured are two forms, each of a buffer with views",
        log: "0 buffer 1 16 0 2 3 4 -\n0 buffer 1 16 0 0 1 0 -\n0 buffer 1 16 0 0 2 4 -\n0 buffer 1 16 0 1 1 0 -\n0 buffer 1 16 3 0 1 0 -\n0 buffer 1 16 0 1 2 4 -\n0 buffer 1 16 0 2 1 0 -\n0 buffer 2 16 0 4 2 4 -\n0 buffer 3 16 0 4 5 0 -\n0 buffer 4 16 0 0 4 0 -\n0 buffer 5 16 3 0 4 0 -\n",
        says: "1 refused BadBind\n2 refused BadBind\n3 refused BadBind\n4 refused BadBind\n5 refused BadBind\n6 refused BadBind\nend 11\n",
    },
];
