//! What is asked of maps, and which bytes a no-overwrite may write.

use super::Row;

pub(super) static ROWS: [Row; 9] = [
    Row {
        shows: "map-write: the buffer, the mode and the usage that it takes, the range",
        log: "0 buffer 1 16 0 0 0 0 -\n0 buffer 2 4 1 0 0 0 01020304\n0 buffer 3 16 2 2 0 0 -\n0 buffer 4 16 3 0 0 0 -\n0 map-write 9 9 99 01\n0 map-write 0 0 0 01\n0 map-write 3 3 0 01\n0 map-write 4 4294967295 0 01\n0 map-write 1 0 99 01\n0 map-write 2 0 0 01\n0 map-write 4 0 0 01\n0 map-write 1 1 0 01\n0 map-write 2 1 0 01\n0 map-write 4 1 0 01\n0 map-write 1 2 0 01\n0 map-write 2 2 0 01\n0 map-write 3 2 99 01\n0 map-write 3 0 16 01\n0 map-write 3 1 13 01020304\n0 map-write 4 2 13 01020304\n0 map-write 3 0 17 -\n0 map-write 3 1 17 -\n0 map-write 4 2 17 -\n0 map-write 3 0 4294967295 01\n0 map-write 3 0 12 01020304\n0 map-write 3 1 16 -\n0 map-write 4 2 16 -\n0 map-write 4 2 15 aa\n0 map-read 4 0 12 4\n",
        says: "5 refused UnknownId\n6 refused UnknownId\n7 refused NotMappable\n8 refused NotMappable\n9 refused NotMappable\n10 refused NotMappable\n11 refused NotMappable\n12 refused NotMappable\n13 refused NotMappable\n14 refused NotMappable\n15 refused NotMappable\n16 refused NotMappable\n17 refused NotMappable\n18 refused OutOfRange\n19 refused OutOfRange\n20 refused OutOfRange\n21 refused OutOfRange\n22 refused OutOfRange\n23 refused OutOfRange\n24 refused OutOfRange\n29 bytes 000000aa\nend 29\n",
    },
    Row {
        shows: "a discard leaves zeros beside what it writes, and a no-overwrite changes its bytes alone",
        log: "0 buffer 1 8 2 2 0 0 1111111122222222\n0 buffer 2 8 3 0 0 0 -\n0 map-write 1 1 0 33\n0 copy 2 1\n0 map-read 2 0 0 8\n0 map-write 1 0 2 44\n0 map-write 1 1 7 55\n0 copy 2 1\n0 map-read 2 0 0 8\n0 map-write 1 0 0 -\n0 copy 2 1\n0 map-read 2 0 0 8\n",
        says: "5 bytes 3311111122222222\n9 bytes 0000440000000055\n12 bytes 0000000000000000\nend 12\n",
    },
    Row {
        shows: "a no-overwrite meets what a copy binds, to the byte, until the next discard",
        log: "0 buffer 1 32 2 2 0 0 -\n0 buffer 2 32 3 0 0 0 -\n0 map-write 1 1 0 01\n0 copy-region 2 0 1 8 8\n0 map-write 1 1 0 0102030405060708\n0 map-write 1 1 0 010203040506070809\n0 map-write 1 1 15 01\n0 map-write 1 1 15 0102\n0 map-write 1 1 32 01\n0 map-write 1 1 16 aabb\n0 map-write 1 1 8 -\n0 map-write 1 0 0 -\n0 map-write 1 1 8 01\n0 copy 2 1\n0 map-write 1 1 31 01\n0 map-read 2 0 8 2\n",
        says: "6 refused InUse\n7 refused InUse\n8 refused InUse\n9 refused OutOfRange\n15 refused InUse\n16 bytes 0100\nend 16\n",
    },
    Row {
        shows: "a no-overwrite that bytes bound forbid, and those beside them are written",
        log: "0 buffer 1 32 2 2 0 0 -\n0 buffer 2 32 3 0 0 0 -\n0 copy-region 2 0 1 0 16\n0 map-write 1 1 16 01\n0 map-write 1 1 15 aabb\n0 map-read 2 0 0 4\n",
        says: "5 refused InUse\n6 bytes 00000000\nend 6\n",
    },
    Row {
        shows: "an empty copy binds nothing, its predicate's word neither",
        log: "0 buffer 1 16 2 2 4 0 -\n0 buffer 2 16 3 0 0 0 -\n0 set-predication 2 1 0 0\n0 copy-region 2 4 1 4 0\n0 map-write 1 1 0 01020304\n0 map-write 1 1 4 01\n",
        says: "end 6\n",
    },
    Row {
        shows: "a copy that its predicate skips is a use all the same, and so is the predicate's word",
        log: "0 buffer 1 16 2 2 4 0 -\n0 buffer 2 16 3 0 0 0 -\n0 buffer 3 4 0 0 0 0 -\n0 set-predication 2 1 0 0\n0 copy-region 2 8 1 8 4\n0 map-write 1 1 8 01\n0 map-write 1 1 3 01\n0 map-write 1 1 4 01020304\n0 map-write 1 0 0 00000000\n0 map-write 1 1 0 01\n0 map-write 1 0 0 -\n0 update 3 0 -\n0 map-write 1 1 0 -\n0 map-write 1 1 3 00\n0 update 3 0 aabbccdd\n0 map-write 1 1 3 00\n",
        says: "6 refused InUse\n7 refused InUse\n16 refused InUse\nend 16\n",
    },
    Row {
        shows: "a dynamic buffer made under a destroyed id has nothing bound",
        log: "0 buffer 1 16 2 2 0 0 -\n0 buffer 2 16 3 0 0 0 -\n0 copy 2 1\n0 map-write 1 1 0 01\n0 destroy 1 1\n0 buffer 1 16 2 2 0 0 -\n0 map-write 1 1 0 01\n0 copy 2 1\n0 map-read 2 0 0 4\n",
        says: "4 refused InUse\n9 bytes 01000000\nend 9\n",
    },
    Row {
        shows: "map-read: the buffer, its usage and the flag, the range",
        log: "0 buffer 1 16 0 0 0 0 -\n0 buffer 2 4 1 0 0 0 01020304\n0 buffer 3 16 2 2 0 0 -\n0 buffer 4 16 3 0 0 0 000102030405060708090a0b0c0d0e0f\n0 map-read 9 9 0 0\n0 map-read 0 0 0 4\n0 map-read 1 0 0 0\n0 map-read 2 0 0 4\n0 map-read 3 0 0 4\n0 map-read 4 2 0 0\n0 map-read 4 4294967295 0 4\n0 map-read 4 0 0 0\n0 map-read 4 0 16 0\n0 map-read 4 0 0 17\n0 map-read 4 0 15 2\n0 map-read 4 1 16 1\n0 map-read 4 0 4294967295 1\n0 map-read 4 0 1 4294967295\n0 map-read 4 0 15 1\n0 map-read 4 1 0 16\n",
        says: "5 refused UnknownId\n6 refused UnknownId\n7 refused NotMappable\n8 refused NotMappable\n9 refused NotMappable\n10 refused NotMappable\n11 refused NotMappable\n12 refused OutOfRange\n13 refused OutOfRange\n14 refused OutOfRange\n15 refused OutOfRange\n16 refused OutOfRange\n17 refused OutOfRange\n18 refused OutOfRange\n19 bytes 0f\n20 bytes 000102030405060708090a0b0c0d0e0f\nend 20\n",
    },
    Row {
        shows: "a list that isn't live is no list, whatever the flag",
        log: "0 execute-list 1 0\n0 execute-list 0 2\n0 execute-list 65536 1\n",
        says: "1 refused UnknownList\n2 refused UnknownList\n3 refused UnknownList\nend 3\n",
    },
];
