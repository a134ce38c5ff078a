//! What is asked of a destroy.

use super::Row;

pub(super) static ROWS: [Row; 8] = [
    Row {
        shows: "classes are 1 to 5, asked before the id",
        log: "0 destroy 0 9\n0 destroy 6 9\n0 destroy 4294967295 0\n",
        says: "1 refused BadUsage\n2 refused BadUsage\n3 refused BadUsage\nend 3\n",
    },
    Row {
        shows: "what isn't live can't be destroyed; a list has a name of its own",
        log: "0 buffer 1 16 0 2 1 0 -\n0 view 2 1 0 0 0 0 4\n0 query 3 0\n0 destroy 1 0\n0 destroy 1 2\n0 destroy 2 1\n0 destroy 2 65536\n0 destroy 3 1\n0 destroy 4 1\n0 destroy 5 1\n0 destroy 2 2\n0 destroy 2 2\n0 destroy 1 1\n0 destroy 1 1\n0 destroy 4 3\n0 destroy 4 3\n",
        says: "4 refused UnknownId\n5 refused UnknownId\n6 refused UnknownId\n7 refused UnknownId\n8 refused UnknownId\n9 refused UnknownId\n10 refused UnknownList\n12 refused UnknownId\n14 refused UnknownId\n16 refused UnknownId\nend 16\n",
    },
    Row {
        shows: "a buffer with a live view is in use, and a view that is set",
        log: "0 buffer 1 16 0 6 1 0 -\n0 view 1 1 0 0 0 0 4\n0 view 2 1 1 0 0 0 4\n0 destroy 1 1\n0 set-srv 15 1\n0 destroy 2 1\n0 set-srv 15 0\n0 destroy 2 1\n0 destroy 1 1\n0 set-uav 7 2\n0 destroy 2 2\n0 clear-state\n0 destroy 2 2\n0 destroy 1 1\n",
        says: "4 refused IdInUse\n6 refused IdInUse\n9 refused IdInUse\n11 refused IdInUse\nend 14\n",
    },
    Row {
        shows: "a constant buffer that is set is in use",
        log: "0 buffer 1 16 0 1 0 0 -\n0 set-constant 13 1\n0 destroy 1 1\n0 set-constant 12 0\n0 destroy 1 1\n0 set-constant 13 0\n0 destroy 1 1\n",
        says: "3 refused IdInUse\n5 refused IdInUse\nend 7\n",
    },
    Row {
        shows: "a predicate that is set is in use, a query and a buffer",
        log: "0 buffer 1 16 0 0 4 0 -\n0 query 1 3\n0 begin 1\n0 end-query 1\n0 set-predication 1 1 0 0\n0 destroy 4 1\n0 set-predication 2 1 0 0\n0 destroy 4 1\n0 destroy 1 1\n0 set-predication 0 0 0 0\n0 destroy 1 1\n",
        says: "6 refused IdInUse\n9 refused IdInUse\nend 11\n",
    },
    Row {
        shows: "a query that is begun is in use",
        log: "0 query 1 1\n0 begin 1\n0 destroy 4 1\n0 end-query 1\n0 destroy 4 1\n",
        says: "3 refused IdInUse\nend 5\n",
    },
    Row {
        shows: "a refused destroy leaves the object as it was",
        log: "0 buffer 1 4 0 2 1 0 01020304\n0 buffer 2 4 3 0 0 0 -\n0 view 1 1 0 0 0 0 1\n0 destroy 1 1\n0 copy 2 1\n0 map-read 2 0 0 4\n",
        says: "4 refused IdInUse\n6 bytes 01020304\nend 6\n",
    },
    Row {
        shows: "a buffer made under a destroyed id is another one",
        log: "0 buffer 1 4 0 0 0 0 01020304\n0 buffer 2 4 3 0 0 0 -\n0 copy 2 1\n0 destroy 1 1\n0 buffer 1 4 0 0 0 0 -\n0 map-read 2 0 0 4\n0 copy 2 1\n0 map-read 2 0 0 4\n0 destroy 1 2\n0 map-read 2 0 0 4\n0 buffer 2 4 3 0 0 0 -\n0 map-read 2 1 0 4\n",
        says: "6 bytes 01020304\n8 bytes 00000000\n10 refused UnknownId\n12 bytes 00000000\nend 12\n",
    },
];
