//! What is asked of bindings and predicates, and what they empty.

use super::Row;

pub(super) static ROWS: [Row; 11] = [
    Row {
        shows: "a shader that isn't live can't be set; 0 is none",
        log: "0 set-shader 1\n0 set-shader 65536\n0 set-shader 0\n",
        says: "1 refused UnknownId\n2 refused UnknownId\nend 3\n",
    },
    Row {
        shows: "constant buffers: the slot, then the buffer, then its bind bit; 0 empties",
        log: "0 buffer 1 16 0 1 0 0 -\n0 buffer 2 16 0 2 0 0 -\n0 set-constant 14 9\n0 set-constant 4294967295 1\n0 set-constant 14 0\n0 set-constant 13 9\n0 set-constant 13 2\n0 set-constant 13 1\n0 set-constant 0 1\n0 set-constant 13 0\n",
        says: "3 refused OutOfRange\n4 refused OutOfRange\n5 refused OutOfRange\n6 refused UnknownId\n7 refused BadBind\nend 10\n",
    },
    Row {
        shows: "shader resources: the slot, then the view, then its kind; 0 empties",
        log: "0 buffer 1 16 0 6 1 0 -\n0 view 1 1 0 0 0 0 4\n0 view 2 1 1 0 0 0 4\n0 set-srv 16 9\n0 set-srv 16 0\n0 set-srv 15 9\n0 set-srv 15 2\n0 set-srv 15 1\n0 set-srv 15 0\n",
        says: "4 refused OutOfRange\n5 refused OutOfRange\n6 refused UnknownId\n7 refused BadBind\nend 9\n",
    },
    Row {
        shows: "unordered access: the slot, then the view, then its kind; 0 empties",
        log: "0 buffer 1 16 0 6 1 0 -\n0 view 1 1 0 0 0 0 4\n0 view 2 1 1 0 0 0 4\n0 set-uav 8 9\n0 set-uav 8 0\n0 set-uav 7 9\n0 set-uav 7 1\n0 set-uav 7 2\n0 set-uav 7 0\n",
        says: "4 refused OutOfRange\n5 refused OutOfRange\n6 refused UnknownId\n7 refused BadBind\nend 9\n",
    },
    Row {
        shows: "setting for unordered access empties each slot with a view of the same buffer, and no other",
        log: "0 buffer 1 16 0 6 1 0 -\n0 buffer 2 16 0 6 1 0 -\n0 view 1 1 0 0 0 0 4\n0 view 2 1 0 0 0 0 1\n0 view 3 1 1 0 0 0 4\n0 view 4 1 1 0 0 0 1\n0 view 5 2 0 0 0 0 4\n0 view 6 2 1 0 0 0 4\n0 set-srv 0 1\n0 set-srv 3 2\n0 set-srv 4 5\n0 set-uav 0 3\n0 destroy 2 1\n0 destroy 2 2\n0 destroy 2 5\n0 destroy 2 3\n0 set-uav 5 4\n0 destroy 2 3\n0 destroy 2 4\n0 set-uav 6 6\n0 destroy 2 5\n0 destroy 2 4\n0 destroy 2 6\n",
        says: "15 refused IdInUse\n16 refused IdInUse\n19 refused IdInUse\n22 refused IdInUse\n23 refused IdInUse\nend 23\n",
    },
    Row {
        shows: "a shader resource of a buffer that is set for unordered access leaves its slot empty",
        log: "0 buffer 1 16 0 6 1 0 -\n0 buffer 2 16 0 2 1 0 -\n0 view 1 1 0 0 0 0 4\n0 view 2 1 1 0 0 0 4\n0 view 3 2 0 0 0 0 4\n0 set-uav 0 2\n0 set-srv 1 3\n0 destroy 2 3\n0 set-srv 1 1\n0 destroy 2 3\n0 destroy 2 1\n0 destroy 2 2\n",
        says: "8 refused IdInUse\n12 refused IdInUse\nend 12\n",
    },
    Row {
        shows: "predication: its kind, then its value, and none has all zeros",
        log: "0 set-predication 3 9 9 9\n0 set-predication 4294967295 0 0 0\n0 set-predication 1 9 9 2\n0 set-predication 2 9 9 2\n0 set-predication 0 0 0 2\n0 set-predication 0 1 0 0\n0 set-predication 0 0 4 0\n0 set-predication 0 0 0 1\n0 set-predication 0 0 0 0\n",
        says: "1 refused BadUsage\n2 refused BadUsage\n3 refused OutOfRange\n4 refused OutOfRange\n5 refused OutOfRange\n6 refused OutOfRange\n7 refused OutOfRange\n8 refused OutOfRange\nend 9\n",
    },
    Row {
        shows: "predication by a query: live, of its sort, ended and not begun, and no offset",
        log: "0 query 1 0\n0 query 2 1\n0 query 3 2\n0 query 4 3\n0 end-query 1\n0 begin 2\n0 end-query 2\n0 begin 3\n0 end-query 3\n0 set-predication 1 0 0 0\n0 set-predication 1 9 4 1\n0 set-predication 1 1 4 0\n0 set-predication 1 2 0 0\n0 set-predication 1 3 0 0\n0 set-predication 1 4 4 0\n0 begin 4\n0 set-predication 1 4 0 0\n0 end-query 4\n0 set-predication 1 4 4 0\n0 set-predication 1 4 1 0\n0 set-predication 1 4 0 0\n0 set-predication 1 4 0 1\n0 begin 4\n0 set-predication 1 4 0 1\n",
        says: "10 refused UnknownId\n11 refused UnknownId\n12 refused QueryState\n13 refused QueryState\n14 refused QueryState\n15 refused QueryState\n17 refused QueryState\n19 refused OutOfRange\n20 refused OutOfRange\n24 refused QueryState\nend 24\n",
    },
    Row {
        shows: "predication by a word: a live buffer of indirect arguments, and a whole word inside",
        log: "0 buffer 1 16 0 0 4 0 -\n0 buffer 2 16 0 2 1 0 -\n0 set-predication 2 0 0 0\n0 set-predication 2 9 1 0\n0 set-predication 2 2 1 0\n0 set-predication 2 1 1 0\n0 set-predication 2 1 14 0\n0 set-predication 2 1 16 0\n0 set-predication 2 1 4294967292 1\n0 set-predication 2 1 12 0\n0 set-predication 2 1 0 1\n",
        says: "3 refused UnknownId\n4 refused UnknownId\n5 refused BadBind\n6 refused OutOfRange\n7 refused OutOfRange\n8 refused OutOfRange\n9 refused OutOfRange\nend 11\n",
    },
    Row {
        shows: "what is skipped, by the word and the value",
        log: "0 buffer 1 8 0 0 4 0 0000000000010000\n0 buffer 2 4 0 0 0 0 01010101\n0 buffer 3 4 0 0 0 0 02020202\n0 buffer 4 4 3 0 0 0 -\n0 set-predication 2 1 0 0\n0 copy 4 2\n0 map-read 4 0 0 4\n0 set-predication 2 1 0 1\n0 copy 4 2\n0 map-read 4 0 0 4\n0 set-predication 2 1 4 1\n0 copy 4 3\n0 map-read 4 0 0 4\n0 set-predication 2 1 4 0\n0 copy 4 3\n0 map-read 4 0 0 4\n",
        says: "7 bytes 00000000\n10 bytes 01010101\n13 bytes 01010101\n16 bytes 02020202\nend 16\n",
    },
    Row {
        shows: "an occlusion predicate is 0, and a query that is set may be begun",
        log: "0 buffer 1 4 0 0 0 0 01010101\n0 buffer 2 4 3 0 0 0 -\n0 query 1 3\n0 begin 1\n0 end-query 1\n0 set-predication 1 1 0 0\n0 copy 2 1\n0 map-read 2 0 0 4\n0 begin 1\n0 set-predication 0 0 0 0\n0 end-query 1\n0 set-predication 1 1 0 1\n0 copy 2 1\n0 map-read 2 0 0 4\n",
        says: "8 bytes 00000000\n14 bytes 01010101\nend 14\n",
    },
];
