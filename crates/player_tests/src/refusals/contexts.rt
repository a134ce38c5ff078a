//! What is asked of a call's context, before all else.

use super::Row;

pub(super) static ROWS: [Row; 6] = [
    Row {
        shows: "three bad calls, each with the first check that it fails",
        log: "0 map-read 7 0 0 4\n1 map-read 7 0 0 4\n0 dispatch 1 1 1\n",
        says: "1 refused UnknownId\n2 refused WrongContext\n3 refused BadShader\nend 3\n",
    },
    Row {
        shows: "creations and destroys off the immediate context, before all other checks",
        log: "1 buffer 0 0 9 9 9 9 -\n16 view 0 0 9 9 9 9 9\n1 query 0 9\n2 destroy 9 0\n17 buffer 1 16 0 0 0 0 -\n65535 destroy 1 1\n",
        says: "1 refused WrongContext\n2 refused WrongContext\n3 refused WrongContext\n4 refused WrongContext\n5 refused WrongContext\n6 refused WrongContext\nend 6\n",
    },
    Row {
        shows: "readbacks, flush and execute-list off the immediate context",
        log: "1 map-read 7 0 0 4\n16 get-data 7 9\n3 flush\n4 execute-list 7 9\n17 flush\n",
        says: "1 refused WrongContext\n2 refused WrongContext\n3 refused WrongContext\n4 refused WrongContext\n5 refused WrongContext\nend 5\n",
    },
    Row {
        shows: "a list is finished on contexts 1 to 16 alone",
        log: "0 finish-list 0\n17 finish-list 1\n",
        says: "1 refused WrongContext\n2 refused WrongContext\nend 2\n",
    },
    Row {
        shows: "contexts above 16 take no call",
        log: "17 set-shader 9\n17 set-constant 99 9\n17 set-srv 99 9\n17 set-uav 99 9\n17 clear-state\n17 dispatch 1 1 1\n17 dispatch-indirect 9 0\n17 copy-region 9 0 9 0 0\n17 copy 9 9\n17 update 9 0 -\n17 clear-uav 9 0 0 0 0\n17 set-predication 9 0 0 0\n17 begin 9\n17 end-query 9\n65535 map-write 9 9 0 -\n",
        says: "1 refused WrongContext\n2 refused WrongContext\n3 refused WrongContext\n4 refused WrongContext\n5 refused WrongContext\n6 refused WrongContext\n7 refused WrongContext\n8 refused WrongContext\n9 refused WrongContext\n10 refused WrongContext\n11 refused WrongContext\n12 refused WrongContext\n13 refused WrongContext\n14 refused WrongContext\n15 refused WrongContext\nend 15\n",
    },
    Row {
        shows: "flush and clear-state are never refused on the immediate context",
        log: "0 flush\n0 clear-state\n0 flush\n",
        says: "end 3\n",
    },
];
