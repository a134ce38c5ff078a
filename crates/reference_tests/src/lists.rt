//! Command lists: what deferred contexts record, what is refused there, and what a list does each time that it runs.

use crate::runs::{Row, run};
use std::test::Fail;

static LISTS: [Row; 11] = [
    Row {
        shows: "the first map of an open list discards; no overwrite meets what the list itself binds",
        log: &[
            "0 buffer 1 8 2 2 0 0 -\n0 buffer 2 8 3 0 0 0 -\n1 map-write 1 1 0 01\n1 map-write 1 0 0 01\n1 copy-region 2 0 1 0 4\n1 map-write 1 1 3 02\n1 map-write 1 1 4 02\n",
            "2 map-write 1 1 4 02\n",
        ],
        says: "3 refused FirstMapNotDiscard\n6 refused InUse\n8 refused FirstMapNotDiscard\nend 8\n",
    },
    Row {
        shows: "what a list names is not destroyed until the list is",
        log: &[
            "0 buffer 1 4 0 0 0 0 -\n0 buffer 2 4 3 0 0 0 -\n1 copy 2 1\n0 destroy 1 1\n1 finish-list 7\n0 destroy 1 2\n0 destroy 5 7\n0 destroy 1 1\n0 destroy 1 2\n",
        ],
        says: "4 refused IdInUse\n6 refused IdInUse\nend 9\n",
    },
    Row {
        shows: "lists that are not there, an unknown flag, calls on the wrong context",
        log: &[
            "0 execute-list 3 0\n0 destroy 5 3\n1 finish-list 1\n0 execute-list 1 2\n2 finish-list 1\n0 finish-list 2\n1 execute-list 1 0\n17 set-shader 0\n1 flush\n",
        ],
        says: "1 refused UnknownList\n2 refused UnknownList\n4 refused BadUsage\n5 refused IdInUse\n6 refused WrongContext\n7 refused WrongContext\n8 refused WrongContext\n9 refused WrongContext\nend 9\n",
    },
    Row {
        shows: "empty lists, executed with both flags",
        log: &["1 finish-list 1\n0 execute-list 1 1\n0 execute-list 1 0\n"],
        says: "end 3\n",
    },
    Row {
        shows: "a query that is begun outside counts what the lists run: groups of three threads",
        log: &[
            "0 shader 1 010000000600000001040000030000000100000001000000\n1 set-shader 1\n1 dispatch 2 1 1\n1 finish-list 1\n0 query 1 2\n0 begin 1\n0 execute-list 1 1\n0 execute-list 1 1\n0 end-query 1\n0 get-data 1 0\n",
        ],
        says: "10 query 12\nend 10\n",
    },
    Row {
        shows: "a list that begins a query which is begun, and one that is finished in between",
        log: &[
            "0 query 1 2\n1 begin 1\n1 finish-list 1\n1 end-query 1\n1 finish-list 1\n0 begin 1\n0 execute-list 1 0\n0 end-query 1\n0 execute-list 1 0\n0 get-data 1 0\n",
        ],
        says: "3 refused QueryState\n7 refused QueryState\n10 query 0\nend 10\n",
    },
    Row {
        shows: "each context has its own shader",
        log: &[
            "0 shader 1 010000000600000001040000030000000100000001000000\n1 set-shader 1\n2 dispatch 1 1 1\n0 dispatch 1 1 1\n1 dispatch 1 1 1\n1 finish-list 1\n1 dispatch 1 1 1\n",
        ],
        says: "3 refused BadShader\n4 refused BadShader\n7 refused BadShader\nend 7\n",
    },
    Row {
        shows: "a refused call is not recorded",
        log: &[
            "0 buffer 1 4 0 0 0 0 11111111\n0 buffer 2 4 3 0 0 0 -\n1 copy 2 9\n1 finish-list 1\n0 execute-list 1 0\n0 map-read 2 0 0 4\n",
        ],
        says: "3 refused UnknownId\n6 bytes 00000000\nend 6\n",
    },
    Row {
        shows: "the id of a destroyed list is used again",
        log: &[
            "0 buffer 1 4 0 0 0 0 -\n0 buffer 2 4 3 0 0 0 -\n1 update 1 0 aaaaaaaa\n1 finish-list 1\n0 execute-list 1 0\n0 copy 2 1\n0 map-read 2 0 0 4\n0 destroy 5 1\n1 update 1 0 bbbbbbbb\n",
            "1 finish-list 1\n0 execute-list 1 0\n0 copy 2 1\n0 map-read 2 0 0 4\n",
        ],
        says: "7 bytes aaaaaaaa\n13 bytes bbbbbbbb\nend 13\n",
    },
    Row {
        shows: "what a list binds is in use once it runs, and not before",
        log: &[
            "0 buffer 1 8 2 2 0 0 -\n0 buffer 2 8 3 0 0 0 -\n1 copy-region 2 0 1 0 4\n1 finish-list 1\n0 map-write 1 1 0 01\n0 execute-list 1 0\n0 map-write 1 1 3 01\n0 map-write 1 1 4 01\n",
        ],
        says: "7 refused InUse\nend 8\n",
    },
    Row {
        shows: "a list's own predicate skips a copy, and is not set behind the list",
        log: &[
            "0 buffer 1 4 0 0 4 0 01000000\n0 buffer 2 4 0 0 0 0 aaaaaaaa\n0 buffer 3 4 3 0 0 0 -\n1 set-predication 2 1 0 1\n1 copy 3 2\n1 finish-list 1\n0 execute-list 1 1\n0 map-read 3 0 0 4\n0 copy 3 2\n",
            "0 map-read 3 0 0 4\n",
        ],
        says: "8 bytes 00000000\n10 bytes aaaaaaaa\nend 10\n",
    },
];

#[test]
fn lists_in_order(rt: HostRuntime) -> Result<(), Fail> {
    run(&rt, rt.alloc(), &LISTS)
}
