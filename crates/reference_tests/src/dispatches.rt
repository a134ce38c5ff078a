//! Dispatches with no checks: what they leave, and how many invocations a query counts.

use crate::runs::{Row, play};
use std::test::Fail;

/// A shader that adds 1 to word 0 of unordered access view 0, which is raw, in groups of two threads.
const COUNTS: &str = "0 shader 1 \
     010000001c00000001040000020000000100000001000000050400000000000000000000000000003812000007000000\
     000100000100000000000000000000000000000000000000010000000000000000000000000000000000000001000000\
     01000000000000000000000000000000\n0 set-shader 1\n0 set-uav 0 1\n";

/// Buffer 2 has the counts of groups 65,536, 1, 2, 2, 4,096, 4,096 and 1. The query counts from here on.
const GROUPS: &str =
    "0 buffer 2 28 0 0 0 0 00000100010000000200000002000000001000000010000001000000\n0 query 1 2\n0 begin 1\n";

/// Buffer 1 with a raw view of its first word.
const RAW: &str = "0 buffer 1 16 0 0 0 0 -\n0 view 1 1 1 0 1 0 1\n";

const TYPED: &str = "0 buffer 1 16 0 0 0 0 -\n0 view 1 1 1 2 1 0 1\n";

const ENDED: &str = "0 end-query 1\n0 map-read 1 0 0 4\n0 get-data 1 0\n";

// What is said is the first word of buffer 1, and the invocations that are counted. The predicate of kind 1 is a query's
// result, which is the value.
static DISPATCHES: [Row; 8] = [
    Row {
        shows: "three groups in a row",
        log: &[
            RAW,
            COUNTS,
            GROUPS,
            "0 set-predication 0 1 0 0\n0 dispatch 3 1 1\n",
            ENDED,
        ],
        says: "12 bytes 06000000\n13 query 6\n",
    },
    Row {
        shows: "groups in three dimensions",
        log: &[
            RAW,
            COUNTS,
            GROUPS,
            "0 set-predication 0 1 0 0\n0 dispatch 2 3 4\n",
            ENDED,
        ],
        says: "12 bytes 30000000\n13 query 48\n",
    },
    Row {
        shows: "no group in a dimension",
        log: &[
            RAW,
            COUNTS,
            GROUPS,
            "0 set-predication 0 1 0 0\n0 dispatch 2 0 4\n",
            ENDED,
        ],
        says: "12 bytes 00000000\n13 query 0\n",
    },
    Row {
        shows: "a view of another form counts as none",
        log: &[
            TYPED,
            COUNTS,
            GROUPS,
            "0 set-predication 0 1 0 0\n0 dispatch 3 1 1\n",
            ENDED,
        ],
        says: "12 bytes 00000000\n13 query 6\n",
    },
    Row {
        shows: "a predicate skips a dispatch",
        log: &[
            RAW,
            COUNTS,
            GROUPS,
            "0 set-predication 1 1 0 0\n0 dispatch 3 1 1\n",
            ENDED,
        ],
        says: "12 bytes 00000000\n13 query 0\n",
    },
    Row {
        shows: "indirect counts of more than 65,535 groups",
        log: &[
            RAW,
            COUNTS,
            GROUPS,
            "0 set-predication 0 1 0 0\n0 dispatch-indirect 2 0\n",
            ENDED,
        ],
        says: "12 bytes 00000000\n13 query 0\n",
    },
    Row {
        shows: "indirect counts from byte 4 on",
        log: &[
            RAW,
            COUNTS,
            GROUPS,
            "0 set-predication 0 1 0 0\n0 dispatch-indirect 2 4\n",
            ENDED,
        ],
        says: "12 bytes 08000000\n13 query 8\n",
    },
    Row {
        shows: "indirect counts that come to too many groups together",
        log: &[
            RAW,
            COUNTS,
            GROUPS,
            "0 set-predication 0 1 0 0\n0 dispatch-indirect 2 16\n",
            ENDED,
        ],
        says: "12 bytes 00000000\n13 query 0\n",
    },
];

#[test]
fn dispatches(rt: HostRuntime) -> Result<(), Fail> {
    play(&rt, rt.alloc(), &DISPATCHES)
}

/// A shader in whose group of 64 threads each adds 1 to a word of unordered access view 0: the word whose number is its own
/// word of resource 0 and the first constant together, modulo 256.
const ADDS: &str = "0 shader 1 \
     010000004100000001040000400000000100000001000000020200000100000003020000000000000404000000000000\
     000000000000000005040000000000000000000000000000200800001000000003000000010000000200000000000000\
     00000000000000003004000010000000000000000000000012050000100000000000000002000000000000001c080000\
     100000000000000001000000ff0000000000000000000000000000002008000010000000000000000100000002000000\
     000000000000000000000000380e00000700000000010000000000000100000000000000000000000000000000000000\
     0100000001000000000000000000000000000000\n0 set-shader 1\n";

/// A buffer to write, one whose word is 0xffffffff and one of the constant 1, with views of the first two.
const BUFFERS: &str =
    "0 buffer 1 16 0 0 0 0 -\n0 view 1 1 1 0 0 0 1\n0 buffer 2 4 0 0 0 0 ffffffff\n0 view 2 2 1 0 0 0 1\n\
     0 buffer 3 16 0 0 0 0 01000000000000000000000000000000\n";

// Thread 0 reads 0xffffffff and adds the constant 1 to it; the others read outside the view, and write outside.
static ALL_KINDS_OF_SLOTS: [Row; 1] = [Row {
    shows: "a view to write, a view to read and a constant buffer",
    log: &[
        BUFFERS,
        ADDS,
        "0 set-uav 0 1\n0 set-srv 0 2\n0 set-constant 0 3\n0 dispatch 1 1 1\n0 map-read 1 0 0 8\n",
    ],
    says: "12 bytes 0100000000000000\n",
}];

#[test]
fn all_kinds_of_slots(rt: HostRuntime) -> Result<(), Fail> {
    play(&rt, rt.alloc(), &ALL_KINDS_OF_SLOTS)
}
