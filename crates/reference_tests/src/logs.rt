//! Logs of updates, copies, maps and queries and on a deferred context, played with no checks.

use crate::runs::{Row, play};
use std::test::Fail;

static UPDATES_AND_COPIES: [Row; 1] = [Row {
    shows: "updates, copies and readbacks; a destroyed view leaves the buffer of its number",
    log: &[
        "0 buffer 2 16 0 0 0 0 -\n0 buffer 3 16 3 0 0 0 -\n0 update 2 0 000102030405060708090a0b0c0d0e0f\n0 copy 3 2\n0 map-read 3 0 0 16\n0 destroy 2 3\n0 copy-region 3 0 2 12 2\n0 map-read 3 0 0 3\n0 destroy 1 3\n0 buffer 3 4 3 0 0 0 -\n0 map-read 3 0 0 4\n",
    ],
    says: "5 bytes 000102030405060708090a0b0c0d0e0f\n8 bytes 0c0d02\n11 bytes 00000000\n",
}];

#[test]
fn updates_and_copies(rt: HostRuntime) -> Result<(), Fail> {
    play(&rt, rt.alloc(), &UPDATES_AND_COPIES)
}

static WORD_PREDICATES: [Row; 2] = [
    Row {
        shows: "a copy is skipped where the word of its predicate is the value",
        log: &[
            "0 buffer 1 4 0 4 5 0 -\n0 view 1 1 1 0 0 0 1\n0 buffer 2 4 0 0 0 0 aaaaaaaa\n0 buffer 3 4 3 0 0 0 -\n0 clear-uav 1 1 0 0 0\n0 set-predication 2 1 0 1\n0 copy 3 2\n0 map-read 3 0 0 4\n",
        ],
        says: "8 bytes 00000000\n",
    },
    Row {
        shows: "a copy is not skipped where the word of its predicate is not the value",
        log: &[
            "0 buffer 1 4 0 4 5 0 -\n0 view 1 1 1 0 0 0 1\n0 buffer 2 4 0 0 0 0 aaaaaaaa\n0 buffer 3 4 3 0 0 0 -\n0 clear-uav 1 1 0 0 0\n0 set-predication 2 1 0 0\n0 copy 3 2\n0 map-read 3 0 0 4\n",
        ],
        says: "8 bytes aaaaaaaa\n",
    },
];

#[test]
fn a_word_predicate_skips_a_copy(rt: HostRuntime) -> Result<(), Fail> {
    play(&rt, rt.alloc(), &WORD_PREDICATES)
}

// Each map of a buffer that holds bytes 0 to 7, under a predicate by query, which skips an update but no map.
static MAPS: [Row; 3] = [
    Row {
        shows: "a map that discards",
        log: &[
            "0 buffer 1 8 3 0 0 0 0001020304050607\n0 query 1 3\n0 begin 1\n0 end-query 1\n0 set-predication 1 1 0 0\n0 update 1 0 01010101\n0 dispatch 1 1 1\n0 map-write 1 0 2 aabb\n0 map-read 1 0 0 8\n",
        ],
        says: "9 bytes 0000aabb00000000\n",
    },
    Row {
        shows: "a map that overwrites nothing in use",
        log: &[
            "0 buffer 1 8 3 0 0 0 0001020304050607\n0 query 1 3\n0 begin 1\n0 end-query 1\n0 set-predication 1 1 0 0\n0 update 1 0 01010101\n0 dispatch 1 1 1\n0 map-write 1 1 2 aabb\n0 map-read 1 0 0 8\n",
        ],
        says: "9 bytes 0001aabb04050607\n",
    },
    Row {
        shows: "a map that writes",
        log: &[
            "0 buffer 1 8 3 0 0 0 0001020304050607\n0 query 1 3\n0 begin 1\n0 end-query 1\n0 set-predication 1 1 0 0\n0 update 1 0 01010101\n0 dispatch 1 1 1\n0 map-write 1 2 2 aabb\n0 map-read 1 0 0 8\n",
        ],
        says: "9 bytes 0001aabb04050607\n",
    },
];

#[test]
fn maps_are_not_predicated(rt: HostRuntime) -> Result<(), Fail> {
    play(&rt, rt.alloc(), &MAPS)
}

static QUERIES: [Row; 4] = [
    Row {
        shows: "an event has happened",
        log: &["0 query 9 0\n0 begin 9\n0 end-query 9\n0 get-data 9 0\n"],
        says: "4 query 1\n",
    },
    Row {
        shows: "occlusion is 0 without draws",
        log: &["0 query 9 1\n0 begin 9\n0 end-query 9\n0 get-data 9 0\n"],
        says: "4 query 0\n",
    },
    Row {
        shows: "no invocation was counted",
        log: &["0 query 9 2\n0 begin 9\n0 end-query 9\n0 get-data 9 0\n"],
        says: "4 query 0\n",
    },
    Row {
        shows: "a predicate is 0 without draws",
        log: &["0 query 9 3\n0 begin 9\n0 end-query 9\n0 get-data 9 0\n"],
        says: "4 query 0\n",
    },
];

#[test]
fn queries_answer_by_their_sort(rt: HostRuntime) -> Result<(), Fail> {
    play(&rt, rt.alloc(), &QUERIES)
}

// On a deferred context a call is recorded, and changes no byte.
static DEFERRED: [Row; 1] = [Row {
    shows: "an update on a deferred context, and the same on the immediate one",
    log: &[
        "0 buffer 1 4 3 0 0 0 01020304\n1 update 1 0 05060708\n0 map-read 1 0 0 4\n0 update 1 0 05060708\n0 map-read 1 0 0 4\n",
    ],
    says: "3 bytes 01020304\n5 bytes 05060708\n",
}];

#[test]
fn deferred_contexts_change_nothing(rt: HostRuntime) -> Result<(), Fail> {
    play(&rt, rt.alloc(), &DEFERRED)
}
