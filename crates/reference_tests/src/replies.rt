//! What a run of a log in order says, and which logs are not run.

use crate::runs::{Row, answers, run};
use d3d_plan::PlanEnd;
use std::test::Fail;

static LOGS: [Row; 7] = [
    Row {
        shows: "a log of no call",
        log: &[],
        says: "end 0\n",
    },
    Row {
        shows: "an update, a copy and a readback",
        log: &[
            "0 buffer 1 16 0 0 0 0 -\n0 buffer 2 16 3 0 0 0 -\n0 update 1 0 000102030405060708090a0b0c0d0e0f\n0 copy 2 1\n0 map-read 2 0 0 16\n",
        ],
        says: "5 bytes 000102030405060708090a0b0c0d0e0f\nend 5\n",
    },
    Row {
        shows: "refused calls",
        log: &["0 map-read 7 0 0 4\n1 map-read 7 0 0 4\n0 dispatch 1 1 1\n"],
        says: "1 refused UnknownId\n2 refused WrongContext\n3 refused BadShader\nend 3\n",
    },
    Row {
        shows: "bytes in use are not overwritten, those beside them may be",
        log: &[
            "0 buffer 1 32 2 2 0 0 -\n0 buffer 2 32 3 0 0 0 -\n0 copy-region 2 0 1 0 16\n0 map-write 1 1 16 01\n0 map-write 1 1 15 aabb\n0 map-read 2 0 0 4\n",
        ],
        says: "5 refused InUse\n6 bytes 00000000\nend 6\n",
    },
    Row {
        shows: "the word of a predicate skips a copy",
        log: &[
            "0 buffer 1 4 0 4 5 0 -\n0 view 1 1 1 0 0 0 1\n0 buffer 2 4 0 0 0 0 aaaaaaaa\n0 buffer 3 4 3 0 0 0 -\n0 clear-uav 1 1 0 0 0\n0 set-predication 2 1 0 1\n0 copy 3 2\n0 map-read 3 0 0 4\n",
        ],
        says: "8 bytes 00000000\nend 8\n",
    },
    Row {
        shows: "queries, ended and not",
        log: &[
            "0 query 1 0\n0 get-data 1 0\n0 end-query 1\n0 get-data 1 0\n0 query 2 2\n0 begin 2\n0 end-query 2\n0 get-data 2 0\n",
        ],
        says: "2 refused QueryState\n4 query 1\n8 query 0\nend 8\n",
    },
    Row {
        shows: "a map that discards, and a buffer made under a destroyed id",
        log: &[
            "0 buffer 1 8 2 2 0 0 1111111122222222\n0 buffer 2 8 3 0 0 0 -\n0 map-write 1 0 4 33333333\n0 copy 2 1\n0 map-read 2 0 0 8\n0 destroy 1 2\n0 buffer 2 4 3 0 0 0 -\n0 map-read 2 0 0 4\n",
        ],
        says: "5 bytes 0000000033333333\n8 bytes 00000000\nend 8\n",
    },
];

#[test]
fn logs_in_order(rt: HostRuntime) -> Result<(), Fail> {
    run(&rt, rt.alloc(), &LOGS)
}

/// A log's lines without the first and the last, what they show, and why it isn't run.
struct Unplanned {
    shows: &'static str,
    log: &'static [&'static str],
    end: PlanEnd,
}

static UNPLANNED: [Unplanned; 1] = [Unplanned {
    shows: "a draw",
    log: &["0 flush\n1 set-shader 0\n0 draw-64 -\n"],
    end: PlanEnd::Unsupported { n: 3, kind: 64 },
}];

#[test]
fn logs_that_are_not_run(rt: HostRuntime) -> Result<(), Fail> {
    for row in &UNPLANNED {
        let end = answers(rt.alloc(), row.log)?.err();
        assert_eq!(rt; end, Some(row.end), "{}", row.shows);
    }
    Ok(())
}
