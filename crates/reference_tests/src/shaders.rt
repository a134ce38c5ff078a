//! Logs with shaders in order: what dispatches leave, what queries count, and what is refused.

use crate::runs::{Row, run};
use std::test::Fail;

/// The shader of one thread that does nothing.
const IDLE: &str = "0 shader 1 \
     010000000600000001040000010000000100000001000000\n0 set-shader 1\n";

/// udiv r0.x, r0.y of 7 by 0; ishl r0.z of 5 by 33; ubfe r0.w of width 20, offset 20 and value 0xabcdef12; and all four are
/// stored at byte 0 of a raw view.
const DIVIDES: &str = "0 shader 1 \
     010000003e00000001040000010000000100000001000000020200000100000005040000000000000000000000000000\
     170d00001000000020000000410e000007000000070000000700000007000000410e0000000000000000000000000000\
     00000000200c000040000000410e000005000000050000000500000005000000410e0000210000002100000021000000\
     210000002911000080000000410e000014000000140000001400000014000000410e0000140000001400000014000000\
     14000000410e000012efcdab12efcdab12efcdab12efcdab31080f0000010000410e0000000000000000000000000000\
     00000000400e0000\n0 set-shader 1\n";

/// Stores 1 at byte 12 of a raw view, 2 at byte 16 and 3 at byte 0xfffffffc.
const STORES: &str = "0 shader 1 \
     010000002e0000000104000001000000010000000100000005040000000000000000000000000000310c010000010000\
     410e00000c0000000c0000000c0000000c000000410e000001000000010000000100000001000000310c010000010000\
     410e000010000000100000001000000010000000410e000002000000020000000200000002000000310c010000010000\
     410e0000fcfffffffcfffffffcfffffffcffffff410e000003000000030000000300000003000000\n0 set-shader 1\n";

/// Stores 9 at byte 4 of element 0 of a structured view of stride 8.
const STRUCTURED: &str = "0 shader 1 \
     010000001b00000001040000010000000100000001000000050400000000000001000000080000003311010000010000\
     410e000000000000000000000000000000000000410e000004000000040000000400000004000000410e000009000000\
     090000000900000009000000\n0 set-shader 1\n";

/// Buffer 1 with the view 1, and buffer 2 to read it back.
const RAW: &str = "0 buffer 1 16 0 4 1 0 -\n0 buffer 2 16 3 0 0 0 -\n0 view 1 1 1 0 0 0 4\n";

const STRIDE_8: &str = "0 buffer 1 16 0 4 2 8 -\n0 buffer 2 16 3 0 0 0 -\n0 view 1 1 1 1 0 0 2\n";

const STRIDE_4: &str = "0 buffer 1 16 0 4 2 4 -\n0 buffer 2 16 3 0 0 0 -\n0 view 1 1 1 1 0 0 4\n";

/// A predicate that skips what it predicates.
const SKIPS: &str = "0 query 1 3\n0 begin 1\n0 end-query 1\n0 set-predication 1 1 0 0\n";

/// The last calls of most logs.
const DISPATCH: &str = "0 set-uav 0 1\n0 dispatch 1 1 1\n0 copy 2 1\n0 map-read 2 0 0 16\n";

const INDIRECT: &str = "0 set-uav 0 1\n0 dispatch-indirect 3 0\n0 copy 2 1\n0 map-read 2 0 0 16\n";

static DISPATCHES: [Row; 11] = [
    Row {
        shows: "division by 0, a shift by 33, a bit field past the end",
        log: &[RAW, DIVIDES, DISPATCH],
        says: "9 bytes ffffffffffffffff0a000000bc0a0000\nend 9\n",
    },
    Row {
        shows: "stores out of range are dropped",
        log: &[RAW, STORES, DISPATCH],
        says: "9 bytes 00000000000000000000000001000000\nend 9\n",
    },
    Row {
        shows: "indirect counts of no group, read as the command starts",
        log: &[
            "0 buffer 3 12 0 0 4 0 000000000100000001000000\n",
            RAW,
            DIVIDES,
            INDIRECT,
        ],
        says: "10 bytes 00000000000000000000000000000000\nend 10\n",
    },
    Row {
        shows: "indirect counts of more than 65,535 groups",
        log: &[
            "0 buffer 3 12 0 0 4 0 000001000100000001000000\n",
            RAW,
            DIVIDES,
            INDIRECT,
        ],
        says: "10 bytes 00000000000000000000000000000000\nend 10\n",
    },
    Row {
        shows: "indirect counts of one group",
        log: &[
            "0 buffer 3 12 0 0 4 0 010000000100000001000000\n",
            RAW,
            DIVIDES,
            INDIRECT,
        ],
        says: "10 bytes ffffffffffffffff0a000000bc0a0000\nend 10\n",
    },
    Row {
        shows: "a structured view of the stride that is declared",
        log: &[STRIDE_8, STRUCTURED, DISPATCH],
        says: "9 bytes 00000000090000000000000000000000\nend 9\n",
    },
    Row {
        shows: "a view of another stride counts as unbound",
        log: &[STRIDE_4, STRUCTURED, DISPATCH],
        says: "9 bytes 00000000000000000000000000000000\nend 9\n",
    },
    Row {
        shows: "a view of another form counts as unbound",
        log: &[RAW, STRUCTURED, DISPATCH],
        says: "9 bytes 00000000000000000000000000000000\nend 9\n",
    },
    Row {
        shows: "a predicate skips a dispatch",
        log: &[
            SKIPS,
            RAW,
            DIVIDES,
            "0 set-uav 0 1\n0 dispatch 1 1 1\n0 set-predication 0 0 0 0\n0 copy 2 1\n0 map-read 2 0 0 16\n",
        ],
        says: "14 bytes 00000000000000000000000000000000\nend 14\n",
    },
    Row {
        shows: "pipeline statistics of dispatches of 0, of too many and of 2 invocations",
        log: &[
            "0 buffer 1 24 0 0 4 0 000000000100000001000000000001000100000001000000\n",
            IDLE,
            "0 query 1 2\n0 begin 1\n0 dispatch-indirect 1 0\n0 dispatch-indirect 1 12\n0 dispatch 2 1 1\n0 end-query 1\n0 get-data 1 0\n",
        ],
        says: "10 query 2\nend 10\n",
    },
    Row {
        shows: "pipeline statistics count no invocation of a dispatch that is skipped",
        log: &[
            SKIPS,
            IDLE,
            "0 query 2 2\n0 begin 2\n0 dispatch 2 3 4\n0 end-query 2\n0 get-data 2 0\n0 begin 2\n0 set-predication 0 0 0 0\n0 dispatch 2 3 4\n0 end-query 2\n0 get-data 2 0\n",
        ],
        says: "11 query 0\n16 query 24\nend 16\n",
    },
];

// Each check of a dispatch and of a shader at its edge. What a predicate skips is checked all the same.
static CHECKS: [Row; 1] = [Row {
    shows: "checks of dispatches and of shaders",
    log: &[
        SKIPS,
        "0 buffer 1 24 0 0 4 0 -\n0 buffer 2 16 0 0 0 0 -\n\
            0 dispatch 1 1 1\n0 dispatch-indirect 9 2\n0 dispatch-indirect 2 2\n0 dispatch-indirect 1 2\n\
            0 dispatch-indirect 1 16\n0 dispatch-indirect 1 12\n",
        IDLE,
        "0 dispatch-indirect 1 12\n0 dispatch 4096 4096 1\n0 dispatch 4097 4096 1\n0 dispatch 65535 65535 0\n\
            0 dispatch 65536 0 0\n0 dispatch 0 65536 0\n0 dispatch 0 0 65536\n0 shader 1 00000000\n\
            0 shader 0 00000000\n0 shader 2 01000000\n0 destroy 3 1\n0 set-shader 2\n0 set-shader 0\n\
            0 destroy 3 1\n0 dispatch 1 1 1\n0 set-shader 1\n",
    ],
    says: "7 refused BadShader\n8 refused UnknownId\n9 refused BadBind\n10 refused OutOfRange\n\
           11 refused OutOfRange\n12 refused BadShader\n17 refused TooManyGroups\n19 refused TooManyGroups\n\
           20 refused TooManyGroups\n21 refused TooManyGroups\n22 refused IdInUse\n23 refused OutOfRange\n\
           24 refused BadShader\n25 refused IdInUse\n26 refused UnknownId\n29 refused BadShader\n\
           30 refused UnknownId\nend 30\n",
}];

#[test]
fn dispatches(rt: HostRuntime) -> Result<(), Fail> {
    run(&rt, rt.alloc(), &DISPATCHES)
}

#[test]
fn checks(rt: HostRuntime) -> Result<(), Fail> {
    run(&rt, rt.alloc(), &CHECKS)
}
