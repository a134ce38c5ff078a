//! Logs with shaders, under `ref`: what dispatches leave, and how many invocations a query counts.

use crate::refusals::says;
use std::test::Fail;

/// The shader of one thread that does nothing.
const IDLE: &str = "010000000600000001040000010000000100000001000000";

/// udiv r0.x, r0.y of 7 by 0; ishl r0.z of 5 by 33; ubfe r0.w of width 20, offset 20 and value 0xabcdef12; and all four are
/// stored at byte 0 of a raw view.
const DIVIDES: &str =
    "010000003e00000001040000010000000100000001000000020200000100000005040000000000000000000000000000\
     170d00001000000020000000410e000007000000070000000700000007000000410e0000000000000000000000000000\
     00000000200c000040000000410e000005000000050000000500000005000000410e0000210000002100000021000000\
     210000002911000080000000410e000014000000140000001400000014000000410e0000140000001400000014000000\
     14000000410e000012efcdab12efcdab12efcdab12efcdab31080f0000010000410e0000000000000000000000000000\
     00000000400e0000";

/// Stores 1 at byte 12 of a raw view, 2 at byte 16 and 3 at byte 0xfffffffc.
const STORES: &str =
    "010000002e0000000104000001000000010000000100000005040000000000000000000000000000310c010000010000\
     410e00000c0000000c0000000c0000000c000000410e000001000000010000000100000001000000310c010000010000\
     410e000010000000100000001000000010000000410e000002000000020000000200000002000000310c010000010000\
     410e0000fcfffffffcfffffffcfffffffcffffff410e000003000000030000000300000003000000";

/// A buffer with a raw view, and a buffer to read it back.
const VIEWED: &str = "0 buffer 1 16 0 4 1 0 -\n0 buffer 2 16 3 0 0 0 -\n0 view 1 1 1 0 0 0 4\n";

/// What a log shows, what stands before its shader, the shader, what stands behind it, and what is said of it.
struct Dispatched {
    shows: &'static str,
    before: &'static str,
    shader: &'static str,
    calls: &'static str,
    says: &'static str,
}

const DIRECT: &str = "0 set-uav 0 1\n0 dispatch 1 1 1\n0 copy 2 1\n0 map-read 2 0 0 16\n";

const INDIRECT: &str = "0 set-uav 0 1\n0 dispatch-indirect 3 0\n0 copy 2 1\n0 map-read 2 0 0 16\n";

static ROWS: [Dispatched; 6] = [
    Dispatched {
        shows: "division by 0, a shift by 33, a bit field past the end",
        before: "",
        shader: DIVIDES,
        calls: DIRECT,
        says: "9 bytes ffffffffffffffff0a000000bc0a0000\nend 9\n",
    },
    Dispatched {
        shows: "stores out of range are dropped",
        before: "",
        shader: STORES,
        calls: DIRECT,
        says: "9 bytes 00000000000000000000000001000000\nend 9\n",
    },
    Dispatched {
        shows: "indirect counts of no group",
        before: "0 buffer 3 12 0 0 4 0 000000000100000001000000\n",
        shader: DIVIDES,
        calls: INDIRECT,
        says: "10 bytes 00000000000000000000000000000000\nend 10\n",
    },
    Dispatched {
        shows: "indirect counts of more than 65,535 groups",
        before: "0 buffer 3 12 0 0 4 0 000001000100000001000000\n",
        shader: DIVIDES,
        calls: INDIRECT,
        says: "10 bytes 00000000000000000000000000000000\nend 10\n",
    },
    Dispatched {
        shows: "indirect counts of one group",
        before: "0 buffer 3 12 0 0 4 0 010000000100000001000000\n",
        shader: DIVIDES,
        calls: INDIRECT,
        says: "10 bytes ffffffffffffffff0a000000bc0a0000\nend 10\n",
    },
    Dispatched {
        shows: "a query counts the invocations of what may be so large",
        before: "0 buffer 3 24 0 0 4 0 000000000100000001000000000001000100000001000000\n",
        shader: IDLE,
        calls: "0 query 1 2\n0 begin 1\n0 dispatch-indirect 3 0\n0 dispatch-indirect 3 12\n0 dispatch 2 1 1\n0 end-query 1\n0 get-data 1 0\n",
        says: "13 query 2\nend 13\n",
    },
];

#[test]
fn dispatches(rt: HostRuntime) -> Result<(), Fail> {
    let alloc = rt.alloc();
    for row in &ROWS {
        let (before, shader, calls) = (row.before, row.shader, row.calls);
        let lines = format!(in alloc;
            "{before}{VIEWED}0 shader 1 {shader}\n0 set-shader 1\n{calls}"
        )?;
        says(&rt, alloc, row.shows, lines.as_str(), row.says)?;
    }
    Ok(())
}
