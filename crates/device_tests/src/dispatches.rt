//! What dispatches of a module leave in memory, and how many invocations they run.

use crate::checked::{bytes, dispatch, run, three_blocks, write};
use device_memory::DeviceMemory;
use dx_types::Range;
use listing_tables::{ONE_GROUP, Part, Task, command};
use std::alloc::Global;
use std::process::Abort;
use std::test::Fail;
use vk_types::Groups;

// The counts of a dispatch, which are written into memory first, and how many invocations it runs.
struct Counts {
    shows: &'static str,
    bytes: [u8; 12],
    ran: u64,
}

static COUNTS: [Counts; 4] = [
    Counts {
        shows: "no group",
        bytes: [0, 0, 0, 0, 1, 0, 0, 0, 5, 0, 0, 0],
        ran: 0,
    },
    Counts {
        shows: "too many groups along x",
        bytes: [0, 0, 1, 0, 1, 0, 0, 0, 1, 0, 0, 0],
        ran: 0,
    },
    Counts {
        shows: "too many invocations",
        bytes: [0, 8, 0, 0, 1, 8, 0, 0, 1, 0, 0, 0],
        ran: 0,
    },
    Counts {
        shows: "two groups",
        bytes: [2, 0, 0, 0, 1, 0, 0, 0, 1, 0, 0, 0],
        ran: 8,
    },
];

// What the module may write, what it may read, and where the counts stand.
const WRITTEN: Range = Range {
    block: 20,
    from: 4,
    to: 28,
};

const READ: Range = Range {
    block: 7,
    from: 0,
    to: 8,
};

const AT: Range = Range {
    block: 9,
    from: 2,
    to: 14,
};

// Four invocations were counted, and each of them stored its place.
const LEFT: [u8; 32] = [
    0, 0, 0, 0, 4, 0, 0, 0, 0, 0, 0, 0, 1, 0, 0, 0, 0, 0, 1, 0, 1, 0, 1, 0, 0, 0, 0, 0, 0, 0, 0, 0,
];

// Twelve invocations in all.
const COUNTED: [u8; 16] = [12, 0, 0, 0, 0, 0, 0, 0, 0, 0, 0, 0, 0, 0, 0, 0];

fn dispatches_once(rt: &impl Abort, alloc: Global, memory: &mut DeviceMemory) -> Result<(), Fail> {
    assert_eq!(rt; dispatch(memory, alloc, ONE_GROUP, WRITTEN, READ)?, 4);
    assert_eq!(rt; bytes(memory, 20), LEFT.as_slice());
    Ok(())
}

fn dispatches_by(
    rt: &impl Abort,
    alloc: Global,
    memory: &mut DeviceMemory,
    row: &Counts,
) -> Result<(), Fail> {
    write(memory, AT, &row.bytes)?;
    let groups = Groups::Indirect { at: AT };
    let ran = dispatch(memory, alloc, groups, WRITTEN, READ)?;
    assert_eq!(rt; ran, row.ran, "{}", row.shows);
    Ok(())
}

// What was counted is copied to where it can be read.
fn has_counted(rt: &impl Abort, alloc: Global, memory: &mut DeviceMemory) -> Result<(), Fail> {
    let copy = command(alloc, 1, Task::Copy(Part(20, 4, 8), Part(7, 0, 4)), None)?;
    assert_eq!(rt; run(memory, &copy)?, 0);
    assert_eq!(rt; bytes(memory, 7), COUNTED.as_slice());
    Ok(())
}

#[test]
fn dispatches(rt: HostRuntime) -> Result<(), Fail> {
    let alloc = rt.alloc();
    let mut memory = three_blocks(alloc)?;
    dispatches_once(&rt, alloc, &mut memory)?;
    for row in &COUNTS {
        dispatches_by(&rt, alloc, &mut memory, row)?;
    }
    has_counted(&rt, alloc, &mut memory)
}
