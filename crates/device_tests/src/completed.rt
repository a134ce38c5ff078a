//! What comes back of completed batches, and when the next can be accepted.

use crate::counter::counting_module;
use crate::driver::{EMPTY, Given, LOG, accept, bytes, dispatch, run, submission};
use call_log::{Log, read_log};
use dx_types::{BlockNo, ChunkNo, Range};
use listing_tables::{ONE_GROUP, Op, Part, Task};
use std::alloc::Global;
use std::process::Abort;
use std::test::Fail;
use vk_device::Device;
use vk_types::{Completion, Cond, Groups, SlotName};

fn complete(device: &mut Device) -> Result<Completion, Fail> {
    Ok(device.complete()?.ok_or("nothing is completed")?)
}

// Four dispatches of the counting module, whose groups have four invocations: once, by counts in memory that are too many, by counts
// of no group, and skipped.
const DISPATCHES: Given = Given {
    number: 1,
    blocks: &[(7, 16), (20, 32)],
    pages: &[(600, 12)],
    writes: &[(Part(7, 0, 16), 0)],
    ops: &[
        Op::Command(
            1,
            Task::Dispatch {
                shader: 3,
                groups: ONE_GROUP,
                slots: SLOTS,
            },
        ),
        Op::Command(
            2,
            Task::Dispatch {
                shader: 3,
                groups: TOO_MANY,
                slots: SLOTS,
            },
        ),
        Op::Command(
            3,
            Task::Dispatch {
                shader: 3,
                groups: NO_GROUP,
                slots: SLOTS,
            },
        ),
        Op::CommandIf(
            4,
            Task::Dispatch {
                shader: 3,
                groups: ONE_GROUP,
                slots: SLOTS,
            },
            SKIPS,
        ),
        Op::CommandIf(5, Task::Copy(Part(20, 4, 8), Part(7, 12, 16)), RUNS),
        Op::Submit(1),
    ],
    marks: &[],
    staging: &[],
};

const SLOTS: &[(SlotName, Part)] = &[
    (SlotName::Uav(0), Part(20, 4, 28)),
    (SlotName::Srv(3), Part(7, 0, 8)),
];

// The log's bytes from the fourth on are words far above the limit, and a page's bytes are 0.
const TOO_MANY: Groups = Groups::Indirect {
    at: Range {
        block: 7,
        from: 4,
        to: 16,
    },
};

const NO_GROUP: Groups = Groups::Indirect {
    at: Range {
        block: 600,
        from: 0,
        to: 12,
    },
};

// The word is not 0, so the predicate is 1.
const SKIPS: Cond = Cond {
    at: Range {
        block: 7,
        from: 4,
        to: 8,
    },
    value: 1,
};

const RUNS: Cond = Cond {
    at: Range {
        block: 7,
        from: 4,
        to: 8,
    },
    value: 0,
};

// Four invocations were counted, and each of them stored its place.
const COUNTED: [u8; 32] = [
    0, 0, 0, 0, 4, 0, 0, 0, 0, 0, 0, 0, 1, 0, 0, 0, 0, 0, 1, 0, 1, 0, 1, 0, 0, 0, 0, 0, 0, 0, 0, 0,
];

const COPIED: [u8; 16] = [0, 1, 2, 3, 4, 5, 6, 7, 8, 9, 10, 11, 4, 0, 0, 0];

fn dispatches(rt: &impl Abort, device: &mut Device, alloc: Global) -> Result<(), Fail> {
    let module = counting_module(alloc)?;
    for shader in [Some(3), Some(3), Some(3), Some(3), None] {
        assert_eq!(rt; device.shader_of(0), shader);
        if shader.is_some() {
            dispatch(device, 0, &module)?;
        } else {
            run(device, 0)?;
        }
    }
    assert_eq!(rt; bytes(device, 20), COUNTED.as_slice());
    assert_eq!(rt; bytes(device, 7), COPIED.as_slice());
    Ok(())
}

#[test]
fn dispatches_and_conditions(rt: HostRuntime) -> Result<(), Fail> {
    let alloc = rt.alloc();
    let log = read_log(alloc, &LOG).map_err(|_| "no log")?;
    let mut device = Device::new(alloc);
    accept(&mut device, &log, submission(alloc, &DISPATCHES)?)?;
    dispatches(&rt, &mut device, alloc)?;
    let done = complete(&mut device)?;
    assert_eq!(rt; done.pages.len(), 1);
    assert!(rt; device.block(600).is_none());
    assert!(rt; device.block(20).is_some());
    Ok(())
}

// The first batch takes block 3, the second takes block 4 and gives block 3 up, with one of no class, the third names block 3 again.
const TAKES: [Given; 3] = [
    Given {
        number: 1,
        blocks: &[(3, 256), (700, 4)],
        ..EMPTY
    },
    Given {
        number: 2,
        blocks: &[(4, 256)],
        marks: &[3, 700],
        ..EMPTY
    },
    Given {
        number: 3,
        blocks: &[(3, 256)],
        ..EMPTY
    },
];

fn home_of(
    rt: &impl Abort,
    done: &Completion,
    number: BlockNo,
    retired: ChunkNo,
) -> Result<(), Fail> {
    assert_eq!(rt; done.homes.len(), 1);
    let home = done.homes.first().ok_or("no home")?;
    assert_eq!(rt; home.number, number);
    assert_eq!(rt; home.retired, retired);
    assert_eq!(rt; home.len(), 256);
    Ok(())
}

// A submission that names a block that is held waits until the block is given back.
fn waits(rt: &impl Abort, alloc: Global, log: &Log<'_>, device: &mut Device) -> Result<(), Fail> {
    let again = submission(alloc, &TAKES[2])?;
    assert!(rt; !device.can_accept(&again));
    assert_eq!(rt; complete(device)?.homes.len(), 0);
    assert!(rt; !device.can_accept(&again));
    let done = complete(device)?;
    home_of(rt, &done, 3, 2)?;
    assert!(rt; device.block(700).is_none());
    accept(device, log, again)
}

#[test]
fn a_block_comes_back(rt: HostRuntime) -> Result<(), Fail> {
    let alloc = rt.alloc();
    let log = read_log(alloc, &LOG).map_err(|_| "no log")?;
    let mut device = Device::new(alloc);
    accept(&mut device, &log, submission(alloc, &TAKES[0])?)?;
    accept(&mut device, &log, submission(alloc, &TAKES[1])?)?;
    waits(&rt, alloc, &log, &mut device)
}

#[test]
fn four_batches_are_accepted(rt: HostRuntime) -> Result<(), Fail> {
    let alloc = rt.alloc();
    let log = read_log(alloc, &LOG).map_err(|_| "no log")?;
    let mut device = Device::new(alloc);
    for number in 1..5 {
        accept(
            &mut device,
            &log,
            submission(alloc, &Given { number, ..EMPTY })?,
        )?;
    }
    let fifth = submission(alloc, &Given { number: 5, ..EMPTY })?;
    assert!(rt; !device.can_accept(&fifth));
    assert_eq!(rt; complete(&mut device)?.number, 1);
    assert!(rt; device.can_accept(&fifth));
    Ok(())
}
