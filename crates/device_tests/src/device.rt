//! What a device leaves in memory, and what comes back of completed batches.

use crate::driver::{Given, LOG, accept, bytes, run, submission};
use call_log::{Log, read_log};
use dx_types::BlockNo;
use listing_tables::{ALL_TOUCHES, ALL_WRITES, Op, Part, Task};
use std::alloc::Global;
use std::process::Abort;
use std::test::Fail;
use vk_device::Device;
use vk_types::{Barrier, Completion};

const DATA: [u8; 16] = [0, 1, 2, 3, 4, 5, 6, 7, 8, 9, 10, 11, 12, 13, 14, 15];

// Five buffers: bytes are copied to the second and on to the third, the first and the fourth are filled, and the third is copied
// to the fifth, a staging buffer.
const FIVE_BUFFERS: Given = Given {
    number: 1,
    blocks: &[(512, 16), (513, 16), (514, 16), (515, 16), (516, 16)],
    pages: &[],
    writes: &[(Part(512, 0, 16), 0)],
    ops: &[
        Op::Command(1, Task::Copy(Part(512, 0, 16), Part(513, 0, 16))),
        Op::Barrier(FIRST),
        Op::Command(2, Task::Copy(Part(513, 0, 16), Part(514, 0, 16))),
        Op::Command(3, Task::Fill(Part(512, 0, 16), 5)),
        Op::Command(4, Task::Fill(Part(515, 0, 16), 6)),
        Op::Barrier(SECOND),
        Op::Command(5, Task::Copy(Part(514, 0, 16), Part(516, 0, 16))),
        Op::Barrier(TO_HOST),
        Op::Submit(1),
    ],
    marks: &[],
    staging: &[Part(516, 0, 16)],
};

const FIRST: Barrier = Barrier {
    source: ALL_WRITES,
    dest: ALL_TOUCHES,
    first: 1,
    second: Some(2),
};

const SECOND: Barrier = Barrier {
    source: ALL_WRITES,
    dest: ALL_TOUCHES,
    first: 2,
    second: Some(5),
};

const TO_HOST: Barrier = Barrier {
    source: ALL_WRITES,
    dest: ALL_TOUCHES,
    first: 5,
    second: None,
};

// Which of the ready commands is run each time, how many were ready before it, and the numbers in the order in which they were run.
#[derive(Clone, Copy)]
struct Run {
    choices: [(u32, u32); 5],
    order: [u64; 5],
}

const RUNS: [Run; 2] = [
    Run {
        choices: [(0, 1), (2, 3), (1, 2), (0, 1), (0, 1)],
        order: [1, 4, 3, 2, 5],
    },
    Run {
        choices: [(0, 1), (0, 3), (0, 2), (0, 1), (0, 1)],
        order: [1, 2, 3, 4, 5],
    },
];

static LEFT: [(BlockNo, [u8; 16]); 5] = [
    (512, [5, 0, 0, 0, 5, 0, 0, 0, 5, 0, 0, 0, 5, 0, 0, 0]),
    (513, DATA),
    (514, DATA),
    (515, [6, 0, 0, 0, 6, 0, 0, 0, 6, 0, 0, 0, 6, 0, 0, 0]),
    (516, DATA),
];

fn completed(rt: &impl Abort, device: &mut Device) -> Result<Completion, Fail> {
    assert!(rt; device.can_complete());
    let done = device.complete()?.ok_or("nothing is completed")?;
    Ok(done)
}

fn runs(rt: &impl Abort, device: &mut Device, row: &Run) -> Result<(), Fail> {
    for (j, ready) in row.choices {
        assert!(rt; !device.can_complete());
        assert!(rt; device.complete()?.is_none());
        assert!(rt; device.ready(ready.saturating_sub(1)).is_some());
        assert_eq!(rt; device.ready(ready), None);
        assert_eq!(rt; device.shader_of(j), None);
        run(device, j)?;
    }
    Ok(())
}

fn plays_five_buffers(
    rt: &impl Abort,
    alloc: Global,
    log: &Log<'_>,
    row: &Run,
) -> Result<(), Fail> {
    let mut device = Device::new(alloc);
    accept(&mut device, log, submission(alloc, &FIVE_BUFFERS)?)?;
    runs(rt, &mut device, row)?;
    assert_eq!(rt; device.ran(), 5);
    assert_eq!(rt; device.order(), row.order.as_slice());
    for (number, left) in &LEFT {
        assert_eq!(rt; bytes(&device, *number), left.as_slice(), "block {number}");
    }
    let done = completed(rt, &mut device)?;
    has_five_buffers(rt, &done)
}

fn has_five_buffers(rt: &impl Abort, done: &Completion) -> Result<(), Fail> {
    assert_eq!(rt; done.number, 1);
    assert_eq!(rt; done.upto, 7);
    assert_eq!(rt; done.ops.len(), 9);
    assert_eq!(rt; done.homes.len(), 0);
    assert_eq!(rt; done.pages.len(), 0);
    assert_eq!(rt; done.snaps.len(), 1);
    let snap = done.snaps.first().ok_or("no copy")?;
    assert_eq!(rt; snap.block, 516);
    assert_eq!(rt; snap.bytes.as_slice(), DATA.as_slice());
    Ok(())
}

#[test]
fn five_buffers_in_two_orders(rt: HostRuntime) -> Result<(), Fail> {
    let alloc = rt.alloc();
    let log = read_log(alloc, &LOG).map_err(|_| "no log")?;
    for row in RUNS {
        plays_five_buffers(&rt, alloc, &log, &row)?;
    }
    Ok(())
}
