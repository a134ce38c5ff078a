//! Batches on their way to the device.

use dx_types::{CallNo, Range};
use listing_tables::{ALL_TOUCHES, ALL_WRITES, Op, Part, Task, listing};
use std::alloc::{AllocError, Global};
use std::process::Abort;
use std::test::Fail;
use submit_finish::SubmitPart;
use vk_types::{Barrier, Batch, Cond, Groups, VkOp};

const COPY: Task = Task::Copy(Part(520, 0, 16), Part(512, 0, 16));

const FILL: Task = Task::Fill(Part(513, 0, 16), 7);

const CLEAR: Task = Task::Clear(Part(514, 0, 16), [1, 0, 0, 0], 2);

// A dispatch by counts in a buffer.
const BY_COUNTS: Groups = Groups::Indirect {
    at: Range {
        block: 515,
        from: 0,
        to: 12,
    },
};

const CONDITION: Cond = Cond {
    at: Range {
        block: 516,
        from: 0,
        to: 4,
    },
    value: 1,
};

const BARRIER: Barrier = Barrier {
    source: ALL_WRITES,
    dest: ALL_TOUCHES,
    first: 1,
    second: Some(5),
};

const BARRIER_TO_HOST: Barrier = Barrier {
    source: ALL_WRITES,
    dest: ALL_TOUCHES,
    first: 9,
    second: None,
};

/// Shader 30 is dispatched, then 9 by counts in a buffer and under a condition, then 30 by counts in a buffer. Around
/// them stand 13 operations of all other kinds.
pub(crate) static OPERATIONS: [Op; 16] = [
    Op::HostWrite(Part(520, 0, 16)),
    Op::Pipeline(5),
    Op::Command(1, COPY),
    Op::Command(2, FILL),
    Op::Command(3, CLEAR),
    Op::Command(
        4,
        Task::Dispatch {
            shader: 30,
            groups: Groups::Direct { x: 1, y: 2, z: 3 },
            slots: &[],
        },
    ),
    Op::Barrier(BARRIER),
    Op::CommandIf(
        5,
        Task::Dispatch {
            shader: 9,
            groups: BY_COUNTS,
            slots: &[],
        },
        CONDITION,
    ),
    Op::Command(6, COPY),
    Op::Command(7, FILL),
    Op::Command(8, CLEAR),
    Op::Command(
        9,
        Task::Dispatch {
            shader: 30,
            groups: BY_COUNTS,
            slots: &[],
        },
    ),
    Op::Barrier(BARRIER_TO_HOST),
    Op::Submit(3),
    Op::Fence(2),
    Op::HostRead(Part(514, 0, 16)),
];

fn batch(alloc: Global, ops: Vec<VkOp>) -> Batch {
    Batch {
        number: 3,
        upto: 11,
        placed: Vec::new(alloc),
        blocks: Vec::new(alloc),
        pages: Vec::new(alloc),
        writes: Vec::new(alloc),
        ops,
        marks: Vec::new(alloc),
        staging: Vec::new(alloc),
        queries: Vec::new(alloc),
    }
}

// Which dispatch is asked for, and its shader in the batch of these operations.
const NEEDS: [(u32, Option<CallNo>); 5] = [
    (0, Some(30)),
    (1, Some(9)),
    (2, Some(30)),
    (3, None),
    (u32::MAX, None),
];

fn full_batch(alloc: Global) -> Result<Batch, AllocError> {
    Ok(batch(alloc, listing(alloc, &OPERATIONS)?))
}

fn needs(rt: &impl Abort, full: &Batch, empty: &Batch) {
    let part = SubmitPart::new();
    for (i, shader) in NEEDS {
        assert_eq!(rt; part.needs(full, i), shader, "dispatch {i}");
        assert_eq!(rt; part.needs(empty, i), None, "dispatch {i}");
    }
}

fn submits(rt: &impl Abort, full: Batch, empty: Batch) {
    let mut part = SubmitPart::new();
    let submitted = part.step(full).batch;
    assert_eq!(rt; submitted.number, 3);
    assert_eq!(rt; submitted.upto, 11);
    assert_eq!(rt; submitted.ops.len(), 16);
    assert_eq!(rt; part.needs(&submitted, 1), Some(9));
    assert_eq!(rt; part.step(empty).batch.ops.len(), 0);
}

#[test]
fn a_batch_needs_the_shaders_of_its_dispatches(rt: HostRuntime) -> Result<(), Fail> {
    let alloc = rt.alloc();
    let full = full_batch(alloc)?;
    let empty = batch(alloc, Vec::new(alloc));
    needs(&rt, &full, &empty);
    submits(&rt, full, empty);
    Ok(())
}
