//! What commands touch, and which of them conflict.

use bitflags::Flags;
use dx_types::Range;
use listing_tables::{Part, Task, command};
use std::alloc::Global;
use std::process::Abort;
use std::test::Fail;
use vk_types::{Access, Cond, Groups, SlotName, Stage, Touch};

struct Touches {
    shows: &'static str,
    number: u64,
    task: Task,
    cond: Option<Cond>,
    touches: &'static [(Stage, Access, Part)],
}

static TOUCHES: [Touches; 3] = [
    Touches {
        shows: "a copy with a condition",
        number: 1,
        task: Task::Copy(Part(512, 0, 16), Part(513, 16, 32)),
        cond: Some(Cond {
            at: Range {
                block: 514,
                from: 4,
                to: 8,
            },
            value: 1,
        }),
        touches: &[
            (Stage::Transfer, Access::READ, Part(512, 0, 16)),
            (Stage::Transfer, Access::WRITE, Part(513, 16, 32)),
            (Stage::Indirect, Access::READ, Part(514, 4, 8)),
        ],
    },
    Touches {
        shows: "a clear",
        number: 2,
        task: Task::Clear(Part(513, 0, 16), [1, 0, 0, 0], 2),
        cond: None,
        touches: &[(Stage::Compute, Access::WRITE, Part(513, 0, 16))],
    },
    Touches {
        shows: "a dispatch by counts in a buffer, with a slot of each kind",
        number: 3,
        task: Task::Dispatch {
            shader: 2,
            groups: Groups::Indirect {
                at: Range {
                    block: 515,
                    from: 0,
                    to: 12,
                },
            },
            slots: &[
                (SlotName::Constant(0), Part(513, 0, 16)),
                (SlotName::Srv(3), Part(513, 0, 16)),
                (SlotName::Uav(1), Part(513, 0, 16)),
            ],
        },
        cond: None,
        touches: &[
            (Stage::Indirect, Access::READ, Part(515, 0, 12)),
            (Stage::Compute, Access::READ, Part(513, 0, 16)),
            (Stage::Compute, Access::READ, Part(513, 0, 16)),
            (Stage::Compute, Access::READ_WRITE, Part(513, 0, 16)),
        ],
    },
];

fn has_touches(rt: &impl Abort, alloc: Global, row: &Touches) -> Result<(), Fail> {
    let c = command(alloc, row.number, row.task, row.cond)?;
    let mut i = 0u32;
    for (stage, access, part) in row.touches {
        let wanted = Touch {
            range: part.range(),
            stage: *stage,
            access: *access,
        };
        assert_eq!(rt; c.touch(i), Some(wanted), "{}: touch {i}", row.shows);
        i = i.wrapping_add(1);
    }
    assert_eq!(rt; c.touch(i), None, "{}: touch {i}", row.shows);
    Ok(())
}

// Each kind of work, and the touches that it has to have, in order.
#[test]
fn touches_in_order(rt: HostRuntime) -> Result<(), Fail> {
    for row in &TOUCHES {
        has_touches(&rt, rt.alloc(), row)?;
    }
    assert_eq!(rt; Access::READ_WRITE.bits(), 3);
    Ok(())
}

struct Pair {
    shows: &'static str,
    one: Task,
    other: Task,
    conflict: bool,
}

static PAIRS: [Pair; 5] = [
    Pair {
        shows: "a copy reads what a fill writes",
        one: Task::Fill(Part(512, 0, 16), 0),
        other: Task::Copy(Part(512, 12, 20), Part(513, 0, 8)),
        conflict: true,
    },
    Pair {
        shows: "a fill writes what a copy reads",
        one: Task::Copy(Part(512, 12, 20), Part(513, 0, 8)),
        other: Task::Fill(Part(512, 0, 16), 0),
        conflict: true,
    },
    Pair {
        shows: "bytes side by side, written and read",
        one: Task::Fill(Part(512, 0, 12), 0),
        other: Task::Copy(Part(512, 12, 20), Part(513, 0, 8)),
        conflict: false,
    },
    Pair {
        shows: "two copies to the same bytes",
        one: Task::Copy(Part(512, 0, 16), Part(513, 0, 16)),
        other: Task::Copy(Part(512, 64, 80), Part(513, 0, 16)),
        conflict: true,
    },
    Pair {
        shows: "bytes side by side, both written",
        one: Task::Fill(Part(512, 0, 16), 0),
        other: Task::Fill(Part(512, 16, 32), 0),
        conflict: false,
    },
];

// Bytes that lie side by side are no conflict, nor are two reads.
#[test]
fn which_conflict(rt: HostRuntime) -> Result<(), Fail> {
    let alloc = rt.alloc();
    for row in &PAIRS {
        let one = command(alloc, 1, row.one, None)?;
        let other = command(alloc, 2, row.other, None)?;
        assert_eq!(rt; one.conflicts(&other), row.conflict, "{}", row.shows);
    }
    Ok(())
}
