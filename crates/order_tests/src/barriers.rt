//! The barriers that a tracker puts before commands.

use barrier_track::Tracker;
use listing_tables::{ALL_TOUCHES, ONE_GROUP, Part, Task, command};
use std::alloc::{AllocError, Global};
use std::process::Abort;
use std::test::Fail;
use vk_types::{Access, Barrier, Mask, SlotName};

// What a barrier waits for, and the two commands that it stands for.
#[derive(Clone, Copy)]
struct Between(Mask, u64, u64);

impl Between {
    fn barrier(self) -> Barrier {
        Barrier {
            source: self.0,
            dest: ALL_TOUCHES,
            first: self.1,
            second: Some(self.2),
        }
    }
}

// Commands 1, 2 and 3, and the barrier that stands before each.
struct Commands {
    shows: &'static str,
    tasks: &'static [Task; 3],
    barriers: [Option<Between>; 3],
}

fn next(
    tracker: &mut Tracker,
    alloc: Global,
    number: u64,
    task: Task,
) -> Result<Option<Barrier>, AllocError> {
    let c = command(alloc, number, task, None)?;
    tracker.reserve(&c)?;
    Ok(tracker.before(&c))
}

fn has_barriers(rt: &impl Abort, alloc: Global, row: &Commands) -> Result<(), Fail> {
    let mut tracker = Tracker::new(alloc);
    let tasks = row.tasks;
    let mut number = 1u64;
    for (task, between) in tasks.iter().zip(row.barriers) {
        let barrier = next(&mut tracker, alloc, number, *task)?;
        let wanted = between.map(|b| b.barrier());
        assert_eq!(rt; barrier, wanted, "{}: command {number}", row.shows);
        number = number.wrapping_add(1);
    }
    Ok(())
}

const NOTHING: Mask = Mask {
    indirect: None,
    compute: None,
    transfer: None,
    host: None,
};

const SHADERS_WRITE: Mask = Mask {
    compute: Some(Access::WRITE),
    ..NOTHING
};

const SHADERS_ONLY_READ: Mask = Mask {
    compute: Some(Access::NONE),
    ..NOTHING
};

const TRANSFERS_WRITE: Mask = Mask {
    transfer: Some(Access::WRITE),
    ..NOTHING
};

const TRANSFERS_WRITE_SHADERS_READ: Mask = Mask {
    compute: Some(Access::NONE),
    transfer: Some(Access::WRITE),
    ..NOTHING
};

const BOTH_WRITE: Mask = Mask {
    compute: Some(Access::WRITE),
    transfer: Some(Access::WRITE),
    ..NOTHING
};

const BLOCK: Part = Part(512, 0, 16);

const CLEAR: Task = Task::Clear(BLOCK, [1, 0, 0, 0], 2);

const COPY: Task = Task::Copy(BLOCK, Part(513, 0, 16));

const FILL: Task = Task::Fill(BLOCK, 0);

const SHADER_READS: Task = Task::Dispatch {
    shader: 9,
    groups: ONE_GROUP,
    slots: &[(SlotName::Srv(0), BLOCK)],
};

static NARROW: [Commands; 3] = [
    Commands {
        shows: "a shader reads what a clear wrote, and so does a copy",
        tasks: &[CLEAR, SHADER_READS, COPY],
        barriers: [None, Some(Between(SHADERS_WRITE, 1, 2)), None],
    },
    Commands {
        shows: "a fill writes what a copy read, behind a clear of another block",
        tasks: &[COPY, Task::Clear(Part(514, 0, 16), [1, 0, 0, 0], 2), FILL],
        barriers: [None, None, Some(Between(BOTH_WRITE, 1, 3))],
    },
    Commands {
        shows: "a fill writes what a shader read",
        tasks: &[SHADER_READS, FILL, Task::Fill(Part(514, 0, 16), 0)],
        barriers: [None, Some(Between(SHADERS_ONLY_READ, 1, 2)), None],
    },
];

#[test]
fn barriers_with_narrow_sources(rt: HostRuntime) -> Result<(), Fail> {
    for row in &NARROW {
        has_barriers(&rt, rt.alloc(), row)?;
    }
    Ok(())
}

static BY_BYTES: [Commands; 11] = [
    Commands {
        shows: "a write where both reads were",
        tasks: &[
            Task::Copy(Part(512, 0, 16), Part(601, 0, 16)),
            Task::Copy(Part(512, 8, 24), Part(602, 0, 16)),
            Task::Fill(Part(512, 12, 14), 0),
        ],
        barriers: [None, None, Some(Between(TRANSFERS_WRITE, 1, 3))],
    },
    Commands {
        shows: "a write where only the second read was",
        tasks: &[
            Task::Copy(Part(512, 0, 16), Part(601, 0, 16)),
            Task::Copy(Part(512, 8, 24), Part(602, 0, 16)),
            Task::Fill(Part(512, 16, 20), 0),
        ],
        barriers: [None, None, Some(Between(TRANSFERS_WRITE, 2, 3))],
    },
    Commands {
        shows: "a read over the end of one write and the start of an earlier one",
        tasks: &[
            Task::Fill(Part(512, 8, 16), 0),
            Task::Fill(Part(512, 0, 8), 0),
            Task::Copy(Part(512, 0, 12), Part(603, 0, 16)),
        ],
        barriers: [None, None, Some(Between(TRANSFERS_WRITE, 1, 3))],
    },
    Commands {
        shows: "a read of the last byte of the first write",
        tasks: &[
            Task::Fill(Part(512, 0, 8), 0),
            Task::Fill(Part(512, 8, 16), 0),
            Task::Copy(Part(512, 7, 8), Part(603, 0, 16)),
        ],
        barriers: [None, None, Some(Between(TRANSFERS_WRITE, 1, 3))],
    },
    Commands {
        shows: "a read of the first byte of the second write",
        tasks: &[
            Task::Fill(Part(512, 0, 8), 0),
            Task::Fill(Part(512, 8, 16), 0),
            Task::Copy(Part(512, 8, 9), Part(603, 0, 16)),
        ],
        barriers: [None, None, Some(Between(TRANSFERS_WRITE, 2, 3))],
    },
    Commands {
        shows: "a write over the end of a read and the start of a write",
        tasks: &[
            Task::Copy(Part(512, 0, 16), Part(601, 0, 16)),
            Task::Fill(Part(512, 16, 32), 0),
            Task::Fill(Part(512, 12, 20), 0),
        ],
        barriers: [None, None, Some(Between(TRANSFERS_WRITE, 1, 3))],
    },
    Commands {
        shows: "a write beside two reads",
        tasks: &[
            Task::Copy(Part(512, 4, 8), Part(601, 0, 16)),
            Task::Fill(Part(512, 0, 4), 0),
            Task::Copy(Part(512, 4, 8), Part(603, 0, 16)),
        ],
        barriers: [None, None, None],
    },
    Commands {
        shows: "a write of no byte, and one of another block",
        tasks: &[
            Task::Fill(Part(512, 0, 16), 0),
            Task::Fill(Part(512, 8, 8), 0),
            Task::Fill(Part(513, 0, 16), 0),
        ],
        barriers: [None, None, None],
    },
    Commands {
        shows: "a read of the last byte of a write of another block",
        tasks: &[
            Task::Fill(Part(512, 0, 16), 0),
            Task::Fill(Part(513, 0, 16), 0),
            Task::Copy(Part(513, 15, 16), Part(514, 0, 1)),
        ],
        barriers: [None, None, Some(Between(TRANSFERS_WRITE, 2, 3))],
    },
    Commands {
        shows: "a write over the end of one, and a write over its end",
        tasks: &[
            Task::Fill(Part(512, 0, 16), 0),
            Task::Fill(Part(512, 15, 17), 0),
            Task::Fill(Part(512, 16, 20), 0),
        ],
        barriers: [
            None,
            Some(Between(TRANSFERS_WRITE, 1, 2)),
            Some(Between(TRANSFERS_WRITE, 2, 3)),
        ],
    },
    Commands {
        shows: "behind a barrier the first write is forgotten",
        tasks: &[
            Task::Fill(Part(512, 0, 16), 0),
            Task::Fill(Part(512, 15, 17), 0),
            Task::Fill(Part(512, 0, 15), 0),
        ],
        barriers: [None, Some(Between(TRANSFERS_WRITE, 1, 2)), None],
    },
];

// Lists of commands whose ranges overlap in part, lie side by side, have no byte or are of other blocks.
#[test]
fn barriers_by_byte_ranges(rt: HostRuntime) -> Result<(), Fail> {
    for row in &BY_BYTES {
        has_barriers(&rt, rt.alloc(), row)?;
    }
    Ok(())
}

fn word(block: u32, i: u64) -> Part {
    let from = i.wrapping_mul(4);
    Part(block, from, from.wrapping_add(4))
}

// Copies of words side by side in two blocks, in an order that jumps, without a barrier between them. What they read and
// wrote is known at the end.
#[test]
fn many_commands_without_barriers(rt: HostRuntime) -> Result<(), Fail> {
    let alloc = rt.alloc();
    let mut tracker = Tracker::new(alloc);
    for i in 0..200_000u64 {
        let at = i.wrapping_mul(7_919) % 200_000;
        let copy = Task::Copy(word(512, at), word(513, at));
        let barrier = next(&mut tracker, alloc, i.wrapping_add(1), copy)?;
        assert_eq!(rt; barrier, None, "command {i}");
    }
    let last = Task::Copy(Part(513, 39_595, 39_597), Part(514, 0, 2));
    let barrier = next(&mut tracker, alloc, 200_001, last)?;
    let wanted = Between(TRANSFERS_WRITE, 4_422, 200_001).barrier();
    assert_eq!(rt; barrier, Some(wanted));
    Ok(())
}

// The words that the copies read, and those between.
const ALL_WORDS: Part = Part(512, 0, 800_000);

const VIEW: Task = Task::Dispatch {
    shader: 9,
    groups: ONE_GROUP,
    slots: &[(SlotName::Srv(0), ALL_WORDS)],
};

// Copies of every other word of a block, and then as many dispatches that view it whole. No barrier stands between them.
// The words between were read by the first dispatch first, which a fill of one of them shows.
#[test]
fn many_reads_of_a_block_that_was_read(rt: HostRuntime) -> Result<(), Fail> {
    let alloc = rt.alloc();
    let mut tracker = Tracker::new(alloc);
    for i in 0..100_000u64 {
        let copy = Task::Copy(word(512, i.wrapping_mul(2)), word(513, i));
        let barrier = next(&mut tracker, alloc, i.wrapping_add(1), copy)?;
        assert_eq!(rt; barrier, None, "copy {i}");
    }
    for i in 100_000..200_000u64 {
        let barrier = next(&mut tracker, alloc, i.wrapping_add(1), VIEW)?;
        assert_eq!(rt; barrier, None, "dispatch {i}");
    }
    let fill = Task::Fill(word(512, 33_333), 0);
    let barrier = next(&mut tracker, alloc, 200_001, fill)?;
    let wanted = Between(TRANSFERS_WRITE_SHADERS_READ, 100_001, 200_001).barrier();
    assert_eq!(rt; barrier, Some(wanted));
    Ok(())
}
