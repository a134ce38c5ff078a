//! What commands do to the bytes of three blocks.

use crate::checked::{bytes, run, three_blocks, write};
use device_memory::DeviceMemory;
use dx_types::Range;
use listing_tables::{Part, Task, command};
use std::alloc::Global;
use std::process::Abort;
use std::test::Fail;
use vk_types::Cond;

// A command, the word that decides whether it is skipped, a block, and the bytes of that block afterwards.
struct Step {
    shows: &'static str,
    task: Task,
    cond: Option<Cond>,
    block: u32,
    bytes: [u8; 16],
}

// A word that is not 0, so that the predicate is 1, and one that is 0.
const ONE: Range = Range {
    block: 9,
    from: 1,
    to: 5,
};

const ZERO: Range = Range {
    block: 9,
    from: 5,
    to: 9,
};

const WORDS: [u32; 4] = [0x0403_0201, 0x0807_0605, 0x0c0b_0a09, 0x100f_0e0d];

static STEPS: [Step; 10] = [
    Step {
        shows: "a copy forward over itself",
        task: Task::Copy(Part(7, 0, 8), Part(7, 2, 10)),
        cond: None,
        block: 7,
        bytes: [1, 2, 1, 2, 3, 4, 5, 6, 7, 8, 0, 0, 0, 0, 0, 0],
    },
    Step {
        shows: "a copy back over itself",
        task: Task::Copy(Part(7, 2, 10), Part(7, 0, 8)),
        cond: None,
        block: 7,
        bytes: [1, 2, 3, 4, 5, 6, 7, 8, 7, 8, 0, 0, 0, 0, 0, 0],
    },
    Step {
        shows: "a copy to another block",
        task: Task::Copy(Part(7, 4, 8), Part(9, 1, 5)),
        cond: None,
        block: 9,
        bytes: [0, 5, 6, 7, 8, 0, 0, 0, 0, 0, 0, 0, 0, 0, 0, 0],
    },
    Step {
        shows: "a fill of one and a half words",
        task: Task::Fill(Part(9, 9, 15), 0x0403_0201),
        cond: None,
        block: 9,
        bytes: [0, 5, 6, 7, 8, 0, 0, 0, 0, 1, 2, 3, 4, 1, 2, 0],
    },
    Step {
        shows: "a clear with two words in turn",
        task: Task::Clear(Part(7, 0, 12), WORDS, 2),
        cond: None,
        block: 7,
        bytes: [1, 2, 3, 4, 5, 6, 7, 8, 1, 2, 3, 4, 0, 0, 0, 0],
    },
    Step {
        shows: "a clear with four words in turn",
        task: Task::Clear(Part(7, 0, 16), WORDS, 4),
        cond: None,
        block: 7,
        bytes: [1, 2, 3, 4, 5, 6, 7, 8, 9, 10, 11, 12, 13, 14, 15, 16],
    },
    Step {
        shows: "a predicate of 1, skipped where it is 1",
        task: Task::Fill(Part(7, 0, 16), 0),
        cond: Some(Cond { at: ONE, value: 1 }),
        block: 7,
        bytes: [1, 2, 3, 4, 5, 6, 7, 8, 9, 10, 11, 12, 13, 14, 15, 16],
    },
    Step {
        shows: "a predicate of 1, skipped where it is 0",
        task: Task::Fill(Part(7, 0, 8), 0),
        cond: Some(Cond { at: ONE, value: 0 }),
        block: 7,
        bytes: [0, 0, 0, 0, 0, 0, 0, 0, 9, 10, 11, 12, 13, 14, 15, 16],
    },
    Step {
        shows: "a predicate of 0, skipped where it is 0",
        task: Task::Fill(Part(7, 8, 16), 0),
        cond: Some(Cond { at: ZERO, value: 0 }),
        block: 7,
        bytes: [0, 0, 0, 0, 0, 0, 0, 0, 9, 10, 11, 12, 13, 14, 15, 16],
    },
    Step {
        shows: "a predicate of 0, skipped where it is 1",
        task: Task::Fill(Part(7, 8, 12), 0),
        cond: Some(Cond { at: ZERO, value: 1 }),
        block: 7,
        bytes: [0, 0, 0, 0, 0, 0, 0, 0, 0, 0, 0, 0, 13, 14, 15, 16],
    },
];

fn takes_steps(rt: &impl Abort, alloc: Global, memory: &mut DeviceMemory) -> Result<(), Fail> {
    for step in &STEPS {
        let c = command(alloc, 1, step.task, step.cond)?;
        assert_eq!(rt; run(memory, &c)?, 0, "{}", step.shows);
        assert_eq!(rt;
            bytes(memory, step.block),
            step.bytes.as_slice(),
            "{}",
            step.shows
        );
    }
    Ok(())
}

fn lets_a_block_go(rt: &impl Abort, memory: &mut DeviceMemory) {
    assert_eq!(rt; memory.take(9).map(|block| block.number), Some(9));
    assert!(rt; memory.take(9).is_none());
    for (number, held) in [(7, true), (9, false), (20, true)] {
        assert_eq!(rt; memory.holds(number), held, "block {number}");
    }
    assert_eq!(rt; bytes(memory, 9).len(), 0);
}

#[test]
fn commands_on_three_blocks(rt: HostRuntime) -> Result<(), Fail> {
    let alloc = rt.alloc();
    let mut memory = three_blocks(alloc)?;
    write(
        &mut memory,
        Part(7, 0, 8).range(),
        &[1, 2, 3, 4, 5, 6, 7, 8],
    )?;
    takes_steps(&rt, alloc, &mut memory)?;
    lets_a_block_go(&rt, &mut memory);
    Ok(())
}
