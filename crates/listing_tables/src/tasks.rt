//! Commands and listings as plain data, so that tables can have them.

use dx_types::{CallNo, ChunkNo, Range};
use std::alloc::{AllocError, Global};
use vk_types::{
    Access, Barrier, Command, Cond, Groups, Mask, SlotList, SlotName, SlotRange, VkOp, Work,
};

/// The bytes of a block from one place to just before another.
#[derive(Clone, Copy)]
pub struct Part(pub u32, pub u64, pub u64);

impl Part {
    pub fn range(self) -> Range {
        Range {
            block: self.0,
            from: self.1,
            to: self.2,
        }
    }
}

/// What a command does.
#[derive(Clone, Copy)]
pub enum Task {
    /// From one part to another.
    Copy(Part, Part),
    /// The part, and the word that it is filled with.
    Fill(Part, u32),
    /// The part, its words, and how many of them are in turn.
    Clear(Part, [u32; 4], u32),
    Dispatch {
        shader: CallNo,
        groups: Groups,
        slots: &'static [(SlotName, Part)],
    },
}

/// An operation of a listing. A command has its number and its task.
#[derive(Clone, Copy)]
pub enum Op {
    HostWrite(Part),
    Pipeline(CallNo),
    Barrier(Barrier),
    Command(u64, Task),
    CommandIf(u64, Task, Cond),
    Submit(ChunkNo),
    Fence(ChunkNo),
    HostRead(Part),
}

/// Reads and writes at each stage of the device.
pub const ALL_TOUCHES: Mask = Mask {
    indirect: Some(Access::READ_WRITE),
    compute: Some(Access::READ_WRITE),
    transfer: Some(Access::READ_WRITE),
    host: None,
};

/// Writes at each stage of the device.
pub const ALL_WRITES: Mask = Mask {
    indirect: Some(Access::WRITE),
    compute: Some(Access::WRITE),
    transfer: Some(Access::WRITE),
    host: None,
};

/// Groups of a dispatch that runs one.
pub const ONE_GROUP: Groups = Groups::Direct { x: 1, y: 1, z: 1 };

fn slot_list(alloc: Global, slots: &[(SlotName, Part)]) -> Result<SlotList, AllocError> {
    let mut list = Vec::new(alloc);
    for (slot, part) in slots {
        list.push(SlotRange {
            slot: *slot,
            range: part.range(),
        })?;
    }
    Ok(SlotList::new(list))
}

pub fn work(alloc: Global, task: Task) -> Result<Work, AllocError> {
    let work = match task {
        Task::Copy(source, target) => Work::Copy {
            source: source.range(),
            target: target.range(),
        },
        Task::Fill(target, word) => Work::Fill {
            target: target.range(),
            word,
        },
        Task::Clear(target, words, unit) => Work::Clear {
            target: target.range(),
            words,
            unit,
        },
        Task::Dispatch {
            shader,
            groups,
            slots,
        } => Work::Dispatch {
            shader,
            groups,
            slots: slot_list(alloc, slots)?,
        },
    };
    Ok(work)
}

pub fn command(
    alloc: Global,
    number: u64,
    task: Task,
    cond: Option<Cond>,
) -> Result<Command, AllocError> {
    Ok(Command {
        number,
        call: 1,
        work: work(alloc, task)?,
        cond,
    })
}

pub fn operation(alloc: Global, op: Op) -> Result<VkOp, AllocError> {
    let operation = match op {
        Op::HostWrite(part) => VkOp::HostWrite {
            range: part.range(),
            call: 4,
        },
        Op::Pipeline(shader) => VkOp::Pipeline { shader },
        Op::Barrier(barrier) => VkOp::Barrier(barrier),
        Op::Command(number, task) => VkOp::Command(command(alloc, number, task, None)?),
        Op::CommandIf(number, task, cond) => {
            VkOp::Command(command(alloc, number, task, Some(cond))?)
        }
        Op::Submit(chunk) => VkOp::Submit(chunk),
        Op::Fence(chunk) => VkOp::Fence(chunk),
        Op::HostRead(part) => VkOp::HostRead {
            range: part.range(),
            call: 12,
        },
    };
    Ok(operation)
}

pub fn listing(alloc: Global, ops: &[Op]) -> Result<Vec<VkOp>, AllocError> {
    let mut list = Vec::new(alloc);
    for op in ops {
        list.push(operation(alloc, *op)?)?;
    }
    Ok(list)
}
