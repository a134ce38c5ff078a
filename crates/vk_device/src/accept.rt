//! Acceptance of a submitted batch (after vkQueueSubmit2). The host's writes to the batch's memory are made first.

ghost use Rattle.std.specs.Prelude.{◌≡◌, ◌≤◌, ◌++◌, ◌∷◌, [], All, IfOk, OnErr, OnOk, map, true};
ghost use Rattle.std.specs.List.{AllByRecursion};
ghost use Rattle.buffer_blocks.specs.declared.block.Block.{Block};
ghost use Rattle.device_memory.specs.Held.{AreAlike, block_of, memory_of};
ghost use Rattle.lifetime.specs.declared.holds.Mark.{Mark};
ghost use Rattle.command_queue.specs.Readiness.{fresh};
ghost use Rattle.vk_device.specs.Accepting.{Accepts, CanMark, CanWrite, IsNext, MarksAll, NoneHeld, can_accept, marks_by, with_blocks, written, zeroed};

use crate::accepted::Accepted;
use crate::device::Device;
use buffer_blocks::Block;
use call_log::Log;
use command_queue::CommandQueue;
use device_memory::DeviceMemory;
use dx_types::{BlockNo, ChunkNo};
use lifetime::Holds;
use query_pool::Queries;
use std::alloc::{AllocError, Global};
use std::collections::VecDeque;
use vk_types::{Batch, HostPart, QueryMark, Submission, VkOp};

impl Device {
    /// Accepts a batch: sets its blocks to 0, holds them and its pages, and makes its parts of the log in their order. Numbers come
    /// in order, from 1. After a lack of memory no command was run, and no batch completed.
    pub fn accept(&mut self, log: &Log<'_>, s: Submission) -> Result<(), AllocError>
        requires room { can_accept self.old s.batch.blocks.items s.batch.pages.items ≡ true }
        requires next { IsNext log.now.bytes s.batch self.old }
        requires marks { CanMark s.batch.queries.items self.old.asked }
        ensures ok { OnOk result (Accepts log.now.bytes s.batch self.old self.new) }
        ensures err { OnErr result (self.new.order ≡ self.old.order) }
    {
        let Batch {
            number,
            upto,
            placed,
            blocks,
            pages,
            writes,
            ops,
            marks,
            staging,
            queries,
        } = s.batch;
        let numbers = numbers_of(self.alloc, &pages)?;
        hold_zeroed(&mut self.memory, blocks)?;
        hold(&mut self.memory, pages)?;
        write_parts(&mut self.memory, log, &writes);
        let count = ops.len();
        push_all(&mut self.queue, ops)?;
        mark_all(&mut self.queries, &queries)?;
        self.batches.push_back(Accepted {
            number,
            upto,
            placed,
            pages: numbers,
            writes,
            staging,
            count,
        })?;
        self.newest = number;
        retire_all(&mut self.holds, number, &marks)?;
        Ok(())
    }
}

fn numbers_of(alloc: Global, blocks: &[Block]) -> Result<Vec<BlockNo>, AllocError>
    ensures { IfOk result (λ ns. ns.items ≡ map (λ (b : Block). b.number) blocks.now) }
{
    blocks.iter().map(|b| b.number).collect(alloc)
}

/// Sets each byte of a block to 0.
fn zero(block: &mut Block)
    ensures { block.new ≡ zeroed block.old }
{
    let mut bytes = block.take_bytes();
    bytes.fill(0);
    block.put_bytes(bytes);
}

/// Holds blocks more, set to 0.
fn hold_zeroed(memory: &mut DeviceMemory, blocks: Vec<Block>) -> Result<(), AllocError>
    requires { NoneHeld (map zeroed blocks.items) (block_of memory.old) }
    ensures { OnOk result (block_of memory.new ≡ with_blocks (map zeroed blocks.items) (block_of memory.old)) }
{
    let mut rest = VecDeque::from(blocks);
    'each: while let Some(mut block) = rest.pop_front() {
        zero(&mut block);
        memory.add(block)?;
    }
    Ok(())
}

/// Holds blocks more.
fn hold(memory: &mut DeviceMemory, blocks: Vec<Block>) -> Result<(), AllocError>
    requires { NoneHeld blocks.items (block_of memory.old) }
    ensures { OnOk result (block_of memory.new ≡ with_blocks blocks.items (block_of memory.old)) }
{
    let mut rest = VecDeque::from(blocks);
    'each: while let Some(block) = rest.pop_front() {
        memory.add(block)?;
    }
    Ok(())
}

/// Writes parts of the log, which it has, into blocks that are held.
fn write_parts(memory: &mut DeviceMemory, log: &Log<'_>, parts: &[HostPart])
    requires { AllByRecursion (CanWrite log.now.bytes (block_of memory.old)) parts.now }
    ensures memory { memory_of memory.new ≡ written log.now.bytes parts.now (memory_of memory.old) }
    ensures alike { AreAlike memory.old memory.new }
{
    'each: for part in parts {
        write_part(memory, log, part);
    }
}

fn write_part(memory: &mut DeviceMemory, log: &Log<'_>, part: &HostPart)
    requires { CanWrite log.now.bytes (block_of memory.old) part.now }
    ensures memory { memory_of memory.new ≡ written log.now.bytes (part.now ∷ []) (memory_of memory.old) }
    ensures alike { AreAlike memory.old memory.new }
{
    match log.part(part.span) {
        Some(bytes) => memory.write(&part.range, bytes),
        None => unreachable!(),
    }
}

fn push_all(queue: &mut CommandQueue, ops: Vec<VkOp>) -> Result<(), AllocError>
    ensures { OnOk result (queue.new ≡ queue.old ++ map fresh ops.items) }
{
    let mut rest = VecDeque::from(ops);
    'each: while let Some(op) = rest.pop_front() {
        queue.push(op)?;
    }
    Ok(())
}

fn retire_all(holds: &mut Holds, k: ChunkNo, blocks: &[BlockNo]) -> Result<(), AllocError>
    requires { All (λ (m : Mark). m.chunk ≤ k) holds.old }
    ensures ok { OnOk result (holds.new ≡ holds.old ++ marks_by k blocks.now) }
    ensures below { All (λ (m : Mark). m.chunk ≤ k) holds.new }
{
    'each: for block in blocks {
        holds.retire(k, *block)?;
    }
    Ok(())
}

fn mark_all(queries: &mut Queries, marks: &[QueryMark]) -> Result<(), AllocError>
    requires { CanMark marks.now queries.old }
    ensures { OnOk result (MarksAll marks.now queries.old queries.new) }
{
    'each: for mark in marks {
        queries.mark(*mark)?;
    }
    Ok(())
}
