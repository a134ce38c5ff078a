//! Completion of a batch whose commands were all run (after a signalled fence).

ghost use Rattle.std.specs.Prelude.{◌≡◌, ℕ, ◌≤◌, ◌++◌, ◌∷◌, [], All, IfOk, MatchOption, OnErr, OnOk, drop, false, map, take, true};
ghost use Rattle.std.specs.Option.{option_to_list};
ghost use Rattle.device_memory.specs.Held.{block_of};
ghost use Rattle.lifetime.specs.declared.holds.Mark.{Mark};
ghost use Rattle.command_queue.specs.Readiness.{ops_of};
ghost use Rattle.vk_device.specs.Completing.{Completes, can_complete, ended_after, ended_by, home, homes, released, still_marked, taken_out, value_in, without, without_all};

use crate::accepted::Accepted;
use crate::copies::{copies, push_some};
use crate::device::Device;
use buffer_blocks::Block;
use command_queue::CommandQueue;
use device_memory::DeviceMemory;
use dx_types::{BlockNo, CallNo, ChunkNo};
use lifetime::Holds;
use query_pool::Queries;
use std::alloc::{AllocError, Global};
use std::collections::VecDeque;
use vk_types::{Completion, QueryValue, VkOp};

/// Blocks from this number on are of no class.
const FIRST_OF_NO_CLASS: BlockNo = 512;

impl Device {
    /// Takes the oldest batch out, if each of its commands was run, with the blocks that it gave up, copies of the staging buffers
    /// that it uses and no later accepted batch does, and the values of the queries that ended. None, and nothing changes, where
    /// there is no batch, or the oldest has a command that was not run. After a lack of memory no command was run.
    pub fn complete(&mut self) -> Result<Option<Completion>, AllocError>
        ensures done { IfOk result (λ o. MatchOption o ((can_complete self.old ≡ false) × (self.new ≡ self.old)) (λ c. Completes self.old c self.new)) }
        ensures err { OnErr result ((self.new.order ≡ self.old.order) × (self.new.newest ≡ self.old.newest)) }
    {
        if self.can_complete() {
            Ok(Some(self.complete_first()?))
        } else {
            Ok(None)
        }
    }

    fn complete_first(&mut self) -> Result<Completion, AllocError>
        requires { can_complete self.old ≡ true }
        ensures done { IfOk result (λ c. Completes self.old c self.new) }
        ensures err { OnErr result ((self.new.order ≡ self.old.order) × (self.new.newest ≡ self.old.newest)) }
    {
        let alloc = self.alloc;
        let batch = take_first(&mut self.batches);
        let ops = take_ops(alloc, &mut self.queue, batch.count)?;
        let snaps = copies(
            alloc,
            &self.memory,
            &batch.staging,
            &self.batches,
            &self.queue,
        )?;
        let pages = take_blocks(alloc, &mut self.memory, &batch.pages)?;
        let homes = take_homes(alloc, &mut self.memory, &mut self.holds, batch.number)?;
        let values = take_values(alloc, &mut self.queries, batch.upto)?;
        Ok(Completion {
            number: batch.number,
            upto: batch.upto,
            placed: batch.placed,
            homes,
            pages,
            snaps,
            values,
            ops,
        })
    }
}

/// The oldest batch, which is there.
fn take_first(batches: &mut VecDeque<Accepted>) -> Accepted
    requires { batches.old.items ≡ [] → ⊥ }
    ensures { batches.old.items ≡ result ∷ batches.new.items }
{
    match batches.pop_front() {
        Some(batch) => batch,
        None => unreachable!(),
    }
}

/// Takes so many of the oldest operations out.
fn take_ops(alloc: Global, queue: &mut CommandQueue, count: usize) -> Result<Vec<VkOp>, AllocError>
    ensures ops { IfOk result (λ ops. ops.items ≡ ops_of (take count queue.old)) }
    ensures rest { OnOk result (queue.new ≡ drop count queue.old) }
{
    let mut ops = Vec::new(alloc);
    'steps: for _at in 0..count {
        let op = queue.pop();
        push_some(&mut ops, op)?;
    }
    Ok(ops)
}

/// Takes blocks out of memory, by their numbers.
fn take_blocks(
    alloc: Global,
    memory: &mut DeviceMemory,
    numbers: &[BlockNo],
) -> Result<Vec<Block>, AllocError>
    ensures blocks { IfOk result (λ bs. bs.items ≡ taken_out numbers.now (block_of memory.old)) }
    ensures rest { OnOk result (block_of memory.new ≡ without_all numbers.now (block_of memory.old)) }
{
    let mut blocks = Vec::new(alloc);
    'each: for number in numbers {
        let block = take_out(memory, *number);
        push_some(&mut blocks, block)?;
    }
    Ok(blocks)
}

/// Takes the blocks out that batches up to this one gave up. Those of a class go home.
fn take_homes(
    alloc: Global,
    memory: &mut DeviceMemory,
    holds: &mut Holds,
    k: ChunkNo,
) -> Result<Vec<Block>, AllocError>
    ensures homes { IfOk result (λ bs. bs.items ≡ homes k (released k holds.old) (block_of memory.old)) }
    ensures rest { OnOk result (block_of memory.new ≡ without_all (released k holds.old) (block_of memory.old)) }
    ensures marks { OnOk result (holds.new ≡ still_marked k holds.old) }
    ensures below { (n : ℕ) → All (λ (m : Mark). m.chunk ≤ n) holds.old → All (λ (m : Mark). m.chunk ≤ n) holds.new }
{
    let mut homes = Vec::new(alloc);
    'marks: while let Some(number) = holds.released(k) {
        take_home(memory, &mut homes, k, number)?;
    }
    Ok(homes)
}

/// Takes a block out. If it is of a class, it goes home, retired by this batch. Else it is dropped.
fn take_home(
    memory: &mut DeviceMemory,
    homes: &mut Vec<Block>,
    k: ChunkNo,
    number: BlockNo,
) -> Result<(), AllocError>
    ensures homes { OnOk result (homes.new.items ≡ homes.old.items ++ home k (block_of memory.old number)) }
    ensures rest { block_of memory.new ≡ without number (block_of memory.old) }
{
    let block = take_out(memory, number);
    let gone = home(block, k);
    push_some(homes, gone)?;
    Ok(())
}

fn take_out(memory: &mut DeviceMemory, number: BlockNo) -> Option<Block>
    ensures block { result ≡ block_of memory.old number }
    ensures rest { block_of memory.new ≡ without number (block_of memory.old) }
{
    memory.take(number)
}

/// A block of a class, retired by this batch.
fn home(block: Option<Block>, k: ChunkNo) -> Option<Block>
    ensures { option_to_list result ≡ home k block }
{
    let mut block = block?;
    if block.number >= FIRST_OF_NO_CLASS {
        return None;
    }
    block.retired = k;
    Some(block)
}

/// Takes the values of the queries out whose Ends are calls up to this one.
fn take_values(
    alloc: Global,
    queries: &mut Queries,
    upto: CallNo,
) -> Result<Vec<QueryValue>, AllocError>
    ensures values { IfOk result (λ vs. vs.items ≡ map (value_in queries.old.counts) (ended_by upto queries.old.ended)) }
    ensures rest { OnOk result (queries.new ≡ record queries.old { ended = ended_after upto queries.old.ended }) }
{
    let mut values = Vec::new(alloc);
    'ends: while let Some(value) = queries.answer(upto) {
        values.push(value)?;
    }
    Ok(values)
}
