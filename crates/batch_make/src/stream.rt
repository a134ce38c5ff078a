ghost use Rattle.std.specs.Prelude.{◌≡◌, ◌++◌, ◌&&◌, [], ◌∷◌, suc, ℕ, List, IfOk, OnOk, Some};
ghost use Rattle.std.specs.Ordering.{nat_cmp};
ghost use Rattle.std.specs.BTreeSet.{contains};
ghost use Rattle.dx_types.specs.declared.range.Span.{Span};
ghost use Rattle.vk_types.specs.declared.command.Command as listed;
ghost use Rattle.vk_types.specs.declared.op.VkOp.TheVariants as op;
ghost use Rattle.vk_types.specs.Hazards.{has_write};
ghost use Rattle.vk_types.specs.BarrierCauses as cause;
ghost use Rattle.vk_types.specs.BarrierCauses.{barrier_before, recent_after, maybe_barrier};
ghost use Rattle.barrier_track.specs.Since.{IsSince};
ghost use Rattle.core_model.specs.Script.{Script};
ghost use Rattle.core_model.specs.Batching.{Made, nothing_made, make_command, give_block, batch_ops};
ghost use Rattle.batch_make.specs.Making.{commands_in};

use crate::Parts;
use barrier_track::Tracker;
use dx_types::{BlockNo, CallNo, ChunkNo};
use std::alloc::{AllocError, Global};
use std::collections::BTreeSet;
use vk_types::{Access, Barrier, Command, Cond, Mask, QueryMark, Touch, VkOp, Work};

/// What runs on from batch to batch: how many commands were listed, what those since the last barrier touched, and which
/// blocks are of staging buffers. Where a call lacks memory the stream is of no use any more.
#[derive(Drop)]
pub struct Stream {
    commands: u64,
    tracker: Tracker,
    staging: BTreeSet<u32>,
}

impl Stream {
    ghost use Rattle.batch_make.specs.Making.{Continues, Has, with_mark};

    /// Before the first chunk.
    pub fn new(alloc: Global) -> Stream
        ensures { Continues nothing_made result }
    {
        Stream {
            commands: 0,
            tracker: Tracker::new(alloc),
            staging: BTreeSet::new(alloc),
        }
    }

    /// A buffer stands in this block from now on.
    pub fn give_block(&mut self, block: BlockNo, is_staging: bool) -> Result<(), AllocError>
        ensures { OnOk result ((script : Script) (buffer : ℕ) (m : Made) → script.is_staging buffer ≡ is_staging
            → Continues m self.old → Continues (give_block script buffer (Some block) m) self.new) }
    {
        if is_staging {
            self.staging.insert(block)?;
        } else {
            self.staging.remove(&block);
        }
        Ok(())
    }

    /// The next command, and before it the barrier that its hazards cause, if they cause one.
    pub fn command(
        &mut self,
        parts: &mut Parts,
        call: CallNo,
        work: Work,
        cond: Option<Cond>,
    ) -> Result<(), AllocError>
        ensures stream { OnOk result ((m : Made) → Continues m self.old
            → Continues (make_command call work cond m) self.new) }
        ensures parts { OnOk result ((part : Span → List ℕ) (m : Made) → Continues m self.old → Has part m parts.old
            → Has part (make_command call work cond m) parts.new) }
    {
        let number = next(self.commands)?;
        let command = Command {
            number,
            call,
            work,
            cond,
        };
        list(&mut self.tracker, &mut parts.ops, command)?;
        self.commands = number;
        Ok(())
    }

    /// A Begin or an End of a query, which stands before the next command.
    pub fn mark_query(
        &self,
        parts: &mut Parts,
        call: CallNo,
        query: u32,
        begins: bool,
    ) -> Result<(), AllocError>
        ensures { OnOk result ((part : Span → List ℕ) (m : Made) → Continues m self.now → Has part m parts.old
            → Has part (with_mark call query begins m) parts.new) }
    {
        let before = next(self.commands)?;
        parts.queries.push(QueryMark {
            call,
            query,
            begins,
            before,
        })?;
        Ok(())
    }

    /// The chunk's end: the barrier to the host where a command writes a staging buffer, and the submit of this number.
    pub fn submit(&self, parts: &mut Parts, number: ChunkNo) -> Result<(), AllocError>
        ensures ops { OnOk result ((part : Span → List ℕ) (m : Made) → Continues m self.now → Has part m parts.old
            → parts.new.ops.items ≡ batch_ops m number) }
        ensures writes { parts.new.writes ≡ parts.old.writes }
        ensures staging { parts.new.staging ≡ parts.old.staging }
        ensures queries { parts.new.queries ≡ parts.old.queries }
    {
        let first = least_writer(&self.staging, &parts.ops);
        end(&mut parts.ops, first, number)
    }
}

// Lists a command, and before it the barrier that its hazards cause, if they cause one.
fn list(tracker: &mut Tracker, ops: &mut Vec<VkOp>, command: Command) -> Result<(), AllocError>
    ensures since { OnOk result ((recent : List listed.Command) → IsSince tracker.old recent
        → IsSince tracker.new (recent_after recent command)) }
    ensures ops { OnOk result ((recent : List listed.Command) → IsSince tracker.old recent
        → ops.new.items
        ≡ ops.old.items ++ (maybe_barrier (barrier_before recent command) ++ op.Command command ∷ [])) }
{
    tracker.reserve(&command)?;
    let barrier = tracker.before(&command);
    push_barrier(ops, barrier)?;
    ops.push(VkOp::Command(command))?;
    Ok(())
}

fn push_barrier(ops: &mut Vec<VkOp>, barrier: Option<Barrier>) -> Result<(), AllocError>
    ensures { OnOk result (ops.new.items ≡ ops.old.items ++ maybe_barrier barrier) }
{
    if let Some(barrier) = barrier {
        ops.push(VkOp::Barrier(barrier))?;
    }
    Ok(())
}

// Ends a batch's operations.
fn end(ops: &mut Vec<VkOp>, first: Option<u64>, number: ChunkNo) -> Result<(), AllocError>
    ensures { OnOk result (ops.new.items ≡ ops.old.items ++ (cause.host_barrier first ++ op.Submit number ∷ [])) }
{
    if let Some(first) = first {
        ops.push(VkOp::Barrier(host_barrier(first)))?;
    }
    ops.push(VkOp::Submit(number))?;
    Ok(())
}

// The barrier to the host behind commands of which this is the first that writes a staging buffer.
fn host_barrier(first: u64) -> Barrier
    ensures { op.Barrier result ∷ [] ≡ cause.host_barrier (Some first) }
{
    Barrier {
        source: Mask::device(Access::WRITE),
        dest: Mask {
            indirect: None,
            compute: None,
            transfer: None,
            host: Some(Access::READ),
        },
        first,
        second: None,
    }
}

// The least of the commands that write one of the blocks.
fn least_writer(blocks: &BTreeSet<u32>, ops: &[VkOp]) -> Option<u64>
    ensures { result ≡ cause.least_writer (contains nat_cmp blocks.now) (commands_in ops.now) }
{
    let mut least = None;
    'ops: for op in ops {
        least = lesser(least, writer(blocks, op));
    }
    least
}

// The number of an operation that is a command which writes one of the blocks.
fn writer(blocks: &BTreeSet<u32>, op: &VkOp) -> Option<u64>
    ensures { result ≡ cause.least_writer (contains nat_cmp blocks.now) (commands_in (op.now ∷ [])) }
{
    match op {
        VkOp::Command(command) => if writes_block(blocks, command) {
            Some(command.number)
        } else {
            None
        },
        VkOp::HostWrite { .. }
        | VkOp::Pipeline { .. }
        | VkOp::Barrier(_)
        | VkOp::Submit(_)
        | VkOp::Fence(_)
        | VkOp::HostRead { .. } => None,
    }
}

// The lesser of two numbers, or the one that there is.
fn lesser(a: Option<u64>, b: Option<u64>) -> Option<u64>
    ensures { result ≡ cause.lesser a b }
{
    match (a, b) {
        (None, b) => b,
        (a, None) => a,
        (Some(a), Some(b)) => Some(a.min(b)),
    }
}

// Whether the command writes one of the blocks.
fn writes_block(blocks: &BTreeSet<u32>, command: &Command) -> bool
    ensures { result ≡ cause.writes_block (contains nat_cmp blocks.now) command.now }
{
    for i in 0..command.touch_count() {
        if let Some(touch) = command.touch_at(i) {
            if writes_there(blocks, &touch) {
                return true;
            }
        }
    }
    false
}

// Whether the touch writes one of the blocks.
fn writes_there(blocks: &BTreeSet<u32>, touch: &Touch) -> bool
    ensures { result ≡ (has_write touch.now.access && contains nat_cmp blocks.now touch.now.range.block) }
{
    touch.access.writes() && blocks.contains(&touch.range.block)
}

// The number of the next command.
fn next(commands: u64) -> Result<u64, AllocError>
    ensures { IfOk result (λ number. number ≡ suc commands) }
{
    commands.checked_add(1).ok_or(AllocError)
}
