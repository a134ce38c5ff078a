//! The operations of the batches that were accepted and not completed, in order.

ghost use Rattle.std.specs.Prelude.{◌≡◌, ◌<◌, ◌≤◌, ◌++◌, ◌∷◌, ◌==◌, [], Bool, false, true, length, take, slice_get, slice_index_or, slice_set, OnOk, OnErr, MatchOption};
ghost use Rattle.std.specs.Option.{option_copied};
ghost use Rattle.std.specs.List.{list_any};
ghost use Rattle.command_queue.specs.Left.{marked, ran_one};
ghost use Rattle.command_queue.specs.Readiness.{fresh, is_left, ready_places, step_command, touches_block};
ghost use Rattle.vk_types.specs.Hazards.{touches};
ghost use Rattle.command_queue.specs.declared.queue.Listed.{Listed};

use crate::scan::{Scan, command_of};
use dx_types::BlockNo;
use std::alloc::{AllocError, Global};
use std::collections::VecDeque;
use std::marker::Model;
use vk_types::{Command, Touch, VkOp};

/// An operation that was accepted, and whether it is a command that was run.
#[derive(Drop)]
pub struct Listed {
    pub op: VkOp,
    pub ran: bool,
}

/// The operations that were accepted, the oldest first. No command before `first` is left to run.
#[derive(Drop)]
pub struct CommandQueue {
    steps: VecDeque<Listed>,
    first: usize,
}

impl Model for CommandQueue {
    ghost use Rattle.std.specs.Prelude.{◌≡◌, ◌≤◌, List, false, length, take};
    ghost use Rattle.std.specs.List.{list_any};
    ghost use Rattle.command_queue.specs.declared.queue.Listed.{Listed};
    ghost use Rattle.command_queue.specs.Readiness.{is_left};

    ghost Value = { List Listed };

    ghost view = { λ q. q.steps.items };

    ghost invariant = { λ q. (q.first ≤ length q.steps.items) × (list_any is_left (take q.first q.steps.items) ≡ false) };
}

impl CommandQueue {
    /// No operation was accepted.
    pub fn new(alloc: Global) -> CommandQueue
        ensures { result ≡ [] }
    {
        CommandQueue {
            steps: VecDeque::new(alloc),
            first: 0,
        }
    }

    /// How many operations it has.
    pub fn len(&self) -> usize
        ensures { result ≡ length self.now }
    {
        self.steps.len()
    }

    /// An operation comes behind all others. A lack of memory changes nothing.
    pub fn push(&mut self, op: VkOp) -> Result<(), AllocError>
        ensures ok { OnOk result (self.new ≡ self.old ++ fresh op ∷ []) }
        ensures err { OnErr result (self.new ≡ self.old) }
    {
        self.steps.push_back(Listed { op, ran: false })?;
        Ok(())
    }

    /// The place of the ready command number `j`, from 0, in the order of the operations. None exactly where at most `j` are
    /// ready. It takes one pass from the first command that is left on, and `ready(0)` ends at that command.
    pub fn ready(&self, j: u32) -> Option<usize>
        ensures place { result ≡ slice_get (ready_places self.now) j }
    {
        let mut before = Scan::new();
        let mut behind = j;
        let len = self.steps.len();
        'steps: for at in self.first..len {
            if before.pass(&self.steps[at]) {
                if behind == 0 {
                    return Some(at);
                }
                behind -= 1;
            }
        }
        None
    }

    /// The command at a place, if one is there.
    pub fn command(&self, place: usize) -> Option<&Command>
        ensures { option_copied result ≡ step_command (slice_get self.now place) }
    {
        match self.steps.get(place) {
            Some(step) => command_of(&step.op),
            None => None,
        }
    }

    /// The operation at a place was run.
    pub fn mark(&mut self, place: usize)
        requires { place < length self.old }
        ensures { self.new ≡ marked place self.old }
    {
        mark_step(&mut self.steps, place);
        self.first = first_left(&self.steps, self.first);
    }

    /// Whether a command is left among so many of the oldest operations.
    pub fn has_left(&self, count: usize) -> bool
        ensures { result ≡ list_any is_left (take count self.now) }
    {
        let first = first_left(&self.steps, self.first);
        first < count && first < self.steps.len()
    }

    /// Whether an operation touches a block, run or not.
    pub fn touches(&self, block: BlockNo) -> bool
        ensures { result ≡ list_any (touches_block block) self.now }
    {
        self.steps.iter().any(|step| touches_block(block, step))
    }

    /// Takes the oldest operation out.
    pub fn pop(&mut self) -> Option<VkOp>
        ensures { MatchOption result ((self.old ≡ []) × (self.new ≡ [])) (λ op. (ran : Bool) × (self.old ≡ record { op = op; ran = ran } ∷ self.new)) }
    {
        let step = self.steps.pop_front()?;
        self.first = self.first.saturating_sub(1);
        let Listed { op, ran: _ } = step;
        Some(op)
    }
}

fn is_left(step: &Listed) -> bool
    ensures { result ≡ is_left step.now }
{
    !step.ran && matches!(step.op, VkOp::Command(_))
}

fn mark_step(steps: &mut VecDeque<Listed>, place: usize)
    requires { place < length steps.old.items }
    ensures { (d : Listed) → steps.new.items ≡ slice_set steps.old.items place (ran_one (slice_index_or steps.old.items place d)) }
{
    steps[place].ran = true;
}

/// The place of the first command that is left, and the number of operations where none is. None is left before `from`.
fn first_left(steps: &VecDeque<Listed>, from: usize) -> usize
    requires within { from ≤ length steps.now.items }
    requires none { list_any is_left (take from steps.now.items) ≡ false }
    ensures within { result ≤ length steps.now.items }
    ensures none { list_any is_left (take result steps.now.items) ≡ false }
    ensures left { (d : Listed) → result < length steps.now.items → is_left (slice_index_or steps.now.items result d) ≡ true }
{
    let len = steps.len();
    'steps: for at in from..len {
        if is_left(&steps[at]) {
            return at;
        }
    }
    len
}

fn touches_block(block: BlockNo, step: &Listed) -> bool
    ensures { result ≡ touches_block block step.now }
{
    match &step.op {
        VkOp::Command(command) => command_touches(block, command),
        VkOp::HostWrite { range, .. } | VkOp::HostRead { range, .. } => range.block == block,
        VkOp::Pipeline { .. } | VkOp::Barrier(_) | VkOp::Submit(_) | VkOp::Fence(_) => false,
    }
}

fn command_touches(block: BlockNo, c: &Command) -> bool
    ensures { result ≡ list_any (λ t. t.range.block == block) (touches c.now) }
{
    for i in 0..c.touch_count() {
        if let Some(t) = c.touch_at(i) {
            if has_block(block, &t) {
                return true;
            }
        }
    }
    false
}

fn has_block(block: BlockNo, t: &Touch) -> bool
    ensures { result ≡ (t.now.range.block == block) }
{
    t.range.block == block
}
