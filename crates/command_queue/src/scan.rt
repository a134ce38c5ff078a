//! What of the operations before a command decides whether it is ready. Commands are told apart by the stages at which they work
//! alone, so sixteen flags say which commands were not run, and sixteen which ones barriers hold back.

ghost use Rattle.std.specs.Prelude.{◌≡◌, ℕ, ◌<◌, ◌++◌, Some, None, ◌∷◌, [], List, false, true, not, ◌&&◌, ◌||◌, length, slice_index_or, slice_set};
ghost use Rattle.std.specs.Option.{option_copied};
ghost use Rattle.command_queue.specs.declared.queue.Listed.{Listed};
ghost use Rattle.command_queue.specs.Readiness.{barrier_of, command_of, is_ready, left_command};
ghost use Rattle.command_queue.specs.StageSets.{Stands, names_set, some_waits, stage_set};

use crate::queue::Listed;
use vk_types::{Barrier, Command, Mask, Stage, VkOp};

/// How many sets of stages there are.
pub const SETS: usize = 16;

/// Of each set of stages whether a command that was not run has it, and whether its commands are held back.
#[derive(Drop)]
pub struct Scan {
    pub waiting: [bool; SETS],
    pub held: [bool; SETS],
}

impl Scan {
    /// No operation was seen.
    pub fn new() -> Scan
        ensures { Stands [] result.waiting result.held }
    {
        Scan {
            waiting: [false; SETS],
            held: [false; SETS],
        }
    }

    /// Sees the next operation, and answers whether it is a command that is ready.
    pub fn pass(&mut self, step: &Listed) -> bool
        requires { length self.old.held ≡ 16 }
        ensures ready { (front : List Listed) → Stands front self.old.waiting self.old.held → result ≡ is_ready front step.now }
        ensures stands { (front : List Listed) → Stands front self.old.waiting self.old.held
            → Stands (front ++ step.now ∷ []) self.new.waiting self.new.held }
    {
        match left_command(step) {
            Some(command) => self.pass_command(step, command),
            None => self.pass_other(step),
        }
    }

    fn pass_command(&mut self, step: &Listed, command: &Command) -> bool
        requires { left_command step.now ≡ Some command.now }
        ensures ready { (front : List Listed) → Stands front self.old.waiting self.old.held → result ≡ is_ready front step.now }
        ensures stands { (front : List Listed) → Stands front self.old.waiting self.old.held
            → Stands (front ++ step.now ∷ []) self.new.waiting self.new.held }
    {
        self.see_command(command)
    }

    fn pass_other(&mut self, step: &Listed) -> bool
        requires none { left_command step.now ≡ None }
        requires wide { length self.old.held ≡ 16 }
        ensures ready { (front : List Listed) → Stands front self.old.waiting self.old.held → result ≡ is_ready front step.now }
        ensures stands { (front : List Listed) → Stands front self.old.waiting self.old.held
            → Stands (front ++ step.now ∷ []) self.new.waiting self.new.held }
    {
        match barrier_of(&step.op) {
            Some(barrier) => self.pass_barrier(step, barrier),
            None => self.pass_over(step),
        }
    }

    fn pass_barrier(&mut self, step: &Listed, barrier: &Barrier) -> bool
        requires barrier { barrier_of step.now.op ≡ Some barrier.now }
        requires wide { length self.old.held ≡ 16 }
        ensures ready { (front : List Listed) → Stands front self.old.waiting self.old.held → result ≡ is_ready front step.now }
        ensures stands { (front : List Listed) → Stands front self.old.waiting self.old.held
            → Stands (front ++ step.now ∷ []) self.new.waiting self.new.held }
    {
        self.see_barrier(barrier);
        false
    }

    // Neither a command that is left nor a barrier.
    fn pass_over(&self, step: &Listed) -> bool
        requires command { left_command step.now ≡ None }
        requires barrier { barrier_of step.now.op ≡ None }
        ensures ready { (front : List Listed) → result ≡ is_ready front step.now }
        ensures stands { (front : List Listed) → Stands front self.now.waiting self.now.held
            → Stands (front ++ step.now ∷ []) self.now.waiting self.now.held }
    {
        false
    }

    // A command that was not run. It is ready where it is not held back.
    fn see_command(&mut self, c: &Command) -> bool
        ensures ready { result ≡ not (slice_index_or self.old.held (stage_set c.now) false) }
        ensures waiting { self.new.waiting ≡ slice_set self.old.waiting (stage_set c.now) true }
        ensures held { self.new.held ≡ self.old.held }
    {
        let set = stage_set(c);
        self.waiting[set] = true;
        !self.held[set]
    }

    // A barrier. It holds sets of stages back where it names all stages of one that waits.
    fn see_barrier(&mut self, b: &Barrier)
        requires { length self.old.held ≡ 16 }
        ensures waiting { self.new.waiting ≡ self.old.waiting }
        ensures wide { length self.new.held ≡ 16 }
        ensures held { (set : ℕ) → set < 16 → slice_index_or self.new.held set false
            ≡ (slice_index_or self.old.held set false || (some_waits self.old.waiting b.now.source && names_set b.now.dest set)) }
    {
        if some_waits(&self.waiting, &b.source) {
            hold(&mut self.held, &b.dest);
        }
    }
}

/// The command that a step is, if it was not run.
fn left_command(step: &Listed) -> Option<&Command>
    ensures { option_copied result ≡ left_command step.now }
{
    if step.ran { None } else { command_of(&step.op) }
}

/// The command that an operation is.
pub(crate) fn command_of(op: &VkOp) -> Option<&Command>
    ensures { option_copied result ≡ command_of op.now }
{
    match op {
        VkOp::Command(command) => Some(command),
        VkOp::HostWrite { .. }
        | VkOp::Pipeline { .. }
        | VkOp::Barrier(_)
        | VkOp::Submit(_)
        | VkOp::Fence(_)
        | VkOp::HostRead { .. } => None,
    }
}

/// The barrier that an operation is.
fn barrier_of(op: &VkOp) -> Option<&Barrier>
    ensures { option_copied result ≡ barrier_of op.now }
{
    match op {
        VkOp::Barrier(barrier) => Some(barrier),
        VkOp::HostWrite { .. }
        | VkOp::Pipeline { .. }
        | VkOp::Command(_)
        | VkOp::Submit(_)
        | VkOp::Fence(_)
        | VkOp::HostRead { .. } => None,
    }
}

/// The stages at which a command works, as the number of their set.
fn stage_set(c: &Command) -> usize
    ensures set { result ≡ stage_set c.now }
    ensures small { result < 16 }
{
    usize::from(c.has_stage(Stage::Indirect))
        + 2 * usize::from(c.has_stage(Stage::Compute))
        + 4 * usize::from(c.has_stage(Stage::Transfer))
        + 8 * usize::from(c.has_stage(Stage::Host))
}

/// Whether a mask names each stage of a set.
fn names_set(m: &Mask, set: usize) -> bool
    ensures { result ≡ names_set m.now set }
{
    ((set / 1 % 2 == 0 || m.indirect.is_some()) && (set / 2 % 2 == 0 || m.compute.is_some()))
        && ((set / 4 % 2 == 0 || m.transfer.is_some()) && (set / 8 % 2 == 0 || m.host.is_some()))
}

/// Whether a mask names each stage of some waiting set.
fn some_waits(waiting: &[bool; SETS], m: &Mask) -> bool
    ensures { result ≡ some_waits waiting.now m.now }
{
    'sets: for set in 0..SETS {
        if waits_at(waiting, m, set) {
            return true;
        }
    }
    false
}

fn waits_at(waiting: &[bool; SETS], m: &Mask, set: usize) -> bool
    requires { set < 16 }
    ensures { result ≡ (slice_index_or waiting.now set false && names_set m.now set) }
{
    waiting[set] && names_set(m, set)
}

/// Holds back each set whose stages a mask names.
fn hold(held: &mut [bool; SETS], m: &Mask)
    requires { length held.old ≡ 16 }
    ensures wide { length held.new ≡ 16 }
    ensures held { (set : ℕ) → set < 16 → slice_index_or held.new set false ≡ (slice_index_or held.old set false || names_set m.now set) }
{
    'sets: for set in 0..SETS {
        hold_at(held, m, set);
    }
}

fn hold_at(held: &mut [bool; SETS], m: &Mask, set: usize)
    requires { set < 16 }
    ensures { held.new ≡ slice_set held.old set (slice_index_or held.old set false || names_set m.now set) }
{
    let named = names_set(m, set);
    held[set] = held[set] || named;
}
