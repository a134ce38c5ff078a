//! The operations that a device accepted: which commands were run, and which may be run now.
#![tactic(auto)]

ghost use Rattle.std.specs.Prelude.{◌≡◌, ℕ, ◌++◌, List, Some, slice_get, map};
ghost use Rattle.std.specs.List.{AllByRecursion};
ghost use Rattle.dx_types.specs.declared.range.Range.{Range};
ghost use Rattle.vk_types.specs.Effects.{Meaning, effect};
ghost use Rattle.vk_types.specs.Memory.{Memory};
ghost use Rattle.vk_types.specs.declared.command.Command.{Command};
ghost use Rattle.command_queue.specs.declared.queue.Listed.{Listed};
ghost use Rattle.command_queue.specs.Readiness.{ready_places, step_command};
ghost use Rattle.command_queue.specs.Left.{HazardsHold, LeftApart, left, marked, put_all, run_commands};

mod queue;
mod scan;

pub use queue::{CommandQueue, Listed};

/// A law of runs in any order. Where each two conflicting commands that are left are ordered by a barrier between them, a ready
/// command may be run first: it and then those that are left, in order, do what all of them do in order. And the same holds of
/// those that are left then.
pub fn runs_keep_the_order()
    ensures memory { (meaning : Meaning) (steps : List Listed) → HazardsHold steps
        → (j place : ℕ) → slice_get (ready_places steps) j ≡ Some place
        → (d : Command) → step_command (slice_get steps place) ≡ Some d
        → (m : Memory) → run_commands meaning (left (marked place steps)) (effect meaning d m) ≡ run_commands meaning (left steps) m }
    ensures hazards { (steps : List Listed) (place : ℕ) → HazardsHold steps → HazardsHold (marked place steps) }
{}

/// A law of acceptance. Operations that are accepted come behind all that is left. Where no command that is left touches a byte
/// that the host writes, the host may write before they are run: what is left then, in order, does what it did before, and then
/// the host's writes and the new commands follow.
pub fn batches_come_behind_what_is_left()
    ensures commands { (steps others : List Listed) → left (steps ++ others) ≡ left steps ++ left others }
    ensures memory { (meaning : Meaning) (steps others : List Listed) (writes : List (Range × List ℕ)) → LeftApart (left steps) writes
        → (m : Memory) → run_commands meaning (left (steps ++ others)) (put_all writes m)
        ≡ run_commands meaning (left others) (put_all writes (run_commands meaning (left steps) m)) }
{}
