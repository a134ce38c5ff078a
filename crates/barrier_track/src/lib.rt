//! Puts a barrier before each command that conflicts with a command since the last such barrier.
#![tactic(auto)]

ghost use Rattle.std.specs.Prelude.{◌≡◌, ℕ, Bool, false, List, Some, slice_get};
ghost use Rattle.vk_types.specs.BarrierCauses.{HasBarrierCauses};
ghost use Rattle.vk_types.specs.Covered.{uncovered};
ghost use Rattle.vk_types.specs.declared.command.Command.{Command};
ghost use Rattle.vk_types.specs.declared.op.VkOp.{VkOp};
ghost use Rattle.vk_types.specs.declared.op.VkOp.TheVariants as op;

mod blocks;
mod ranges;
mod stages;
mod touches;
mod tracker;

pub use tracker::Tracker;

/// A law of these barriers: a listing that has exactly the barriers that its hazards cause covers each hazard of two
/// commands.
pub fn barriers_cover()
    ensures { (staging : ℕ → Bool) (ops : List VkOp) → HasBarrierCauses staging ops
        → (x y : ℕ) (c d : Command) → slice_get ops x ≡ Some (op.Command c) → slice_get ops y ≡ Some (op.Command d)
        → uncovered ops x y ≡ false }
{}
