//! The two ends of the device's work: batches become submissions, and completions become posts.
#![tactic(auto)]

ghost use Rattle.std.specs.Prelude.{◌≡◌, ℕ, ◌++◌, ◌∷◌, List};
ghost use Rattle.vk_types.specs.declared.message.Batch.{Batch};
ghost use Rattle.vk_types.specs.declared.message.Placed.{Placed};
ghost use Rattle.vk_types.specs.declared.op.VkOp.{VkOp};
ghost use Rattle.core_model.specs.AppActs.{device_commands};
ghost use Rattle.core_model.specs.Batching.{made, batch_ops};
ghost use Rattle.core_model.specs.CoreState.{Segment, Core, start};
ghost use Rattle.core_model.specs.CoreStep.{Event, Chain};
ghost use Rattle.core_model.specs.Invariant.{handed};
ghost use Rattle.core_model.specs.Lawful.{IsLawful};
ghost use Rattle.core_model.specs.Messages.{IsBatch};
ghost use Rattle.core_model.specs.OtherParts.{needed};
ghost use Rattle.core_model.specs.Readings.{Reading};
ghost use Rattle.core_model.specs.Script.{Script};
ghost use Rattle.core_model.specs.Succession.{Log};
ghost use Rattle.submit_finish.specs.Dispatched.{commands_among, dispatched};

mod finish;
mod submit;

pub use finish::{FinishPart, Finished};
pub use submit::SubmitPart;

/// Laws of the shaders that a batch's dispatches name. They are those that its commands need. So those of the operations that are
/// made of a chunk's items are what the commands made of them need; and in every state that steps reach from the start, by any
/// choices, those of a batch that stands for a chunk which was handed over are what the chunk's commands need.
pub fn dispatches_are_needed()
    ensures commands { (ops : List VkOp) → dispatched ops ≡ needed (commands_among ops) }
    ensures made { (script : Script) (places : List (List Placed)) (k : ℕ)
        → dispatched (batch_ops (made script places) k) ≡ needed (made script places).listed }
    ensures batches { (log : Log) (reading : Reading) → IsLawful log.meaning log.script
        → (events : List Event) (core : Core) → Chain log.meaning reading log.script (start log.script) events core
        → (front : List Segment) (s : Segment) (back : List Segment) → handed core ≡ front ++ s ∷ back
        → (m : Batch) → IsBatch log core.listing front s m → dispatched m.ops.items ≡ needed (device_commands s.commands) }
{}
