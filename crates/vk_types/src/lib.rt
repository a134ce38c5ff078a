//! The device's side in Vulkan's words: commands, their touches, barriers, the listing, and the messages between the parts.
#![tactic(auto)]

ghost use Rattle.std.specs.Prelude.{◌≡◌, ℕ, Bool, List};
ghost use Rattle.vk_types.specs.Effects.{Meaning, Act, act_touches, act_effect, effect, invocations};
ghost use Rattle.vk_types.specs.Locality.{IsLocal, DependsOnReads};
ghost use Rattle.vk_types.specs.Hazards.{touches};
ghost use Rattle.base_lemmas.specs.Lists.{IsReordering};
ghost use Rattle.vk_types.specs.Listing.{acts};
ghost use Rattle.vk_types.specs.Covered.{Covered, OrdersHazards, is_hazard};
ghost use Rattle.vk_types.specs.Allowed.{IsAllowed, Keeps, outcome};
ghost use Rattle.vk_types.specs.declared.command.Command.{Command};
ghost use Rattle.vk_types.specs.declared.op.VkOp.{VkOp};

mod access;
mod command;
mod hazard;
mod message;
mod op;
mod slot_list;
mod touch;

pub use access::{Access, Mask, Stage};
pub use command::{Command, Cond, Groups, SlotName, SlotRange, Work};
pub use hazard::ranges_meet;
pub use message::{
    Batch, Completion, HostPart, Placed, Post, QueryMark, QueryValue, Snap, Submission,
};
pub use op::{Barrier, VkOp};
pub use slot_list::SlotList;
pub use touch::Touch;

/// Laws of effects, whatever a shader means by the words of its slots. A command changes only bytes that its touches
/// write, and what it writes, whether it is skipped, and how many invocations it runs depend only on bytes that its touches
/// read. The host's writes and reads are local to their ranges in the same way.
pub fn effects_are_local()
    ensures commands { (meaning : Meaning) (c : Command) → IsLocal (touches c) (effect meaning c) }
    ensures counts { (meaning : Meaning) (c : Command) → DependsOnReads (touches c) (invocations meaning c) }
    ensures acts { (meaning : Meaning) (a : Act) → IsLocal (act_touches a) (act_effect meaning a) }
{}

/// Laws of orders. An order of a listing's acts that keeps a relation by which each hazard is ordered leaves the memory,
/// and gives the host the bytes at each of its reads, that the listing's own order does, whatever its shaders mean. In
/// a covered listing each order that its barriers and fences allow does so, and keeps each hazard.
pub fn all_orders_agree()
    ensures any_relation { (meaning : Meaning) (contents : List (List ℕ)) (ops : List VkOp) (ordered : ℕ → ℕ → Bool)
        → OrdersHazards ordered ops
        → (order : List ℕ) → IsReordering (acts ops) order → Keeps ordered order
        → outcome meaning contents ops order ≡ outcome meaning contents ops (acts ops) }
    ensures covered { (meaning : Meaning) (contents : List (List ℕ)) (ops : List VkOp) → Covered ops
        → (order : List ℕ) → IsAllowed ops order
        → outcome meaning contents ops order ≡ outcome meaning contents ops (acts ops) }
    ensures kept { (ops : List VkOp) → Covered ops → (order : List ℕ) → IsAllowed ops order → Keeps (is_hazard ops) order }
{}
