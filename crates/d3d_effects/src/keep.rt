ghost use Rattle.std.specs.Prelude.{◌≡◌, false, OnOk};
ghost use Rattle.call_log.specs.View.{call_view};
ghost use Rattle.d3d_checks.specs.Accepted.{Accepted, Tells};
ghost use Rattle.d3d_effects.specs.Bound.{is_execution};
ghost use Rattle.d3d_model.specs.D3dState.{bindings_of};
ghost use Rattle.d3d_model.specs.declared.codes.TheConstants.{BUFFER_CLASS};
ghost use Rattle.d3d_model.specs.Effect.{deeds_by, objects_after};
ghost use Rattle.d3d_model.specs.Past.{Past, then_done};
ghost use Rattle.d3d_model.specs.Stream.{binds};
ghost use Rattle.d3d_state.specs.Meaning.{objects_of};
ghost use Rattle.d3d_state.specs.declared.objects.Objects as state;
ghost use Rattle.d3d_uses.specs.Summary.{Forgets};

use call_log::Call;
use d3d_model::codes::{BUFFER_CLASS, MAP_DISCARD};
use d3d_uses::Uses;
use dx_types::{CallNo, ResRange};
use std::alloc::AllocError;

/// Keeps what an accepted call n of the immediate context does that later calls ask of, if it executes no list. `bound` are the
/// ranges that it binds.
pub fn keep_call(
    uses: &mut Uses,
    n: CallNo,
    call: &Call<'_>,
    bound: &[ResRange],
) -> Result<(), AllocError>
    ensures { OnOk result ((past : Past) (s : state.Objects) → Accepted (objects_of s) 0 (call_view call.now)
        → is_execution (call_view call.now) ≡ false
        → bound.now ≡ binds (objects_of s) (bindings_of (objects_of s) 0) (call_view call.now) → Tells past (objects_of s) uses.old
        → Tells (then_done n past (deeds_by (objects_of s) 0 (call_view call.now)))
        (objects_after n (objects_of s) 0 (call_view call.now)) uses.new) }
{
    match *call {
        Call::Buffer { id, .. } => {
            uses.made(id);
            Ok(())
        }
        Call::Destroy { class, id } => {
            forget(uses, class, id);
            Ok(())
        }
        Call::MapWrite { res, mode, .. } => {
            if mode == MAP_DISCARD {
                uses.discarded(res)
            } else {
                uses.bound_all(n, bound)
            }
        }
        _ => uses.bound_all(n, bound),
    }
}

/// Keeps nothing of an object that is destroyed, if it is a buffer.
fn forget(uses: &mut Uses, class: u32, id: u32)
    ensures buffer { class ≡ BUFFER_CLASS → Forgets uses.old id uses.new }
    ensures other { (class ≡ BUFFER_CLASS → ⊥) → uses.new ≡ uses.old }
{
    if class == BUFFER_CLASS {
        uses.removed(id);
    }
}
