//! What calls do to the memory: a call of the log by itself, or each call of a list that it executes.

ghost use Rattle.std.specs.Prelude.{◌≡◌, ℕ, OnOk, length};
ghost use Rattle.call_log.specs.View.{call_view};
ghost use Rattle.d3d_memory.specs.Limits.{HasRoom, InLimits};
ghost use Rattle.d3d_model.specs.D3dState.{calls_of_list};
ghost use Rattle.d3d_model.specs.Effect.{list_start};
ghost use Rattle.d3d_model.specs.Memory.{memory_after, run_all};
ghost use Rattle.d3d_effects.specs.Slots.{AllFit};
ghost use Rattle.d3d_state.specs.Meaning.{objects_of};

use call_log::Call;
use d3d_effects::{call_in, count_of, set_by};
use d3d_memory::{Memory, accept, run};
use d3d_state::Objects;
use d3d_views::Bindings;
use std::alloc::AllocError;

/// What an accepted call on a context does to the memory, with the objects that it meets. After want of memory nothing is known of
/// the memory.
pub(crate) fn act(
    memory: &mut Memory,
    objects: &Objects<'_>,
    context: u16,
    call: &Call<'_>,
) -> Result<(), AllocError>
    requires limits { InLimits memory.old }
    requires room { (list : ℕ) → HasRoom memory.old (length (calls_of_list (objects_of objects.now) list)) }
    requires fit { (list : ℕ) → AllFit (calls_of_list (objects_of objects.now) list) }
    ensures { (n : ℕ) → OnOk result (memory.new ≡ memory_after n (objects_of objects.now) memory.old context (call_view call.now)) }
{
    match *call {
        Call::ExecuteList { list, .. } => play_list(memory, objects, list),
        _ => accept(memory, objects, context, call),
    }
}

/// Plays the calls of a list from the default state, each with the bindings that the calls before it set.
fn play_list(memory: &mut Memory, objects: &Objects<'_>, list: u32) -> Result<(), AllocError>
    requires room { HasRoom memory.old (length (calls_of_list (objects_of objects.now) list)) }
    requires fit { AllFit (calls_of_list (objects_of objects.now) list) }
    ensures { let o = objects_of objects.now in
        (n : ℕ) → OnOk result (memory.new ≡ run_all n (list_start o) memory.old (calls_of_list o list)) }
{
    let mut bindings = Bindings::new();
    'calls: for i in 0..count_of(objects, list) {
        let call = call_in(objects, list, i);
        run(memory, objects, &bindings, &call)?;
        set_by(&mut bindings, objects, &call);
    }
    Ok(())
}
