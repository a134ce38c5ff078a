//! What a call that may stand in a list does, played on the immediate context, and what it sets on each.

ghost use Rattle.std.specs.Prelude.{◌≡◌, ◌<◌, length, slice_get, Some};
ghost use Rattle.std.specs.Option.{option_map};
ghost use Rattle.d3d_lists.specs.declared.numbered.Numbered.{Numbered as RecordedCall};
ghost use Rattle.call_log.specs.View.{call_view};
ghost use Rattle.d3d_effects.specs.Played.{SlotFits, call_no};
ghost use Rattle.d3d_lists.specs.declared.recorder.TheConstants.{CONTEXTS};
ghost use Rattle.d3d_model.specs.D3dState.{bindings_of, calls_of_list, with_bindings};
ghost use Rattle.d3d_model.specs.Effect.{executed, played, queries_after};
ghost use Rattle.d3d_model.specs.Stream.{predicate_from, set_by};
ghost use Rattle.d3d_state.specs.Meaning.{objects_of, with_queries};
ghost use Rattle.d3d_views.specs.Limits.{WordFits};
ghost use Rattle.d3d_views.specs.Meaning.{meaning};

use call_log::Call;
use d3d_lists::Numbered;
use d3d_model::codes::{NO_PREDICATE, QUERY_PREDICATE, RESTORE_STATE};
use d3d_state::{Objects, Setting};
use d3d_views::{Bindings, Predicate};
use dx_types::CallNo;

/// Plays a call that may stand in a list on the immediate context, as call n.
pub(crate) fn play(objects: &mut Objects<'_>, n: CallNo, call: &Call<'_>)
    requires { SlotFits (call_view call.now) }
    ensures { objects_of objects.new ≡ played n (objects_of objects.old) (call_view call.now) }
{
    count(objects, n, call);
    set_on(objects, 0, call);
}

/// Begins or ends the query that call n begins or ends, if it does.
fn count(objects: &mut Objects<'_>, n: CallNo, call: &Call<'_>)
    ensures { let o = objects_of objects.old in
        objects_of objects.new ≡ with_queries o (queries_after n o.queries (call_view call.now)) }
{
    match *call {
        Call::Begin { query } => objects.begin(query),
        Call::EndQuery { query } => objects.end(query, n),
        _ => {}
    }
}

/// Sets on a context what a call sets.
pub(crate) fn set_on(objects: &mut Objects<'_>, context: u16, call: &Call<'_>)
    requires context { context < CONTEXTS }
    requires fits { SlotFits (call_view call.now) }
    ensures { let o = objects_of objects.old in
        objects_of objects.new ≡ with_bindings o context (set_by o (bindings_of o context) (call_view call.now)) }
{
    match *call {
        Call::SetShader { id } => objects.set(context, Setting::Shader(id)),
        Call::SetConstant { slot, res } => objects.set(context, Setting::Constant { slot, res }),
        Call::SetSrv { slot, view } => {
            let view = objects.bound_view(view);
            objects.set(context, Setting::Srv { slot, view });
        }
        Call::SetUav { slot, view } => {
            let view = objects.bound_view(view);
            objects.set(context, Setting::Uav { slot, view });
        }
        Call::ClearState => objects.set(context, Setting::Default),
        Call::SetPredication {
            kind,
            id,
            offset,
            value,
        } => {
            let predicate = predicate_from(kind, id, offset, value);
            objects.set(context, Setting::Predicate(predicate));
        }
        _ => {}
    }
}

/// Sets in some bindings what a call sets, with these views live.
pub fn set_by(bindings: &mut Bindings, objects: &Objects<'_>, call: &Call<'_>)
    requires { SlotFits (call_view call.now) }
    ensures { bindings.new ≡ set_by (objects_of objects.now) bindings.old (call_view call.now) }
{
    match *call {
        Call::SetShader { id } => bindings.set_shader(id),
        Call::SetConstant { slot, res } => bindings.set_constant(slot as usize, res),
        Call::SetSrv { slot, view } => bindings.set_srv(slot as usize, objects.bound_view(view)),
        Call::SetUav { slot, view } => bindings.set_uav(slot as usize, objects.bound_view(view)),
        Call::ClearState => bindings.clear(),
        Call::SetPredication {
            kind,
            id,
            offset,
            value,
        } => bindings.set_predicate(predicate_from(kind, id, offset, value)),
        _ => {}
    }
}

/// The predicate that a call describes, by its kind from 0 to 2.
fn predicate_from(kind: u32, id: u32, offset: u32, value: u32) -> Predicate
    ensures meaning { meaning result ≡ predicate_from kind id offset value }
    ensures fits { WordFits (meaning result) }
{
    match kind {
        NO_PREDICATE => Predicate::Never,
        QUERY_PREDICATE => Predicate::Query { id, value },
        _ => Predicate::Word {
            res: id,
            offset: u64::from(offset),
            value,
        },
    }
}

/// Plays the calls of a list from the default state, as call n, and then sets again what was set, or the default state. So what
/// they set is seen by none of the other objects, and is not set: only the queries change.
pub(crate) fn execute(objects: &mut Objects<'_>, n: CallNo, list: u32, flag: u32)
    ensures { objects_of objects.new ≡ executed n (objects_of objects.old) list flag }
{
    'calls: for i in 0..count_of(objects, list) {
        let call = call_in(objects, list, i);
        count(objects, n, &call);
    }
    if flag != RESTORE_STATE {
        objects.set(0, Setting::Default);
    }
}

/// How many calls a list has; none if it is not live.
pub fn count_of(objects: &Objects<'_>, list: u32) -> usize
    ensures { result ≡ length (calls_of_list (objects_of objects.now) list) }
{
    match objects.list(list) {
        Some(calls) => calls.len(),
        None => 0,
    }
}

/// A call of a list, from 0.
pub fn call_in<'a>(objects: &Objects<'a>, list: u32, i: usize) -> Call<'a>
    requires { i < length (calls_of_list (objects_of objects.now) list) }
    ensures { Some (call_view result) ≡ call_no (objects_of objects.now) list i }
{
    match objects.list(list) {
        Some(calls) => nth(calls, i),
        None => unreachable!(),
    }
}

// The call at a place.
fn nth<'a>(calls: &[Numbered<'a>], i: usize) -> Call<'a>
    requires { i < length calls.now }
    ensures { option_map (λ (c : RecordedCall). c.call) (slice_get calls.now i) ≡ Some result }
{
    calls[i].call
}
