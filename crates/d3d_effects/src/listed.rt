//! What is kept of the calls of an open list, and then of the list.

ghost use Rattle.std.specs.Prelude.{◌≡◌, ◌<◌, ◌-◌, ◌++◌, ◌∷◌, [], List, OnOk, drop, slice_index_or, take};
ghost use Rattle.call_log.specs.View.{call_view};
ghost use Rattle.d3d_effects.specs.Listed.{KeepsList, bindings_after, cut_at, parts_of_list};
ghost use Rattle.d3d_lists.specs.declared.recorder.TheConstants.{CONTEXTS};
ghost use Rattle.d3d_model.specs.Binding.{Bindings, default_bindings};
ghost use Rattle.d3d_model.specs.D3dState.{Numbered, Objects as State, bindings_of, calls_of_list};
ghost use Rattle.d3d_model.specs.Stream.{binds, deeds, deeds_of_list};
ghost use Rattle.d3d_state.specs.Meaning.{objects_of};
ghost use Rattle.d3d_uses.specs.Summary.{Records};

use crate::bound::push_bound;
use crate::played::{call_in, count_of};
use call_log::Call;
use d3d_model::codes::MAP_DISCARD;
use d3d_state::Objects;
use d3d_uses::Uses;
use dx_types::{CallNo, ResRange};
use std::alloc::{AllocError, Global};

/// What is kept of the calls of a list: what they did that is asked of them, by themselves, their numbers in the log, the ranges
/// that they bind, and where those of each call end.
#[derive(Drop)]
pub struct ListUses {
    pub uses: Uses,
    pub calls: Vec<CallNo>,
    pub ranges: Vec<ResRange>,
    pub ends: Vec<u32>,
}

impl ListUses {
    /// No call is recorded.
    pub fn new(alloc: Global) -> ListUses
        ensures { (o : State) → KeepsList o [] result }
    {
        ListUses {
            uses: Uses::new(alloc),
            calls: Vec::new(alloc),
            ranges: Vec::new(alloc),
            ends: Vec::new(alloc),
        }
    }

    /// Keeps call n, which the open list of a context records. After want of memory nothing is known of it.
    pub fn record(
        &mut self,
        objects: &Objects<'_>,
        n: CallNo,
        context: u16,
        call: &Call<'_>,
    ) -> Result<(), AllocError>
        requires { context < CONTEXTS }
        ensures { let o = objects_of objects.now in
            OnOk result ((cs : List Numbered) → KeepsList o cs self.old → bindings_of o context ≡ bindings_after o default_bindings cs
            → KeepsList o (cs ++ record { number = n; call = call_view call.now } ∷ []) self.new) }
    {
        let start = self.ranges.len();
        push_bound(&mut self.ranges, objects, context, call)?;
        keep_listed(&mut self.uses, 0, call, &self.ranges[start..])?;
        self.calls.push(n)?;
        push_len(&mut self.ends, self.ranges.len())
    }
}

// More ranges than 32 bits count are more than memory holds.
fn push_len(ends: &mut Vec<u32>, len: usize) -> Result<(), AllocError>
    ensures { OnOk result (ends.new.items ≡ ends.old.items ++ len ∷ []) }
{
    let Ok(end) = u32::try_from(len) else {
        return Err(AllocError);
    };
    ends.push(end)?;
    Ok(())
}

/// The ranges that the call of a list at a place, from 0, binds, by those of all calls and where those of each end; none past the
/// last call.
pub fn part<'a>(ranges: &'a [ResRange], ends: &[u32], item: usize) -> &'a [ResRange]
    ensures { result.now ≡ slice_index_or (cut_at 0 ranges.now ends.now) item [] }
{
    let start = if item == 0 { 0 } else { end_of(ends, item - 1) };
    between(ranges, start, end_of(ends, item))
}

// Where the ranges of a call end; 0 past the last call.
fn end_of(ends: &[u32], item: usize) -> usize
    ensures { result ≡ slice_index_or ends.now item 0 }
{
    if item < ends.len() {
        ends[item] as usize
    } else {
        0
    }
}

// The ranges from one place to just before another, as far as there are.
fn between(ranges: &[ResRange], start: usize, end: usize) -> &[ResRange]
    ensures { result.now ≡ take (end - start) (drop start ranges.now) }
{
    let end = end.min(ranges.len());
    let start = start.min(end);
    &ranges[start..end]
}

/// Keeps what the calls of a live list do that call n executes. `ranges` are those that they bind, and `ends` says where those of
/// each end. After want of memory nothing is known of what is kept.
pub fn keep_list(
    uses: &mut Uses,
    n: CallNo,
    objects: &Objects<'_>,
    list: u32,
    ranges: &[ResRange],
    ends: &[u32],
) -> Result<(), AllocError>
    ensures { let o = objects_of objects.now in
        let calls = calls_of_list o list in
        OnOk result (cut_at 0 ranges.now ends.now ≡ parts_of_list o calls → Records uses.old n (deeds_of_list o calls) uses.new) }
{
    'calls: for i in 0..count_of(objects, list) {
        let call = call_in(objects, list, i);
        keep_listed(uses, n, &call, part(ranges, ends, i))?;
    }
    Ok(())
}

/// Keeps what call n does of a list that it stands in or executes. `bound` are the ranges that it binds.
pub(crate) fn keep_listed(
    uses: &mut Uses,
    n: CallNo,
    call: &Call<'_>,
    bound: &[ResRange],
) -> Result<(), AllocError>
    ensures { OnOk result ((o : State) (b : Bindings) → bound.now ≡ binds o b (call_view call.now)
        → Records uses.old n (deeds o b (call_view call.now)) uses.new) }
{
    match *call {
        Call::MapWrite { res, mode, .. } => {
            if mode == MAP_DISCARD {
                uses.discarded(res)
            } else {
                uses.bound_all(n, bound)
            }
        }
        _ => uses.bound_all(n, bound),
    }
}
