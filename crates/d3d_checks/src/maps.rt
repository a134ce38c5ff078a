ghost use Rattle.std.specs.Prelude.{◌≡◌, ◌&&◌, ◌||◌, not, nat_lt, ◌==◌, [], ◌∷◌, if◌then◌else◌};
ghost use Rattle.call_log.specs.Call as calls;
ghost use Rattle.d3d_checks.specs.Accepted.{Tells};
ghost use Rattle.d3d_checks.specs.Asked.{asked_past, refusal_of, refusal_on, write_checks};
ghost use Rattle.d3d_model.specs.declared.codes.TheConstants.{MAP_NO_OVERWRITE, MAP_WRITE};
ghost use Rattle.d3d_model.specs.Check.{first_failed};
ghost use Rattle.d3d_model.specs.Codes.{map_mode_number};
ghost use Rattle.d3d_model.specs.Past.{Past};
ghost use Rattle.d3d_model.specs.Resource.{is_dynamic, is_staging};
ghost use Rattle.d3d_model.specs.D3dState.{Objects as State};
ghost use Rattle.d3d_model.specs.Verdict.{in_use, no_overwrite_checks};
ghost use Rattle.d3d_state.specs.Meaning.{objects_of};
ghost use Rattle.d3d_uses.specs.Summary.{Summarises};

use crate::numbers::passes_end;
use d3d_model::MapMode;
use d3d_model::codes::DO_NOT_WAIT;
use d3d_state::Objects;
use d3d_uses::Uses;
use dx_types::{Refusal, ResRange, Shape, Usage};

/// Why a readback is refused.
pub(crate) fn map_read_refusal(
    objects: &Objects<'_>,
    res: u32,
    flag: u32,
    offset: u32,
    len: u32,
) -> Option<Refusal>
    ensures { (past : Past) → result ≡ refusal_of (objects_of objects.now) past (calls.MapRead res flag offset len) }
{
    let Some(shape) = objects.buffer(res) else {
        return Some(Refusal::UnknownId);
    };
    if !matches!(shape.usage, Usage::Staging) || flag > DO_NOT_WAIT {
        Some(Refusal::NotMappable)
    } else if len == 0 || passes_end(&shape, offset, u64::from(len)) {
        Some(Refusal::OutOfRange)
    } else {
        None
    }
}

/// Why a map that writes is refused.
pub(crate) fn map_write_refusal(
    objects: &Objects<'_>,
    uses: &Uses,
    context: u16,
    res: u32,
    mode: u32,
    offset: u32,
    bytes: &[u8],
) -> Option<Refusal>
    ensures { (past : Past) → Tells (asked_past past (objects_of objects.now) context) (objects_of objects.now) uses.now
        → result ≡ refusal_on (objects_of objects.now) past context (calls.MapWrite res mode offset bytes.now) }
{
    let Some(shape) = objects.buffer(res) else {
        return Some(Refusal::UnknownId);
    };
    number_refusal(uses, &shape, context, res, mode, offset, bytes)
}

/// Why a map that writes a buffer of this shape is refused, by the number of its mode.
fn number_refusal(
    uses: &Uses,
    shape: &Shape,
    context: u16,
    res: u32,
    mode: u32,
    offset: u32,
    bytes: &[u8],
) -> Option<Refusal>
    ensures { (past : Past) (o : State) → Summarises (asked_past past o context) uses.now res
        → result ≡ first_failed (write_checks shape.now o past context res mode offset bytes.now) }
{
    let Some(known) = MapMode::from_number(mode) else {
        return Some(Refusal::NotMappable);
    };
    mode_refusal(uses, shape, context, known, res, offset, bytes)
}

/// Why a map in this mode is refused of a buffer of this shape.
fn mode_refusal(
    uses: &Uses,
    shape: &Shape,
    context: u16,
    mode: MapMode,
    res: u32,
    offset: u32,
    bytes: &[u8],
) -> Option<Refusal>
    ensures { (past : Past) (o : State) → Summarises (asked_past past o context) uses.now res
        → result ≡ first_failed (write_checks shape.now o past context res (map_mode_number mode) offset bytes.now) }
{
    if is_not_mappable(shape, mode) {
        Some(Refusal::NotMappable)
    } else if is_wrong_here(mode, context) {
        Some(Refusal::WrongContext)
    } else if passes_end(shape, offset, bytes.len() as u64) {
        Some(Refusal::OutOfRange)
    } else {
        use_refusal(uses, context, mode, res, offset, bytes)
    }
}

/// Why a map in this mode is refused for what is in use, and on a deferred context for want of a discard in its open list.
fn use_refusal(
    uses: &Uses,
    context: u16,
    mode: MapMode,
    res: u32,
    offset: u32,
    bytes: &[u8],
) -> Option<Refusal>
    ensures { (past : Past) (o : State) → Summarises (asked_past past o context) uses.now res
        → result ≡ first_failed (if map_mode_number mode == MAP_NO_OVERWRITE then no_overwrite_checks o past context res offset bytes.now else []) }
{
    match mode {
        MapMode::Discard | MapMode::Write => None,
        MapMode::NoOverwrite => overwrite_refusal(uses, context, res, offset, bytes),
    }
}

/// Why bytes are not written over those that are not in use: on a deferred context the list has to discard the buffer first.
fn overwrite_refusal(
    uses: &Uses,
    context: u16,
    res: u32,
    offset: u32,
    bytes: &[u8],
) -> Option<Refusal>
    ensures { (past : Past) (o : State) → Summarises (asked_past past o context) uses.now res
        → result ≡ first_failed (no_overwrite_checks o past context res offset bytes.now) }
{
    if context == 0 {
        return in_use_refusal(uses, res, offset, bytes);
    }
    if uses.was_discarded(res) {
        return in_use_refusal(uses, res, offset, bytes);
    }
    Some(Refusal::FirstMapNotDiscard)
}

/// Why bytes are not written that are in use.
fn in_use_refusal(uses: &Uses, res: u32, offset: u32, bytes: &[u8]) -> Option<Refusal>
    ensures { (past : Past) → Summarises past uses.now res
        → result ≡ first_failed ((in_use past res offset bytes.now, Refusal.InUse) ∷ []) }
{
    if is_in_use(uses, res, offset, bytes) {
        Some(Refusal::InUse)
    } else {
        None
    }
}

/// Whether a map in this mode may not stand on a context: a staging buffer is written on the immediate one alone.
fn is_wrong_here(mode: MapMode, context: u16) -> bool
    ensures { result ≡ ((map_mode_number mode == MAP_WRITE) && not (context == 0)) }
{
    match mode {
        MapMode::Discard | MapMode::NoOverwrite => false,
        MapMode::Write => context != 0,
    }
}

/// Whether the written bytes meet one that is bound.
fn is_in_use(uses: &Uses, res: u32, offset: u32, bytes: &[u8]) -> bool
    ensures { (past : Past) → Summarises past uses.now res → result ≡ in_use past res offset bytes.now }
{
    let from = u64::from(offset);
    let to = from + bytes.len() as u64;
    uses.is_bound(&ResRange { res, from, to })
}

/// Whether the buffer may not be mapped for writes in this mode.
fn is_not_mappable(shape: &Shape, mode: MapMode) -> bool
    ensures { result ≡ (nat_lt MAP_WRITE (map_mode_number mode)
        || (nat_lt (map_mode_number mode) MAP_WRITE && not (is_dynamic shape.now.usage))
        || ((map_mode_number mode == MAP_WRITE) && not (is_staging shape.now.usage))) }
{
    match mode {
        MapMode::Discard | MapMode::NoOverwrite => !matches!(shape.usage, Usage::Dynamic),
        MapMode::Write => !matches!(shape.usage, Usage::Staging),
    }
}
