ghost use Rattle.std.specs.Prelude.{◌≡◌, ℕ, ◌==◌, ◌&&◌, ◌∷◌, [], not};
ghost use Rattle.call_log.specs.Call as calls;
ghost use Rattle.d3d_checks.specs.Asked.{refusal_of};
ghost use Rattle.d3d_model.specs.Check.{first_failed};
ghost use Rattle.d3d_model.specs.Past.{Past};
ghost use Rattle.d3d_model.specs.declared.codes.TheConstants.{QUERY_PREDICATE, WORD_PREDICATE};
ghost use Rattle.d3d_model.specs.Verdict.{predicate_checks};
ghost use Rattle.d3d_state.specs.Meaning.{objects_of};

use crate::numbers::passes_end;
use d3d_model::PredicateKind;
use d3d_resources::has_bit;
use d3d_state::Objects;
use dx_types::Refusal;
use dx_types::limits::{CONSTANT_BUFFER, CONSTANT_SLOTS, INDIRECT_ARGUMENTS, SRV_SLOTS, UAV_SLOTS};

/// The bytes of a predicate's word.
const WORD_BYTES: u64 = 4;

/// Why a buffer is not set in a constant slot.
pub(crate) fn constant_refusal(objects: &Objects<'_>, slot: u32, res: u32) -> Option<Refusal>
    ensures { (past : Past) → result ≡ refusal_of (objects_of objects.now) past (calls.SetConstant slot res) }
{
    if slot as usize >= CONSTANT_SLOTS {
        return Some(Refusal::OutOfRange);
    }
    if res == 0 {
        return None;
    }
    match objects.buffer(res) {
        None => Some(Refusal::UnknownId),
        Some(shape) if !has_bit(shape.bind, CONSTANT_BUFFER) => Some(Refusal::BadBind),
        Some(_) => None,
    }
}

/// Why a view is not set in a shader resource slot.
pub(crate) fn srv_refusal(objects: &Objects<'_>, slot: u32, view: u32) -> Option<Refusal>
    ensures { (past : Past) → result ≡ refusal_of (objects_of objects.now) past (calls.SetSrv slot view) }
{
    if slot as usize >= SRV_SLOTS {
        return Some(Refusal::OutOfRange);
    }
    if view == 0 {
        return None;
    }
    match objects.view(view) {
        None => Some(Refusal::UnknownId),
        Some(shape) if shape.writable => Some(Refusal::BadBind),
        Some(_) => None,
    }
}

/// Why a view is not set in an unordered access slot.
pub(crate) fn uav_refusal(objects: &Objects<'_>, slot: u32, view: u32) -> Option<Refusal>
    ensures { (past : Past) → result ≡ refusal_of (objects_of objects.now) past (calls.SetUav slot view) }
{
    if slot as usize >= UAV_SLOTS {
        return Some(Refusal::OutOfRange);
    }
    if view == 0 {
        return None;
    }
    match objects.view(view) {
        None => Some(Refusal::UnknownId),
        Some(shape) if !shape.writable => Some(Refusal::BadBind),
        Some(_) => None,
    }
}

/// Why a predicate is not set.
pub(crate) fn predication_refusal(
    objects: &Objects<'_>,
    kind: u32,
    id: u32,
    offset: u32,
    value: u32,
) -> Option<Refusal>
    ensures { (past : Past) → result ≡ refusal_of (objects_of objects.now) past (calls.SetPredication kind id offset value) }
{
    let Some(kind) = PredicateKind::from_number(kind) else {
        return Some(Refusal::BadUsage);
    };
    if value > 1 {
        return Some(Refusal::OutOfRange);
    }
    match kind {
        PredicateKind::Never => never_refusal(id, offset, value),
        PredicateKind::Query => query_refusal(objects, id, offset),
        PredicateKind::Word => word_refusal(objects, id, offset),
    }
}

/// Why no predicate is not set: it names nothing.
fn never_refusal(id: u32, offset: u32, value: u32) -> Option<Refusal>
    ensures { result ≡ first_failed ((not ((id == 0) && (offset == 0) && (value == 0)), Refusal.OutOfRange) ∷ []) }
{
    if id == 0 && offset == 0 && value == 0 {
        None
    } else {
        Some(Refusal::OutOfRange)
    }
}

/// Why a query is no predicate.
fn query_refusal(objects: &Objects<'_>, id: u32, offset: u32) -> Option<Refusal>
    ensures { result ≡ first_failed (predicate_checks (objects_of objects.now) QUERY_PREDICATE id offset) }
{
    let Some(query) = objects.query(id) else {
        return Some(Refusal::UnknownId);
    };
    if !(query.is_predicate() && query.has_result()) {
        Some(Refusal::QueryState)
    } else if offset != 0 {
        Some(Refusal::OutOfRange)
    } else {
        None
    }
}

/// Why a word of a buffer is no predicate.
fn word_refusal(objects: &Objects<'_>, res: u32, offset: u32) -> Option<Refusal>
    ensures { result ≡ first_failed (predicate_checks (objects_of objects.now) WORD_PREDICATE res offset) }
{
    let Some(shape) = objects.buffer(res) else {
        return Some(Refusal::UnknownId);
    };
    if !has_bit(shape.misc, INDIRECT_ARGUMENTS) {
        Some(Refusal::BadBind)
    } else if offset % 4 != 0 || passes_end(&shape, offset, WORD_BYTES) {
        Some(Refusal::OutOfRange)
    } else {
        None
    }
}
