ghost use Rattle.std.specs.Prelude.{◌≡◌, ℕ, ◌||◌};
ghost use Rattle.call_log.specs.Call as calls;
ghost use Rattle.d3d_checks.specs.Asked.{refusal_of};
ghost use Rattle.d3d_model.specs.Past.{Past};
ghost use Rattle.d3d_model.specs.Resource.{is_dynamic, is_immutable};
ghost use Rattle.d3d_state.specs.Meaning.{objects_of};

use crate::numbers::passes_end;
use d3d_state::Objects;
use dx_types::{Refusal, Shape, Usage};

/// Whether no copy may write the buffer.
fn is_no_target(shape: &Shape) -> bool
    ensures { result ≡ (is_immutable shape.now.usage || is_dynamic shape.now.usage) }
{
    matches!(shape.usage, Usage::Immutable | Usage::Dynamic)
}

/// Why a copy of part of a buffer is refused.
pub(crate) fn copy_region_refusal(
    objects: &Objects<'_>,
    target: u32,
    target_offset: u32,
    source: u32,
    source_offset: u32,
    len: u32,
) -> Option<Refusal>
    ensures { (past : Past)
        → result ≡ refusal_of (objects_of objects.now) past (calls.CopyRegion target target_offset source source_offset len) }
{
    let Some(to) = objects.buffer(target) else {
        return Some(Refusal::UnknownId);
    };
    let Some(from) = objects.buffer(source) else {
        return Some(Refusal::UnknownId);
    };
    let len = u64::from(len);
    if is_no_target(&to) {
        Some(Refusal::BadUsage)
    } else if target == source {
        Some(Refusal::SameSubresource)
    } else if passes_end(&to, target_offset, len) || passes_end(&from, source_offset, len) {
        Some(Refusal::OutOfRange)
    } else {
        None
    }
}

/// Why a copy of a whole buffer is refused.
pub(crate) fn copy_refusal(objects: &Objects<'_>, target: u32, source: u32) -> Option<Refusal>
    ensures { (past : Past) → result ≡ refusal_of (objects_of objects.now) past (calls.Copy target source) }
{
    let Some(to) = objects.buffer(target) else {
        return Some(Refusal::UnknownId);
    };
    let Some(from) = objects.buffer(source) else {
        return Some(Refusal::UnknownId);
    };
    if is_no_target(&to) {
        Some(Refusal::BadUsage)
    } else if target == source {
        Some(Refusal::SameSubresource)
    } else if to.size != from.size {
        Some(Refusal::BadSize)
    } else {
        None
    }
}

/// Why an update of a buffer is refused.
pub(crate) fn update_refusal(
    objects: &Objects<'_>,
    res: u32,
    offset: u32,
    bytes: &[u8],
) -> Option<Refusal>
    ensures { (past : Past) → result ≡ refusal_of (objects_of objects.now) past (calls.Update res offset bytes.now) }
{
    let Some(shape) = objects.buffer(res) else {
        return Some(Refusal::UnknownId);
    };
    if !matches!(shape.usage, Usage::Default) {
        Some(Refusal::BadUsage)
    } else if passes_end(&shape, offset, bytes.len() as u64) {
        Some(Refusal::OutOfRange)
    } else {
        None
    }
}

/// Why a clear of a view is refused.
pub(crate) fn clear_refusal(objects: &Objects<'_>, view: u32) -> Option<Refusal>
    ensures { (past : Past) (v0 v1 v2 v3 : ℕ)
        → result ≡ refusal_of (objects_of objects.now) past (calls.ClearUav view v0 v1 v2 v3) }
{
    match objects.view(view) {
        None => Some(Refusal::UnknownId),
        Some(shape) if !shape.writable => Some(Refusal::BadBind),
        Some(_) => None,
    }
}
