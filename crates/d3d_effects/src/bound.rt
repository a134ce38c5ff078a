ghost use Rattle.std.specs.Prelude.{◌≡◌, ◌+◌, ◌++◌, ◌<◌, ◌^◌, length, OnOk};
ghost use Rattle.std.specs.Option.{option_to_list};
ghost use Rattle.call_log.specs.View.{call_view};
ghost use Rattle.d3d_lists.specs.declared.recorder.TheConstants.{CONTEXTS};
ghost use Rattle.d3d_model.specs.Binding.{bound_range};
ghost use Rattle.d3d_model.specs.D3dState.{bindings_of, bound_view};
ghost use Rattle.d3d_model.specs.Stream.{binds, predicated, range_of, whole_of};
ghost use Rattle.d3d_state.specs.Meaning.{objects_of};

use crate::dispatches::push_dispatch;
use call_log::Call;
use d3d_model::codes::{COUNT_BYTES, MAP_WRITE};
use d3d_state::Objects;
use d3d_views::{Bindings, view_range};
use dx_types::ResRange;
use std::alloc::AllocError;

/// Appends the ranges that a call binds on a context. An ExecuteList binds nothing by itself: its list's calls do.
pub fn push_bound(
    ranges: &mut Vec<ResRange>,
    objects: &Objects<'_>,
    context: u16,
    call: &Call<'_>,
) -> Result<(), AllocError>
    requires { context < CONTEXTS }
    ensures { let o = objects_of objects.now in
        OnOk result (ranges.new.items ≡ ranges.old.items ++ binds o (bindings_of o context) (call_view call.now)) }
{
    let bindings = objects.bindings(context);
    match *call {
        Call::Dispatch { .. } => push_dispatch(ranges, objects, bindings),
        Call::DispatchIndirect { res, offset } => {
            push_some(ranges, range_of(res, u64::from(offset), COUNT_BYTES))?;
            push_dispatch(ranges, objects, bindings)
        }
        Call::CopyRegion {
            target,
            target_offset,
            source,
            source_offset,
            length,
        } => {
            let from = range_of(source, u64::from(source_offset), u64::from(length));
            let to = range_of(target, u64::from(target_offset), u64::from(length));
            push_predicated(ranges, bindings, from, to)
        }
        Call::Copy { target, source } => {
            let from = whole_of(objects, source);
            let to = whole_of(objects, target);
            push_predicated(ranges, bindings, from, to)
        }
        Call::Update { res, offset, bytes } => {
            push_predicated(ranges, bindings, range_written(res, offset, bytes), None)
        }
        Call::ClearUav { view, .. } => {
            let written = range_of_view(objects, view);
            push_predicated(ranges, bindings, written, None)
        }
        Call::MapWrite {
            res,
            mode,
            offset,
            bytes,
        } => {
            if mode != MAP_WRITE {
                return Ok(());
            }
            push_some(ranges, range_written(res, offset, bytes))
        }
        _ => Ok(()),
    }
}

/// Some bytes of a buffer from a place on; none where there are 0.
fn range_of(res: u32, from: u64, len: u64) -> Option<ResRange>
    requires { from + len < 2 ^ 64 }
    ensures { option_to_list result ≡ range_of res from len }
{
    if len == 0 {
        return None;
    }
    Some(ResRange {
        res,
        from,
        to: from + len,
    })
}

/// The bytes of a buffer that these are written to, from an offset on.
fn range_written(res: u32, offset: u32, bytes: &[u8]) -> Option<ResRange>
    ensures { option_to_list result ≡ range_of res offset (length bytes.now) }
{
    range_of(res, u64::from(offset), bytes.len() as u64)
}

/// All bytes of a live buffer.
fn whole_of(objects: &Objects<'_>, res: u32) -> Option<ResRange>
    ensures { option_to_list result ≡ whole_of (objects_of objects.now) res }
{
    let shape = objects.buffer(res)?;
    range_of(res, 0, shape.size)
}

/// The bytes of a live view.
fn range_of_view(objects: &Objects<'_>, view: u32) -> Option<ResRange>
    ensures { result ≡ bound_range (bound_view (objects_of objects.now) view) }
{
    let bound = objects.bound_view(view)?;
    Some(view_range(&bound.shape))
}

/// Appends a range, if there is one.
pub(crate) fn push_some(
    ranges: &mut Vec<ResRange>,
    range: Option<ResRange>,
) -> Result<(), AllocError>
    ensures { OnOk result (ranges.new.items ≡ ranges.old.items ++ option_to_list range) }
{
    if let Some(range) = range {
        ranges.push(range)?;
    }
    Ok(())
}

/// Appends two ranges, as far as they have bytes; and if one has, the word that the predicate reads.
fn push_predicated(
    ranges: &mut Vec<ResRange>,
    bindings: &Bindings,
    one: Option<ResRange>,
    two: Option<ResRange>,
) -> Result<(), AllocError>
    ensures { OnOk result (ranges.new.items ≡ ranges.old.items
        ++ predicated bindings.now (option_to_list one ++ option_to_list two)) }
{
    push_some(ranges, one)?;
    push_some(ranges, two)?;
    if one.is_some() || two.is_some() {
        push_some(ranges, bindings.predicate_word())?;
    }
    Ok(())
}
