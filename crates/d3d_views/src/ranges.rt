ghost use Rattle.std.specs.Prelude.{◌≡◌, ◌+◌, ◌^◌, ◌<◌, ◌++◌, OnOk};
ghost use Rattle.std.specs.List.{All, filter_map};
ghost use Rattle.std.specs.Option.{option_to_list};
ghost use Rattle.d3d_model.specs.Binding.{constant_range, bound_range, predicate_range};
ghost use Rattle.d3d_model.specs.View.{view_end, view_range};
ghost use Rattle.d3d_views.specs.Limits.{EndFits, WordFits};
ghost use Rattle.d3d_views.specs.Meaning.{meaning};

use crate::{BoundView, Predicate};
use dx_types::limits::MAX_CONSTANT_SIZE;
use dx_types::{ResRange, ViewShape};
use std::alloc::AllocError;

/// What a constant slot shows of a buffer, before it is cut to the buffer's size; nothing for id 0.
pub(crate) fn constant_range(res: u32) -> Option<ResRange>
    ensures { result ≡ constant_range res }
{
    if res == 0 {
        return None;
    }
    Some(ResRange {
        res,
        from: 0,
        to: MAX_CONSTANT_SIZE,
    })
}

/// The bytes of a view.
pub fn view_range(shape: &ViewShape) -> ResRange
    requires { view_end shape.now < 2 ^ 64 }
    ensures { result ≡ view_range shape.now }
{
    let unit = u64::from(shape.unit);
    let from = shape.first * unit;
    ResRange {
        res: shape.res,
        from,
        to: from + shape.count * unit,
    }
}

/// The ranges of the constant slots that are set, by rising slot.
pub(crate) fn push_constants(
    ranges: &mut Vec<ResRange>,
    slots: &[Option<ResRange>],
) -> Result<(), AllocError>
    ensures { OnOk result (ranges.new.items ≡ ranges.old.items ++ filter_map (λ slot. slot) slots.now) }
{
    for slot in slots {
        if let Some(range) = slot {
            ranges.push(*range)?;
        }
    }
    Ok(())
}

/// The ranges of the views that are set, by rising slot.
pub(crate) fn push_views(
    ranges: &mut Vec<ResRange>,
    slots: &[Option<BoundView>],
) -> Result<(), AllocError>
    requires { All EndFits slots.now }
    ensures { OnOk result (ranges.new.items ≡ ranges.old.items ++ filter_map bound_range slots.now) }
{
    for slot in slots {
        if let Some(v) = slot {
            ranges.push(view_range(&v.shape))?;
        }
    }
    Ok(())
}

/// The predicate's word, if it has one.
pub(crate) fn word_range(predicate: Predicate) -> Option<ResRange>
    requires { WordFits (meaning predicate) }
    ensures { option_to_list result ≡ predicate_range (meaning predicate) }
{
    match predicate {
        Predicate::Word { res, offset, .. } => Some(ResRange {
            res,
            from: offset,
            to: offset + 4,
        }),
        Predicate::Never | Predicate::Query { .. } => None,
    }
}

/// The predicate's word, if it has one.
pub(crate) fn push_word(ranges: &mut Vec<ResRange>, predicate: Predicate) -> Result<(), AllocError>
    requires { WordFits (meaning predicate) }
    ensures { OnOk result (ranges.new.items ≡ ranges.old.items ++ predicate_range (meaning predicate)) }
{
    if let Some(range) = word_range(predicate) {
        ranges.push(range)?;
    }
    Ok(())
}
