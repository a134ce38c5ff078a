ghost use Rattle.std.specs.Prelude.{◌≡◌, None, if◌then◌else◌};
ghost use Rattle.std.specs.List.{All, list_any};
ghost use Rattle.d3d_model.specs.Binding.{is_beside, is_constant_of, is_view, is_view_of, without};
ghost use Rattle.d3d_views.specs.Limits.{EndFits};

use crate::BoundView;
use dx_types::ResRange;

/// Whether the slot holds a view of this buffer.
pub(crate) fn is_view_of(slot: &Option<BoundView>, res: u32) -> bool
    ensures { result ≡ is_view_of res slot.now }
{
    match slot {
        Some(v) => v.shape.res == res,
        None => false,
    }
}

/// Whether the slot holds the view of this id.
pub(crate) fn is_view(slot: &Option<BoundView>, view: u32) -> bool
    ensures { result ≡ is_view view slot.now }
{
    match slot {
        Some(v) => v.view == view,
        None => false,
    }
}

/// Whether the slot holds a view of the same buffer as this one.
pub(crate) fn is_beside(slot: &Option<BoundView>, v: &Option<BoundView>) -> bool
    ensures { result ≡ is_beside v.now slot.now }
{
    match v {
        Some(v) => is_view_of(slot, v.shape.res),
        None => false,
    }
}

pub(crate) fn any_beside(slots: &[Option<BoundView>], v: &Option<BoundView>) -> bool
    ensures { result ≡ list_any (is_beside v.now) slots.now }
{
    slots.iter().any(|slot| is_beside(slot, v))
}

pub(crate) fn any_view_of(slots: &[Option<BoundView>], res: u32) -> bool
    ensures { result ≡ list_any (is_view_of res) slots.now }
{
    slots.iter().any(|slot| is_view_of(slot, res))
}

pub(crate) fn any_view(slots: &[Option<BoundView>], view: u32) -> bool
    ensures { result ≡ list_any (is_view view) slots.now }
{
    slots.iter().any(|slot| is_view(slot, view))
}

pub(crate) fn any_constant_of(slots: &[Option<ResRange>], res: u32) -> bool
    ensures { result ≡ list_any (is_constant_of res) slots.now }
{
    slots.iter().any(|slot| match slot {
        Some(range) => range.res == res,
        None => false,
    })
}

/// What a slot holds without the views of the buffer of this one.
fn unless_beside(slot: Option<BoundView>, v: &Option<BoundView>) -> Option<BoundView>
    ensures { result ≡ (if is_beside v.now slot then None else slot) }
{
    if is_beside(&slot, v) { None } else { slot }
}

/// Empties each slot that holds a view of the same buffer as this one.
pub(crate) fn empty_beside(slots: &mut [Option<BoundView>], v: &Option<BoundView>)
    ensures after { slots.new ≡ without v.now slots.old }
    ensures end { All EndFits slots.old → All EndFits slots.new }
{
    for slot in slots {
        *slot = unless_beside(*slot, v);
    }
}
