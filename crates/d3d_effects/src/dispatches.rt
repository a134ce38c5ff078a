ghost use Rattle.std.specs.Prelude.{◌≡◌, ◌<◌, ◌++◌, None, OnOk, map, slice_index_or};
ghost use Rattle.std.specs.List.{filter_map};
ghost use Rattle.std.specs.Option.{option_map};
ghost use Rattle.d3d_model.specs.Binding.{bound_range, constant_ranges};
ghost use Rattle.d3d_model.specs.Stream.{cut, dispatch_ranges};
ghost use Rattle.d3d_state.specs.Meaning.{objects_of};
ghost use Rattle.dx_types.specs.declared.limits.TheConstants.{CONSTANT_SLOTS, SRV_SLOTS, UAV_SLOTS};

use crate::bound::push_some;
use d3d_state::Objects;
use d3d_views::{Bindings, view_range};
use dx_types::ResRange;
use dx_types::limits::{CONSTANT_SLOTS, SRV_SLOTS, UAV_SLOTS};
use std::alloc::AllocError;

/// What a constant slot, from 0 to 13, binds: no more than its buffer has.
fn constant_bound(objects: &Objects<'_>, bindings: &Bindings, slot: usize) -> Option<ResRange>
    requires { slot < CONSTANT_SLOTS }
    ensures { result ≡ option_map (cut (objects_of objects.now)) (slice_index_or bindings.now.constants slot None) }
{
    let range = bindings.constant(slot)?;
    let size = match objects.buffer(range.res) {
        Some(shape) => shape.size,
        None => 0,
    };
    Some(ResRange {
        to: range.to.min(size),
        ..range
    })
}

/// What a shader resource slot, from 0 to 15, binds.
fn srv_bound(bindings: &Bindings, slot: usize) -> Option<ResRange>
    requires { slot < SRV_SLOTS }
    ensures { result ≡ bound_range (slice_index_or bindings.now.srvs slot None) }
{
    let bound = bindings.srv(slot)?;
    Some(view_range(&bound.shape))
}

/// What an unordered access slot, from 0 to 7, binds.
fn uav_bound(bindings: &Bindings, slot: usize) -> Option<ResRange>
    requires { slot < UAV_SLOTS }
    ensures { result ≡ bound_range (slice_index_or bindings.now.uavs slot None) }
{
    let bound = bindings.uav(slot)?;
    Some(view_range(&bound.shape))
}

/// Appends what the constant slots bind, by rising slot.
fn push_constants(
    ranges: &mut Vec<ResRange>,
    objects: &Objects<'_>,
    bindings: &Bindings,
) -> Result<(), AllocError>
    ensures { let o = objects_of objects.now in
        OnOk result (ranges.new.items ≡ ranges.old.items ++ map (cut o) (constant_ranges bindings.now)) }
{
    bindings.has_all_slots();
    'slots: for slot in 0..CONSTANT_SLOTS {
        push_some(ranges, constant_bound(objects, bindings, slot))?;
    }
    Ok(())
}

/// Appends what the shader resource slots bind, by rising slot.
fn push_srvs(ranges: &mut Vec<ResRange>, bindings: &Bindings) -> Result<(), AllocError>
    ensures { OnOk result (ranges.new.items ≡ ranges.old.items ++ filter_map bound_range bindings.now.srvs) }
{
    bindings.has_all_slots();
    'slots: for slot in 0..SRV_SLOTS {
        push_some(ranges, srv_bound(bindings, slot))?;
    }
    Ok(())
}

/// Appends what the unordered access slots bind, by rising slot.
fn push_uavs(ranges: &mut Vec<ResRange>, bindings: &Bindings) -> Result<(), AllocError>
    ensures { OnOk result (ranges.new.items ≡ ranges.old.items ++ filter_map bound_range bindings.now.uavs) }
{
    bindings.has_all_slots();
    'slots: for slot in 0..UAV_SLOTS {
        push_some(ranges, uav_bound(bindings, slot))?;
    }
    Ok(())
}

/// Appends the ranges that a dispatch binds where these bindings are set: of the constants, the shader resources and the
/// unordered access views, and then the predicate's word.
pub(crate) fn push_dispatch(
    ranges: &mut Vec<ResRange>,
    objects: &Objects<'_>,
    bindings: &Bindings,
) -> Result<(), AllocError>
    ensures { let o = objects_of objects.now in
        OnOk result (ranges.new.items ≡ ranges.old.items ++ dispatch_ranges o bindings.now) }
{
    push_constants(ranges, objects, bindings)?;
    push_srvs(ranges, bindings)?;
    push_uavs(ranges, bindings)?;
    push_some(ranges, bindings.predicate_word())
}
