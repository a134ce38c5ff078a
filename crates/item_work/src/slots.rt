ghost use Rattle.std.specs.Prelude.{◌≡◌, ◌++◌, OnOk, IfOk};
ghost use Rattle.d3d_model.specs.Memory.{constants_shown, srvs_shown, uavs_shown};
ghost use Rattle.d3d_state.specs.Meaning.{objects_of};
ghost use Rattle.vk_types.specs.declared.command.SlotName.TheVariants as slot_name;
ghost use Rattle.item_work.specs.Slots.{slot_if, slots_on, slots_seen};

use crate::shown::{constant_shown, srv_shown, uav_shown};
use crate::{BufferBlocks, range_on};
use d3d_state::Objects;
use d3d_views::Bindings;
use dx_types::ResRange;
use dx_types::limits::{CONSTANT_SLOTS, SRV_SLOTS, UAV_SLOTS};
use shader_model::Declared;
use std::alloc::{AllocError, Global};
use vk_types::{SlotName, SlotRange};

/// Appends a slot with its range in a block, if it shows one.
fn push_slot(
    parts: &mut Vec<SlotRange>,
    blocks: &BufferBlocks,
    slot: SlotName,
    shown: Option<ResRange>,
) -> Result<(), AllocError>
    ensures { OnOk result (parts.new.items ≡ parts.old.items ++ slot_if blocks.now slot shown) }
{
    if let Some(r) = shown {
        parts.push(SlotRange {
            slot,
            range: range_on(blocks, &r),
        })?;
    }
    Ok(())
}

/// Appends the constant slots that show something, by rising slot.
fn push_constants(
    parts: &mut Vec<SlotRange>,
    blocks: &BufferBlocks,
    objects: &Objects,
    set: &Bindings,
    declared: &[Declared],
) -> Result<(), AllocError>
    ensures { OnOk result (parts.new.items ≡ parts.old.items
        ++ slots_on blocks.now slot_name.Constant 0 (constants_shown (objects_of objects.now) set.now declared.now)) }
{
    set.has_all_slots();
    'slots: for slot in 0..CONSTANT_SLOTS {
        let shown = constant_shown(objects, set, declared, slot);
        push_slot(parts, blocks, SlotName::Constant(slot as u8), shown)?;
    }
    Ok(())
}

/// Appends the shader resource slots that show something, by rising slot.
fn push_srvs(
    parts: &mut Vec<SlotRange>,
    blocks: &BufferBlocks,
    set: &Bindings,
    declared: &[Declared],
) -> Result<(), AllocError>
    ensures { OnOk result (parts.new.items ≡ parts.old.items
        ++ slots_on blocks.now slot_name.Srv 0 (srvs_shown set.now declared.now)) }
{
    set.has_all_slots();
    'slots: for slot in 0..SRV_SLOTS {
        let shown = srv_shown(set, declared, slot);
        push_slot(parts, blocks, SlotName::Srv(slot as u8), shown)?;
    }
    Ok(())
}

/// Appends the unordered access slots that show something, by rising slot.
fn push_uavs(
    parts: &mut Vec<SlotRange>,
    blocks: &BufferBlocks,
    set: &Bindings,
    declared: &[Declared],
) -> Result<(), AllocError>
    ensures { OnOk result (parts.new.items ≡ parts.old.items
        ++ slots_on blocks.now slot_name.Uav 0 (uavs_shown set.now declared.now)) }
{
    set.has_all_slots();
    'slots: for slot in 0..UAV_SLOTS {
        let shown = uav_shown(set, declared, slot);
        push_slot(parts, blocks, SlotName::Uav(slot as u8), shown)?;
    }
    Ok(())
}

/// The slots that a shader with these declarations sees: constants, shader resources, unordered access views.
pub(crate) fn slots_seen(
    alloc: Global,
    blocks: &BufferBlocks,
    objects: &Objects,
    set: &Bindings,
    declared: &[Declared],
) -> Result<Vec<SlotRange>, AllocError>
    ensures { IfOk result (λ parts. parts.items ≡ slots_seen blocks.now (objects_of objects.now) set.now declared.now) }
{
    let mut parts = Vec::new(alloc);
    push_constants(&mut parts, blocks, objects, set, declared)?;
    push_srvs(&mut parts, blocks, set, declared)?;
    push_uavs(&mut parts, blocks, set, declared)?;
    Ok(parts)
}
