ghost use Rattle.std.specs.Prelude.{◌≡◌, ◌<◌, length, IfOk, OnOk};
ghost use Rattle.shader_slots.specs.Bound.{with_write};
ghost use Rattle.d3d_state.specs.Meaning.{objects_of};
ghost use Rattle.d3d_memory.specs.Limits.{InLimits};
ghost use Rattle.d3d_memory.specs.Shown.{constant_words, part_one, srv_words, uav_around, uav_words, with_constants, with_reads, with_writes};
ghost use Rattle.dx_types.specs.declared.limits.TheConstants.{CONSTANT_SLOTS, SRV_SLOTS, UAV_SLOTS};

use crate::Memory;
use crate::shown::{constant_shown, shown_part, srv_shown, uav_shown};
use d3d_state::Objects;
use d3d_views::Bindings;
use dx_types::ResRange;
use shader_model::Declared;
use shader_slots::{Slots, Whole};
use std::alloc::AllocError;

/// Binds what the constant slots show to a shader with these declarations.
pub(crate) fn bind_constants<'a>(
    slots: &mut Slots<'a>,
    memory: &'a Memory,
    objects: &Objects<'_>,
    bindings: &Bindings,
    declared: &[Declared],
)
    requires limit { InLimits memory.now }
    requires slots { length slots.old.words.constants ≡ CONSTANT_SLOTS }
    ensures { slots.new ≡ with_constants (constant_words (objects_of objects.now) memory.now bindings.now declared.now) slots.old }
{
    bindings.has_all_slots();
    'slots: for slot in 0..14 {
        let part = shown_part(memory, constant_shown(objects, bindings, declared, slot));
        slots.bind_constant(slot, part);
    }
}

/// Binds what the shader resource slots show to a shader with these declarations.
pub(crate) fn bind_reads<'a>(
    slots: &mut Slots<'a>,
    memory: &'a Memory,
    bindings: &Bindings,
    declared: &[Declared],
)
    requires limit { InLimits memory.now }
    requires slots { length slots.old.words.reads ≡ SRV_SLOTS }
    ensures { slots.new ≡ with_reads (srv_words memory.now bindings.now declared.now) slots.old }
{
    bindings.has_all_slots();
    'slots: for slot in 0..16 {
        let part = shown_part(memory, srv_shown(bindings, declared, slot));
        slots.bind_read(slot, part);
    }
}

/// A copy of what a slot shows, to be written.
fn part_copy(memory: &Memory, shown: Option<ResRange>) -> Result<Option<Whole>, AllocError>
    requires { InLimits memory.now }
    ensures { IfOk result (λ part. part ≡ part_one memory.now shown) }
{
    if shown.is_none() {
        return Ok(None);
    }
    let bytes = shown_part(memory, shown).to_vec(memory.alloc())?;
    let len = bytes.len();
    Ok(Some(Whole::new(bytes, 0, len)))
}

/// Binds a part, or empties the slot.
fn put(slots: &mut Slots<'_>, slot: usize, part: Option<Whole>)
    requires { slot < UAV_SLOTS }
    ensures { slots.new ≡ with_write slot part slots.old }
{
    match part {
        Some(part) => slots.bind_write(slot, part),
        None => {
            let _ = slots.take_write(slot);
        }
    }
}

/// Binds copies of what the unordered access slots show to a shader with these declarations.
pub(crate) fn bind_writes(
    slots: &mut Slots<'_>,
    memory: &Memory,
    bindings: &Bindings,
    declared: &[Declared],
) -> Result<(), AllocError>
    requires limit { InLimits memory.now }
    requires slots { length slots.old.words.writes ≡ UAV_SLOTS }
    requires parts { length slots.old.around ≡ UAV_SLOTS }
    ensures { let b = bindings.now in
        OnOk result (slots.new ≡ with_writes (uav_words memory.now b declared.now) (uav_around b declared.now) slots.old) }
{
    bindings.has_all_slots();
    'slots: for slot in 0..8 {
        let part = part_copy(memory, uav_shown(bindings, declared, slot))?;
        put(slots, slot, part);
    }
    Ok(())
}
