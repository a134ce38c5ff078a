// The words of slots by the bindings of a module.

ghost use Rattle.std.specs.Prelude.{◌≡◌, ◌≤◌, length, slice_index, IsTrue};
ghost use Rattle.spirv_model.specs.Meaning.Bindings as model;
ghost use Rattle.dx_types.specs.declared.limits.TheConstants.{MAX_BUFFER_WORDS};

use dx_types::limits::{FIRST_SRV_BINDING, FIRST_UAV_BINDING, MODULE_BINDINGS};
use shader_slots::Slots;

/// Only an unordered access view can be written.
pub fn is_writable(binding: u32) -> bool
    ensures { result ≡ model.is_writable binding }
{
    FIRST_UAV_BINDING <= binding && binding < MODULE_BINDINGS
}

/// How many words a binding's slot has.
pub fn len_at(slots: &Slots<'_>, binding: u32) -> usize
    ensures count { result ≡ length (model.words_at slots.now.words binding) }
    ensures limit { result ≤ MAX_BUFFER_WORDS }
{
    if binding < FIRST_SRV_BINDING {
        slots.constant_len(binding as usize)
    } else if binding < FIRST_UAV_BINDING {
        slots.read_len((binding - FIRST_SRV_BINDING) as usize)
    } else if binding < MODULE_BINDINGS {
        slots.write_len((binding - FIRST_UAV_BINDING) as usize)
    } else {
        0
    }
}

/// A word of a binding's slot, 0 behind its end.
pub fn word_at(slots: &Slots<'_>, binding: u32, place: u32) -> u32
    ensures { result ≡ slice_index (model.words_at slots.now.words binding) place }
{
    let place = place as usize;
    if place >= len_at(slots, binding) {
        0
    } else if binding < FIRST_SRV_BINDING {
        slots.constant_word(binding as usize, place)
    } else if binding < FIRST_UAV_BINDING {
        slots.read_word((binding - FIRST_SRV_BINDING) as usize, place)
    } else if binding < MODULE_BINDINGS {
        slots.write_word((binding - FIRST_UAV_BINDING) as usize, place)
    } else {
        0
    }
}

/// Sets a word of a binding's slot; behind its end there is none to set.
pub fn set_word(slots: &mut Slots<'_>, binding: u32, place: u32, value: u32)
    requires { IsTrue (model.is_writable binding) }
    ensures words { slots.new.words ≡ model.with_word binding place value slots.old.words }
    ensures around { slots.new.around ≡ slots.old.around }
{
    let slot = (binding - FIRST_UAV_BINDING) as usize;
    let place = place as usize;
    if place < slots.write_len(slot) {
        slots.set_word(slot, place, value);
    }
}
