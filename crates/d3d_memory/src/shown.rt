ghost use Rattle.std.specs.Prelude.{◌≡◌, ◌+◌, ◌%◌, ◌<◌, ◌≤◌, length, slice_index_or, None};
ghost use Rattle.std.specs.List.{find};
ghost use Rattle.base_lemmas.specs.ByteWords.{words_of};
ghost use Rattle.d3d_model.specs.Memory.{constant_shown, constants_shown, is_declared, read, srvs_shown, uavs_shown, view_shown};
ghost use Rattle.d3d_model.specs.Regions.{slice, words_of as bytes_as_words};
ghost use Rattle.d3d_model.specs.Shader.{declared_unit, fits_slot};
ghost use Rattle.d3d_state.specs.Meaning.{objects_of};
ghost use Rattle.d3d_views.specs.Limits.{EndFits};
ghost use Rattle.d3d_memory.specs.Limits.{InLimits};
ghost use Rattle.d3d_memory.specs.Shown.{words_one};
ghost use Rattle.dx_types.specs.declared.limits.TheConstants.{CONSTANT_SLOTS, MAX_BUFFER_SIZE, SRV_SLOTS, UAV_SLOTS};

use crate::Memory;
use crate::regions::within;
use d3d_state::Objects;
use d3d_views::{Bindings, BoundView, view_range};
use dx_types::{Form, ResRange, ViewShape};
use shader_model::Declared;

/// The opcodes that declare the slots of a constant buffer, a resource and an unordered access view.
const CONSTANT: u8 = 3;

const RESOURCE: u8 = 4;

const UNORDERED: u8 = 5;

/// The declaration of a slot by one of these opcodes.
fn declared_slot(declared: &[Declared], opcode: u8, slot: usize) -> Option<Declared>
    ensures { result ≡ find (is_declared opcode slot) declared.now }
{
    declared
        .iter()
        .copied()
        .find(|d| d.opcode == opcode && usize::from(d.slot) == slot)
}

/// The bytes of one element that a declaration asks for.
fn declared_unit(d: &Declared) -> u64
    ensures { result ≡ declared_unit d.now d.now.form }
{
    match d.form {
        Form::Raw => 4,
        Form::Structured => u64::from(d.parameter),
        Form::Typed => 4 * u64::from(d.parameter),
    }
}

/// Whether a view has the form, the stride and the components that are declared.
fn fits_slot(d: &Declared, v: &ViewShape) -> bool
    ensures { result ≡ fits_slot d.now v.now }
{
    v.form == d.form && u64::from(v.unit) == declared_unit(d)
}

/// What a constant buffer shows where a slot for it is declared: no more than it has.
fn cut(objects: &Objects<'_>, declared: Option<Declared>, set: Option<ResRange>) -> Option<ResRange>
    ensures { result ≡ constant_shown (objects_of objects.now) declared set }
{
    let _ = declared?;
    let range = set?;
    let size = match objects.buffer(range.res) {
        Some(shape) => shape.size,
        None => 0,
    };
    Some(ResRange {
        to: range.to.min(size),
        ..range
    })
}

/// What a view shows where a slot for it is declared: its bytes, where it fits the declaration.
fn view_shown(declared: Option<Declared>, set: Option<BoundView>) -> Option<ResRange>
    requires { EndFits set }
    ensures { result ≡ view_shown declared set }
{
    let d = declared?;
    let v = set?;
    if fits_slot(&d, &v.shape) {
        Some(view_range(&v.shape))
    } else {
        None
    }
}

/// What a constant slot, from 0 to 13, shows to a shader with these declarations.
pub(crate) fn constant_shown(
    objects: &Objects<'_>,
    bindings: &Bindings,
    declared: &[Declared],
    slot: usize,
) -> Option<ResRange>
    requires { slot < CONSTANT_SLOTS }
    ensures { result ≡ slice_index_or (constants_shown (objects_of objects.now) bindings.now declared.now) slot None }
{
    bindings.has_all_slots();
    let d = declared_slot(declared, CONSTANT, slot);
    cut(objects, d, bindings.constant(slot))
}

/// What a shader resource slot, from 0 to 15, shows to a shader with these declarations.
pub(crate) fn srv_shown(bindings: &Bindings, declared: &[Declared], slot: usize) -> Option<ResRange>
    requires { slot < SRV_SLOTS }
    ensures { result ≡ slice_index_or (srvs_shown bindings.now declared.now) slot None }
{
    bindings.has_all_slots();
    let d = declared_slot(declared, RESOURCE, slot);
    view_shown(d, bindings.srv(slot))
}

/// What an unordered access slot, from 0 to 7, shows to a shader with these declarations.
pub(crate) fn uav_shown(bindings: &Bindings, declared: &[Declared], slot: usize) -> Option<ResRange>
    requires { slot < UAV_SLOTS }
    ensures { result ≡ slice_index_or (uavs_shown bindings.now declared.now) slot None }
{
    bindings.has_all_slots();
    let d = declared_slot(declared, UNORDERED, slot);
    view_shown(d, bindings.uav(slot))
}

// Whole words from a place of some bytes on, as far as there are.
fn whole_words(bytes: &[u8], from: usize, len: usize) -> &[u8]
    ensures words { words_of result.now ≡ bytes_as_words (slice bytes.now from (from + len)) }
    ensures whole { length result.now % 4 ≡ 0 }
    ensures shorter { length result.now ≤ length bytes.now }
{
    let part = within(bytes, from, len);
    &part[..part.len() / 4 * 4]
}

/// The bytes of a range, by whole words.
fn range_part<'a>(memory: &'a Memory, range: &ResRange) -> &'a [u8]
    requires { InLimits memory.now }
    ensures words { words_of result.now ≡ bytes_as_words (read memory.now range.now) }
    ensures whole { length result.now % 4 ≡ 0 }
    ensures limit { length result.now ≤ MAX_BUFFER_SIZE }
{
    let len = range.to.saturating_sub(range.from);
    whole_words(memory.bytes(range.res), range.from as usize, len as usize)
}

/// The bytes of what a slot shows, by whole words.
pub(crate) fn shown_part<'a>(memory: &'a Memory, shown: Option<ResRange>) -> &'a [u8]
    requires { InLimits memory.now }
    ensures words { words_of result.now ≡ words_one memory.now shown }
    ensures whole { length result.now % 4 ≡ 0 }
    ensures limit { length result.now ≤ MAX_BUFFER_SIZE }
{
    match shown {
        Some(range) => range_part(memory, &range),
        None => &[],
    }
}
