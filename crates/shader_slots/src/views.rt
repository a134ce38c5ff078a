// Where an access through a view finds its word.

ghost use Rattle.std.specs.Prelude.{◌≡◌, ◌<◌, ◌/◌, if◌then◌else◌, nat_lt, length, slice_index, IfSome};
ghost use Rattle.dx_types.specs.declared.shape.Form.TheVariants.{Raw, Structured, Typed};
ghost use Rattle.shader_model.specs.Invocation as model;

use crate::slots::Slots;
use dx_types::Form;
use shader_model::{Declared, SlotUse};

/// The word of a view of `len` words that component `c` of an access names, None outside: of a raw view the c-th from
/// address `a` on, of a structured one the c-th from offset `o` of element `a` on, of a typed one the c-th of element
/// `a`. Addresses and offsets are in bytes.
pub fn place(declared: &Declared, len: usize, a: u32, o: u32, c: u32) -> Option<usize>
    ensures place { result ≡ model.place_by declared.now.form declared.now.parameter len a o c }
    ensures within { IfSome result (λ i. i < len) }
{
    match declared.form {
        Form::Raw => raw(len, a, c),
        Form::Structured => structured(declared.parameter, len, a, o, c),
        Form::Typed => typed(declared.parameter, len, a, c),
    }
}

fn raw(len: usize, a: u32, c: u32) -> Option<usize>
    ensures place { result ≡ model.place_by Raw 0 len a 0 c }
    ensures within { IfSome result (λ i. i < len) }
{
    let at = a as usize / 4 + c as usize;
    if at < len { Some(at) } else { None }
}

fn structured(stride: u32, len: usize, a: u32, o: u32, c: u32) -> Option<usize>
    ensures place { result ≡ model.place_by Structured stride len a o c }
    ensures within { IfSome result (λ i. i < len) }
{
    let size = stride as usize / 4;
    let at = o as usize / 4 + c as usize;
    if is_element(len, size, a as usize) && at < size {
        Some(a as usize * size + at)
    } else {
        None
    }
}

fn typed(components: u32, len: usize, a: u32, c: u32) -> Option<usize>
    ensures place { result ≡ model.place_by Typed components len a 0 c }
    ensures within { IfSome result (λ i. i < len) }
{
    let size = components as usize;
    if is_element(len, size, a as usize) && c < components {
        Some(a as usize * size + c as usize)
    } else {
        None
    }
}

/// Whether a view of `len` words has an element, where each has `size` words.
fn is_element(len: usize, size: usize, element: usize) -> bool
    ensures { result ≡ nat_lt element (len / size) }
{
    size != 0 && element < len / size
}

/// How many words the view has that an access names.
pub fn view_len(slots: &Slots, name: &SlotUse) -> usize
    ensures { result ≡ length (model.view_words name.now slots.now.words) }
{
    if name.writable {
        slots.write_len(name.slot as usize)
    } else {
        slots.read_len(name.slot as usize)
    }
}

/// A word of the view that an access names.
pub fn view_word(slots: &Slots, name: &SlotUse, i: usize) -> u32
    requires { i < length (model.view_words name.now slots.now.words) }
    ensures { result ≡ slice_index (model.view_words name.now slots.now.words) i }
{
    if name.writable {
        slots.write_word(name.slot as usize, i)
    } else {
        slots.read_word(name.slot as usize, i)
    }
}

/// The word at a place of the view that an access names, 0 where there is none.
pub fn word_at(slots: &Slots, name: &SlotUse, at: Option<usize>) -> u32
    requires { IfSome at (λ i. i < length (model.view_words name.now slots.now.words)) }
    ensures { result ≡ model.word_at (model.view_words name.now slots.now.words) at }
{
    match at {
        Some(i) => view_word(slots, name, i),
        None => 0,
    }
}

/// A component of a load: each has its own check, but that of a typed view is on the element, of which missing
/// components are 0, 0, 0, 1.
pub fn loaded(slots: &Slots, name: &SlotUse, declared: &Declared, a: u32, o: u32, c: u32) -> u32
    ensures { result ≡ model.loaded declared.now.form declared.now (model.view_words name.now slots.now.words) a o c }
{
    let len = view_len(slots, name);
    match declared.form {
        Form::Typed if c >= declared.parameter => missing(declared.parameter, len, a, c),
        _ => word_at(slots, name, place(declared, len, a, o, c)),
    }
}

/// A component that a typed element lacks: 1 as w where the element is there, and else 0.
fn missing(components: u32, len: usize, a: u32, c: u32) -> u32
    ensures { result ≡ (if nat_lt a (len / components) then model.missing c else 0) }
{
    if is_element(len, components as usize, a as usize) && c == 3 {
        1
    } else {
        0
    }
}
