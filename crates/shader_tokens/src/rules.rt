// The rules of an operand's words.

ghost use Rattle.std.specs.Prelude.{◌≡◌, [], ◌∷◌};
ghost use Rattle.shader_model.specs.Fields as fields;
ghost use Rattle.shader_model.specs.Faults as faults;

use crate::words::bits;
use dx_types::Form;
use dx_types::limits::{MAX_STRIDE, MAX_THREADS, MAX_THREADS_Z, MIN_STRIDE};
use shader_model::{Access, Declared, ShaderFault, ShaderKind, SlotUse};

/// A bad word and the rule that it breaks.
pub fn fault(word: u32, kind: ShaderKind) -> ShaderFault
    ensures { result ≡ faults.fault_at word kind }
{
    ShaderFault { word, kind }
}

/// Whether a word is a temporary that is not among so many.
pub fn lacks_register(temps: u32, word: u32) -> bool
    ensures { result ≡ faults.lacks_register temps word }
{
    bits(0, 4, word) == 0 && temps <= bits(16, 16, word)
}

/// Whether a word is a destination: a temporary with some component, or null with neither mask nor index.
pub fn is_destination(word: u32) -> bool
    ensures { result ≡ faults.is_destination word }
{
    let file = bits(0, 4, word);
    let mask = bits(4, 4, word);
    bits(8, 8, word) == 0
        && (file == 0 && mask != 0 || file == 7 && mask == 0 && bits(16, 16, word) == 0)
}

/// Whether a word is a source: the flag stands on a constant alone, an index on a temporary or a constant.
pub fn is_source(word: u32) -> bool
    ensures { result ≡ faults.is_source word }
{
    let file = bits(0, 4, word);
    bits(13, 3, word) == 0
        && file <= 6
        && (bits(12, 1, word) != 1 || file == 2)
        && (bits(16, 16, word) == 0 || file == 0 || file == 2)
}

/// Whether a word is the index of a constant's vector: a temporary without flag.
pub fn is_relative(word: u32) -> bool
    ensures { result ≡ faults.is_relative word }
{
    bits(0, 4, word) == 0 && bits(12, 4, word) == 0
}

/// The declaration of a slot by an opcode among these.
pub fn declared_among(opcode: u32, slot: u32, declared: &[Declared]) -> Option<Declared>
    ensures { result ≡ fields.declared_among opcode slot declared.now }
{
    for declaration in declared {
        if declaration.opcode as u32 == opcode && declaration.slot as u32 == slot {
            return Some(*declaration);
        }
    }
    None
}

/// What the slot of a slot word is declared as.
pub fn used_as(slot: SlotUse, declared: &[Declared]) -> Option<Declared>
    ensures { result ≡ fields.used_as slot declared.now }
{
    declared_among(
        if slot.writable { 5 } else { 4 },
        slot.slot as u32,
        declared,
    )
}

fn same_form(a: Form, b: Form) -> bool
    ensures { result ≡ faults.same_form a b }
{
    matches!(
        (a, b),
        (Form::Raw, Form::Raw) | (Form::Structured, Form::Structured) | (Form::Typed, Form::Typed)
    )
}

/// Whether an access takes a slot: a load one of its form; a store one of its form that can be written; an
/// atomic any that can be written and whose element is one word where it is typed.
pub fn takes_slot(access: Access, writable: bool, declared: Option<Declared>) -> bool
    ensures { result ≡ faults.takes_slot access writable declared }
{
    let Some(declared) = declared else {
        return false;
    };
    match access {
        Access::Loads(form) => same_form(form, declared.form),
        Access::Stores(form) => writable && same_form(form, declared.form),
        Access::Changes => {
            writable && (!same_form(declared.form, Form::Typed) || declared.parameter == 1)
        }
        Access::ReachesNone => false,
    }
}

/// Whether an item may have this extra: a mask of the first components for a store, else none.
pub fn takes_extra(opcode: u8, extra: u32) -> bool
    ensures { result ≡ faults.takes_extra opcode extra }
{
    match opcode {
        49 | 51 => extra == 1 || extra == 3 || extra == 7 || extra == 15,
        53 => extra == 15,
        _ => extra == 0,
    }
}

/// Whether x, y and z are a group's size: each within its limit, and at most 1,024 threads.
pub fn is_group(x: u32, y: u32, z: u32) -> bool
    ensures { result ≡ faults.is_group (x ∷ y ∷ z ∷ []) }
{
    1 <= x
        && x <= MAX_THREADS
        && 1 <= y
        && y <= MAX_THREADS
        && 1 <= z
        && z <= MAX_THREADS_Z
        && x * y * z <= MAX_THREADS
}

/// Whether a form takes a parameter: raw none, structured a stride, typed a number of components.
pub fn takes_parameter(form: u32, parameter: u32) -> bool
    ensures { result ≡ faults.takes_parameter (fields.form_of form) parameter }
{
    match form {
        0 => parameter == 0,
        1 => parameter % 4 == 0 && MIN_STRIDE <= parameter && parameter <= MAX_STRIDE,
        _ => parameter == 1 || parameter == 2 || parameter == 4,
    }
}
