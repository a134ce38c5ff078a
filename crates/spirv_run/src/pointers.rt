// Access chains, loads, stores and atomic instructions.

ghost use Rattle.std.specs.Prelude.{◌≡◌, ◌<◌, [], ◌∷◌, option_map, slice_index, length, Some};
ghost use Rattle.shader_model.specs.Invocation as invocation;
ghost use Rattle.spirv_model.specs.Meaning.Values.{new_word, new_if_equal, At, ToVariable};
ghost use Rattle.spirv_model.specs.Meaning.Bindings.{words_at};
ghost use Rattle.spirv_model.specs.Meaning.Memory as model;
ghost use Rattle.spirv_run.specs.Held.{shown, pointer_of, memory_of};
ghost use Rattle.spirv_run.specs.Steps.{reached, left_in};

use crate::bindings;
use crate::frame::Frame;
use crate::operations::{new_if_equal, new_word};
use crate::step::Next;
use crate::thread::Thread;
use crate::value::{Pointer, Value};
use dx_types::limits::MODULE_BINDINGS;
use shader_slots::Slots;
use spirv_model::AtomicCode;

/// A pointer to a push constant.
pub fn member(slots: &Slots<'_>, base: Option<Value>, index: Option<Value>) -> Option<Value>
    ensures { option_map shown result ≡ model.chained slots.now.words (option_map shown base) (option_map shown index ∷ []) }
{
    match (base, index) {
        (Some(Value::At(Pointer::Lengths)), Some(Value::Word(binding))) => {
            if binding < MODULE_BINDINGS {
                Some(Value::At(Pointer::Length(binding)))
            } else {
                None
            }
        }
        _ => None,
    }
}

/// A pointer to a word of a buffer.
pub fn element(
    slots: &Slots<'_>,
    base: Option<Value>,
    member: Option<Value>,
    index: Option<Value>,
) -> Option<Value>
    ensures { option_map shown result ≡ model.chained slots.now.words (option_map shown base) (option_map shown member ∷ option_map shown index ∷ []) }
{
    match (base, member, index) {
        (
            Some(Value::At(Pointer::Buffer(binding))),
            Some(Value::Word(0)),
            Some(Value::Word(place)),
        ) => {
            if (place as usize) < bindings::len_at(slots, binding) {
                Some(Value::At(Pointer::Word { binding, place }))
            } else {
                None
            }
        }
        _ => None,
    }
}

/// What a variable has, if it was given something.
fn given(value: Option<Value>) -> Option<Value>
    ensures { option_map shown result ≡ model.given (option_map shown value) }
{
    match value {
        Some(Value::Nothing) => None,
        _ => value,
    }
}

impl Frame {
    fn loaded_from(&self, thread: &Thread, slots: &Slots<'_>, pointer: Pointer) -> Option<Value>
        ensures { option_map shown result ≡ model.loaded thread.now (memory_of self.now slots.now.words) (Some (At (pointer_of pointer))) }
    {
        match pointer {
            Pointer::Variable(id) => given(self.variable(id)),
            Pointer::Word { binding, place } => {
                Some(Value::Word(bindings::word_at(slots, binding, place)))
            }
            Pointer::Length(binding) => {
                Some(Value::Word(bindings::len_at(slots, binding) as u32))
            }
            Pointer::Input(number) => thread.built_in(number),
            Pointer::Buffer(_) | Pointer::Lengths => None,
        }
    }

    /// What a pointer points to.
    pub fn loaded(
        &self,
        thread: &Thread,
        slots: &Slots<'_>,
        pointer: Option<Value>,
    ) -> Option<Value>
        ensures { option_map shown result ≡ model.loaded thread.now (memory_of self.now slots.now.words) (option_map shown pointer) }
    {
        match pointer {
            Some(Value::At(pointer)) => self.loaded_from(thread, slots, pointer),
            _ => None,
        }
    }
    /// A variable that there is takes another value.
    fn set_existing(&mut self, id: u32, value: Value, next: usize) -> Next
        ensures stored { (slots : invocation.Slots) → reached result (memory_of self.new slots) ≡ left_in (model.stored (Some (At (ToVariable id))) (Some (shown value)) (memory_of self.old slots)) next }
        ensures begins { self.new.begins ≡ self.old.begins }
    {
        match self.variable(id) {
            None => Next::Stuck,
            Some(_) => {
                self.set_variable(id, value);
                Next::On(next)
            }
        }
    }

    /// A store, to a word of a buffer or to a variable.
    pub fn store(
        &mut self,
        slots: &mut Slots<'_>,
        pointer: Option<Value>,
        value: Option<Value>,
        next: usize,
    ) -> Next
        ensures stored { reached result (memory_of self.new slots.new.words) ≡ left_in (model.stored (option_map shown pointer) (option_map shown value) (memory_of self.old slots.old.words)) next }
        ensures around { slots.new.around ≡ slots.old.around }
        ensures begins { self.new.begins ≡ self.old.begins }
    {
        match (pointer, value) {
            (Some(Value::At(Pointer::Word { binding, place })), Some(Value::Word(word))) => {
                store_word(slots, binding, place, word, next)
            }
            (Some(Value::At(Pointer::Variable(id))), Some(value)) => {
                self.set_existing(id, value, next)
            }
            _ => Next::Stuck,
        }
    }

    /// The result of an atomic instruction is the old word, and the new one takes its place.
    fn exchange(
        &mut self,
        slots: &mut Slots<'_>,
        id: u32,
        place: (u32, u32),
        new: Option<u32>,
        next: usize,
    ) -> Next
        requires { id < length self.old.begins.results }
        ensures changed { reached result (memory_of self.new slots.new.words) ≡ left_in (model.exchanged id place.0 place.1 (slice_index (words_at slots.old.words place.0) place.1) new (memory_of self.old slots.old.words)) next }
        ensures around { slots.new.around ≡ slots.old.around }
        ensures begins { self.new.begins ≡ self.old.begins }
    {
        let (binding, place) = place;
        let Some(new) = new else {
            return Next::Stuck;
        };
        if !bindings::is_writable(binding) {
            return Next::Stuck;
        }
        let old = bindings::word_at(slots, binding, place);
        self.set_value(id, Value::Word(old));
        bindings::set_word(slots, binding, place, new);
        Next::On(next)
    }

    /// An atomic instruction on the word of a buffer and an operand.
    pub fn change(
        &mut self,
        slots: &mut Slots<'_>,
        code: AtomicCode,
        id: u32,
        pointer: Option<Value>,
        operand: Option<Value>,
        next: usize,
    ) -> Next
        requires { id < length self.old.begins.results }
        ensures changed { reached result (memory_of self.new slots.new.words) ≡ left_in (model.changed id (option_map shown pointer) (new_word code (option_map shown operand)) (memory_of self.old slots.old.words)) next }
        ensures around { slots.new.around ≡ slots.old.around }
        ensures begins { self.new.begins ≡ self.old.begins }
    {
        match pointer {
            Some(Value::At(Pointer::Word { binding, place })) => {
                let old = bindings::word_at(slots, binding, place);
                let new = new_word(code, operand, old);
                self.exchange(slots, id, (binding, place), new, next)
            }
            _ => Next::Stuck,
        }
    }

    /// A compare and exchange.
    pub fn change_if_equal(
        &mut self,
        slots: &mut Slots<'_>,
        id: u32,
        pointer: Option<Value>,
        operands: (Option<Value>, Option<Value>),
        next: usize,
    ) -> Next
        requires { id < length self.old.begins.results }
        ensures changed { reached result (memory_of self.new slots.new.words) ≡ left_in (model.changed id (option_map shown pointer) (new_if_equal (option_map shown operands.0) (option_map shown operands.1)) (memory_of self.old slots.old.words)) next }
        ensures around { slots.new.around ≡ slots.old.around }
        ensures begins { self.new.begins ≡ self.old.begins }
    {
        match pointer {
            Some(Value::At(Pointer::Word { binding, place })) => {
                let old = bindings::word_at(slots, binding, place);
                let new = new_if_equal(operands.0, operands.1, old);
                self.exchange(slots, id, (binding, place), new, next)
            }
            _ => Next::Stuck,
        }
    }
}

/// A store to a word of a buffer.
fn store_word(slots: &mut Slots<'_>, binding: u32, place: u32, word: u32, next: usize) -> Next
    ensures stored { (frame : Frame) → reached result (memory_of frame slots.new.words) ≡ left_in (model.with_slot_word binding place word (memory_of frame slots.old.words)) next }
    ensures around { slots.new.around ≡ slots.old.around }
{
    if bindings::is_writable(binding) {
        bindings::set_word(slots, binding, place, word);
        Next::On(next)
    } else {
        Next::Stuck
    }
}
