// What the sources of an instruction are.

ghost use Rattle.std.specs.Prelude.{◌≡◌, ◌<◌, ◌*◌, ◌+◌, slice_index};
ghost use Rattle.shader_model.specs.Words.{index_in, picked, swizzle_in};
ghost use Rattle.shader_model.specs.Invocation as model;
ghost use Rattle.shader_eval.specs.Frames.{seen};
ghost use Rattle.shader_eval.specs.Lanes.{lanes};

use crate::frame::Frame;
use crate::lanes::{Lanes, swizzled};
use crate::thread::Thread;
use shader_model::{Instr, Operand};
use shader_slots::Slots;

/// The words of a constant buffer's vector, 0 outside.
fn vector(slots: &Slots<'_>, slot: usize, number: u32) -> Lanes
    ensures { result ≡ lanes (model.vector_word (model.words_in slots.now.words.constants slot) number) }
{
    let number = number as usize;
    if number < slots.constant_len(slot) / 4 {
        [
            slots.constant_word(slot, 4 * number),
            slots.constant_word(slot, 4 * number + 1),
            slots.constant_word(slot, 4 * number + 2),
            slots.constant_word(slot, 4 * number + 3),
        ]
    } else {
        [0, 0, 0, 0]
    }
}

impl Frame {
    /// The components of a temporary.
    fn register(&self, index: u16) -> Lanes
        ensures { result ≡ lanes (λ c. slice_index self.now.temps (4 * index + c)) }
    {
        let at = 4 * index as usize;
        [
            self.temps.word(at),
            self.temps.word(at + 1),
            self.temps.word(at + 2),
            self.temps.word(at + 3),
        ]
    }

    /// The x of a temporary source's word.
    fn relative(&self, word: u32) -> u32
        ensures { result ≡ slice_index self.now.temps (4 * index_in word + picked (swizzle_in word) 0) }
    {
        let index = (word >> 16) as usize;
        let x = (word >> 4) as usize % 4;
        self.temps.word(4 * index + x)
    }

    /// The components of the vector that a source of a constant buffer names.
    fn constant(&self, slots: &Slots<'_>, of: &Operand) -> Lanes
        ensures { result ≡ lanes (model.vector_word (model.words_in slots.now.words.constants of.now.index) (model.vector_of of.now (seen self.now slots.now.words))) }
    {
        let number = if of.flag {
            of.words[0].wrapping_add(self.relative(of.words[1]))
        } else {
            of.words[0]
        };
        vector(slots, of.index as usize, number)
    }

    /// The components of what a source names, before its swizzle.
    fn named(&self, thread: &Thread, slots: &Slots<'_>, of: &Operand) -> Lanes
        ensures { result ≡ lanes (model.named thread.now (seen self.now slots.now.words) of.now) }
    {
        match of.file {
            0 => self.register(of.index),
            1 => of.words,
            2 => self.constant(slots, of),
            3 => thread.global(),
            4 => thread.group(),
            5 => thread.place(),
            _ => [thread.flattened(); 4],
        }
    }

    /// The components of a source.
    pub fn value(&self, thread: &Thread, slots: &Slots<'_>, of: &Operand) -> Lanes
        ensures { result ≡ lanes (model.value_of thread.now (seen self.now slots.now.words) of.now) }
    {
        swizzled(self.named(thread, slots, of), of.swizzle)
    }

    /// The components of an instruction's k-th source, 0 where it has none.
    pub fn source(&self, thread: &Thread, slots: &Slots<'_>, instr: &Instr, k: usize) -> Lanes
        requires { k < 4 }
        ensures { result ≡ lanes (model.source thread.now (seen self.now slots.now.words) instr.now k) }
    {
        match instr.sources[k] {
            Some(of) => self.value(thread, slots, &of),
            None => [0, 0, 0, 0],
        }
    }
}
