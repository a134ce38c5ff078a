ghost use Rattle.std.specs.Prelude.{ℕ, ◌≡◌, ◌-◌, ◌%◌, ◌<◌, ◌≤◌, length, slice_index, slice_set, vec_len};
ghost use Rattle.shader_slots.specs.Part.{part_of, bytes_of};
ghost use Rattle.dx_types.specs.declared.limits.TheConstants.{MAX_BUFFER_SIZE, MAX_BUFFER_WORDS};

use crate::words;
use std::marker::Model;

/// A buffer's bytes with the part of them that a view names. A clause sees the part's words, and the bytes before and
/// behind it.
#[derive(Drop)]
pub struct Whole {
    bytes: Vec<u8>,
    from: usize,
    to: usize,
}

impl Model for Whole {
    ghost use Rattle.std.specs.Prelude.{◌≤◌, ◌≡◌, ◌-◌, ◌%◌, vec_len};
    ghost use Rattle.shader_slots.specs.Part.{Part, part_of};
    ghost use Rattle.dx_types.specs.declared.limits.TheConstants.{MAX_BUFFER_SIZE};

    ghost Value = { Part };

    ghost view = { λ w. part_of w.bytes.items w.from w.to };

    ghost invariant = { λ w. (w.from ≤ w.to) × (w.to ≤ vec_len w.bytes) × ((w.to - w.from) % 4 ≡ 0) × (w.to - w.from ≤ MAX_BUFFER_SIZE) };
}

impl Whole {
    /// The bytes of a buffer, of which the view has those from byte `from` to just before byte `to`.
    pub fn new(bytes: Vec<u8>, from: usize, to: usize) -> Whole
        requires order { from ≤ to }
        requires within { to ≤ vec_len bytes }
        requires words { (to - from) % 4 ≡ 0 }
        requires limit { to - from ≤ MAX_BUFFER_SIZE }
        ensures { result ≡ part_of bytes.items from to }
    {
        Whole { bytes, from, to }
    }

    /// The buffer's bytes, with the part's words as they are now.
    pub fn into_bytes(self) -> Vec<u8>
        ensures { result.items ≡ bytes_of self }
    {
        self.bytes
    }

    /// How many words the part has.
    pub fn len(&self) -> usize
        ensures count { result ≡ length self.now.words }
        ensures limit { result ≤ MAX_BUFFER_WORDS }
    {
        (self.to - self.from) / 4
    }

    /// Each word of the part has 32 bits.
    pub fn has_words(&self)
        ensures { (i : ℕ) → slice_index self.now.words i < 4294967296 }
    {
        words::have_bits(&self.bytes[self.from..self.to]);
    }

    /// A word of the part.
    pub fn word(&self, i: usize) -> u32
        requires { i < length self.now.words }
        ensures { result ≡ slice_index self.now.words i }
    {
        words::word(&self.bytes[self.from..self.to], i)
    }

    /// Sets a word of the part.
    pub fn set_word(&mut self, i: usize, value: u32)
        requires { i < length self.old.words }
        ensures { self.new ≡ record self.old { words = slice_set self.old.words i value } }
    {
        words::set_word(self.bytes.slice_mut(self.from..self.to), i, value);
    }
}
