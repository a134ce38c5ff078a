ghost use Rattle.std.specs.Prelude.{◌≡◌, ◌%◌, ◌<◌, ◌≤◌, length, map, slice_index, slice_set, None, Some};
ghost use Rattle.base_lemmas.specs.ByteWords.{words_of};
ghost use Rattle.shader_model.specs.Invocation.{words_in};
ghost use Rattle.shader_slots.specs.Bound.{WithinLimit, around_bound, unbound, words_bound, with_constant, with_read, with_write, with_written, part_at};
ghost use Rattle.dx_types.specs.declared.limits.TheConstants.{MAX_BUFFER_SIZE, MAX_BUFFER_WORDS};

use crate::whole::Whole;
use crate::words;
use crate::writes::Writes;
use dx_types::limits::{CONSTANT_SLOTS, SRV_SLOTS, UAV_SLOTS};
use std::marker::Model;

/// What is bound for a dispatch. A slot never bound is empty, and so is one that doesn't exist. A clause sees the words
/// of each slot, and the bytes around each part that may be written.
#[derive(Drop)]
pub struct Slots<'a> {
    constants: [&'a [u8]; CONSTANT_SLOTS],
    reads: [&'a [u8]; SRV_SLOTS],
    writes: Writes,
}

impl<'a> Model for Slots<'a> {
    ghost use Rattle.std.specs.Prelude.{map};
    ghost use Rattle.base_lemmas.specs.ByteWords.{words_of};
    ghost use Rattle.shader_slots.specs.Bound.{Bound, WithinLimit, seen};

    ghost Value = { Bound };

    ghost view = { λ s. seen (map (λ p. words_of p.now) s.constants) (map (λ p. words_of p.now) s.reads) s.writes.parts };

    ghost invariant = { λ s. WithinLimit ((seen (map (λ p. words_of p.now) s.constants) (map (λ p. words_of p.now) s.reads) s.writes.parts).words) };
}

impl<'a> Slots<'a> {
    pub fn new() -> Slots<'a>
        ensures { result ≡ unbound }
    {
        Slots {
            constants: [&[]; CONSTANT_SLOTS],
            reads: [&[]; SRV_SLOTS],
            writes: Writes::new(),
        }
    }

    /// Binds a constant buffer's bytes.
    pub fn bind_constant(&mut self, slot: usize, part: &'a [u8])
        requires slot { slot < CONSTANT_SLOTS }
        requires words { length part.now % 4 ≡ 0 }
        requires limit { length part.now ≤ MAX_BUFFER_SIZE }
        ensures { self.new ≡ with_constant slot (words_of part.now) self.old }
    {
        words::have_bits(part);
        self.constants[slot] = part;
    }

    /// Binds the bytes of a shader resource view.
    pub fn bind_read(&mut self, slot: usize, part: &'a [u8])
        requires slot { slot < SRV_SLOTS }
        requires words { length part.now % 4 ≡ 0 }
        requires limit { length part.now ≤ MAX_BUFFER_SIZE }
        ensures { self.new ≡ with_read slot (words_of part.now) self.old }
    {
        words::have_bits(part);
        self.reads[slot] = part;
    }

    /// Binds the part of an unordered access view. What the slot had is let go.
    pub fn bind_write(&mut self, slot: usize, part: Whole)
        requires { slot < UAV_SLOTS }
        ensures { self.new ≡ with_write slot (Some part) self.old }
    {
        self.writes.put(slot, part);
    }

    /// Takes back what is bound of an unordered access view, and leaves the slot empty.
    pub fn take_write(&mut self, slot: usize) -> Option<Whole>
        requires { slot < UAV_SLOTS }
        ensures part { result ≡ part_at slot self.old }
        ensures empty { self.new ≡ with_write slot None self.old }
    {
        self.writes.take(slot)
    }

    /// Takes all that is bound apart: the parts of the unordered access views, by slot.
    pub fn into_writes(self) -> [Option<Whole>; UAV_SLOTS]
        ensures words { map words_bound result ≡ self.entry.words.writes }
        ensures around { map around_bound result ≡ self.entry.around }
    {
        self.writes.parts
    }

    /// No slot has more than 4,194,304 words, and each has 32 bits.
    pub fn within_limit(&self)
        ensures { WithinLimit self.now.words }
    {
        let _constants = &self.constants;
    }

    /// How many words a constant buffer's slot has.
    pub fn constant_len(&self, slot: usize) -> usize
        ensures count { result ≡ length (words_in self.now.words.constants slot) }
        ensures limit { result ≤ MAX_BUFFER_WORDS }
    {
        words::len(part_at(&self.constants, slot))
    }

    /// A word of a constant buffer's slot.
    pub fn constant_word(&self, slot: usize, i: usize) -> u32
        requires { i < length (words_in self.now.words.constants slot) }
        ensures { result ≡ slice_index (words_in self.now.words.constants slot) i }
    {
        words::word(part_at(&self.constants, slot), i)
    }

    /// How many words a resource's slot has.
    pub fn read_len(&self, slot: usize) -> usize
        ensures count { result ≡ length (words_in self.now.words.reads slot) }
        ensures limit { result ≤ MAX_BUFFER_WORDS }
    {
        words::len(part_at(&self.reads, slot))
    }

    /// A word of a resource's slot.
    pub fn read_word(&self, slot: usize, i: usize) -> u32
        requires { i < length (words_in self.now.words.reads slot) }
        ensures { result ≡ slice_index (words_in self.now.words.reads slot) i }
    {
        words::word(part_at(&self.reads, slot), i)
    }

    /// How many words an unordered access view's slot has.
    pub fn write_len(&self, slot: usize) -> usize
        ensures count { result ≡ length (words_in self.now.words.writes slot) }
        ensures limit { result ≤ MAX_BUFFER_WORDS }
    {
        self.writes.len(slot)
    }

    /// A word of an unordered access view's slot.
    pub fn write_word(&self, slot: usize, i: usize) -> u32
        requires { i < length (words_in self.now.words.writes slot) }
        ensures { result ≡ slice_index (words_in self.now.words.writes slot) i }
    {
        self.writes.word(slot, i)
    }

    /// Sets a word of an unordered access view's slot.
    pub fn set_word(&mut self, slot: usize, i: usize, value: u32)
        requires { i < length (words_in self.old.words.writes slot) }
        ensures { self.new ≡ with_written slot (slice_set (words_in self.old.words.writes slot) i value) self.old }
    {
        self.writes.set_word(slot, i, value);
    }
}

/// The bytes of a slot, none where there is no such slot.
fn part_at<'a>(parts: &[&'a [u8]], slot: usize) -> &'a [u8]
    ensures { words_of result.now ≡ words_in (map (λ p. words_of p.now) parts.now) slot }
{
    match parts.get(slot) {
        Some(part) => part,
        None => &[],
    }
}
