ghost use Rattle.std.specs.Prelude.{ℕ, ◌≡◌, ◌<◌, ◌≤◌, length, replicate, slice_index, slice_index_or, slice_set, None, Some};
ghost use Rattle.shader_slots.specs.Bound.{words_bound, with_word};

use crate::whole::Whole;
use dx_types::limits::{MAX_BUFFER_WORDS, UAV_SLOTS};

/// The parts that unordered access views name, by slot.
#[derive(Drop)]
pub(crate) struct Writes {
    pub(crate) parts: [Option<Whole>; UAV_SLOTS],
}

impl Writes {
    pub(crate) fn new() -> Writes
        ensures { result.parts ≡ replicate UAV_SLOTS None }
    {
        Writes {
            parts: [None, None, None, None, None, None, None, None],
        }
    }

    pub(crate) fn put(&mut self, slot: usize, part: Whole)
        requires { slot < UAV_SLOTS }
        ensures put { self.new.parts ≡ slice_set self.old.parts slot (Some part) }
        ensures limit { length part.words ≤ MAX_BUFFER_WORDS }
        ensures words { (i : ℕ) → slice_index part.words i < 4294967296 }
    {
        prove!(part.len() <= MAX_BUFFER_WORDS);
        part.has_words();
        self.parts[slot] = Some(part);
    }

    pub(crate) fn take(&mut self, slot: usize) -> Option<Whole>
        requires { slot < UAV_SLOTS }
        ensures part { result ≡ slice_index_or self.old.parts slot None }
        ensures empty { self.new.parts ≡ slice_set self.old.parts slot None }
    {
        self.parts[slot].take()
    }

    /// How many words a slot has.
    pub(crate) fn len(&self, slot: usize) -> usize
        ensures count { result ≡ length (words_bound (slice_index_or self.now.parts slot None)) }
        ensures limit { result ≤ MAX_BUFFER_WORDS }
    {
        match self.parts.get(slot) {
            Some(Some(part)) => part.len(),
            _ => 0,
        }
    }

    /// A word of a slot.
    pub(crate) fn word(&self, slot: usize, i: usize) -> u32
        requires { i < length (words_bound (slice_index_or self.now.parts slot None)) }
        ensures { result ≡ slice_index (words_bound (slice_index_or self.now.parts slot None)) i }
    {
        match self.parts.get(slot) {
            Some(Some(part)) => part.word(i),
            _ => unreachable!(),
        }
    }

    /// Sets a word of a slot.
    pub(crate) fn set_word(&mut self, slot: usize, i: usize, value: u32)
        requires { i < length (words_bound (slice_index_or self.old.parts slot None)) }
        ensures { self.new.parts ≡ slice_set self.old.parts slot (with_word i value (slice_index_or self.old.parts slot None)) }
    {
        match &mut self.parts[slot] {
            Some(part) => part.set_word(i, value),
            None => unreachable!(),
        }
    }
}
