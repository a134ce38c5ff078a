// Words that decide what a command does: the predicate's, and the counts of an indirect dispatch.

ghost use Rattle.std.specs.Prelude.{◌≡◌, ◌+◌, ◌*◌, ◌≤◌};
ghost use Rattle.vk_types.specs.Memory.{word_of};
ghost use Rattle.vk_types.specs.Effects.{group_counts, is_skipped};
ghost use Rattle.device_memory.specs.Held.{IsHeld, memory_of};
ghost use Rattle.device_memory.specs.Binding.{bytes_in};
ghost use Rattle.device_memory.specs.Ranges.{CanCount, CanSkip, size_of};

use crate::DeviceMemory;
use dx_types::Range;
use vk_types::{Cond, Groups};

impl DeviceMemory {
    /// The bytes of a range.
    pub(crate) fn part(&self, r: &Range) -> &[u8]
        requires { IsHeld self.now r.now }
        ensures { result.now ≡ bytes_in self.now r.now }
    {
        match self.blocks.get(&r.block) {
            Some(block) => block.part(r.from, r.to),
            None => unreachable!(),
        }
    }

    /// Word `k` of a range, the lowest byte first.
    fn word(&self, r: &Range, k: usize) -> u32
        requires range { IsHeld self.now r.now }
        requires place { 4 * k + 4 ≤ size_of r.now }
        ensures { result ≡ word_of (memory_of self.now) r.now k }
    {
        let part = self.part(r);
        let at = 4 * k;
        u32::from_le_bytes([part[at], part[at + 1], part[at + 2], part[at + 3]])
    }

    /// The group counts of a dispatch, read from memory where it is an indirect one.
    pub(crate) fn counts(&self, groups: &Groups) -> [u32; 3]
        requires { CanCount self.now groups.now }
        ensures { result ≡ group_counts (memory_of self.now) groups.now }
    {
        match groups {
            Groups::Direct { x, y, z } => [*x, *y, *z],
            Groups::Indirect { at } => [self.word(at, 0), self.word(at, 1), self.word(at, 2)],
        }
    }

    /// Whether a command does nothing: its predicate, 1 for a word that isn't 0, equals the given value.
    pub(crate) fn is_skipped(&self, cond: &Option<Cond>) -> bool
        requires { CanSkip self.now cond.now }
        ensures { result ≡ is_skipped cond.now (memory_of self.now) }
    {
        match cond {
            Some(c) => u32::from(self.word(&c.at, 0) != 0) == c.value,
            None => false,
        }
    }
}
