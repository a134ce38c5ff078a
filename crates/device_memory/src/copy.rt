// Copies, fills and clears.

ghost use Rattle.std.specs.Prelude.{◌≡◌, ◌-◌, ◌/◌, ◌%◌, ◌≤◌};
ghost use Rattle.vk_types.specs.Memory.{byte_in, byte_of, number_at, put};
ghost use Rattle.device_memory.specs.Held.{AreAlike, IsHeld, memory_of};
ghost use Rattle.device_memory.specs.Ranges.{size_of};

use crate::DeviceMemory;
use crate::pieces::{clear_block, move_in_block, put_piece};
use dx_types::Range;

impl DeviceMemory {
    /// Copies a range to another of the same length; all is read before the write.
    pub(crate) fn copy(&mut self, source: &Range, target: &Range)
        requires source { IsHeld self.old source.now }
        requires target { IsHeld self.old target.now }
        requires size { size_of source.now ≡ size_of target.now }
        ensures memory { memory_of self.new ≡ put target.now (byte_of (memory_of self.old) source.now) (memory_of self.old) }
        ensures alike { AreAlike self.old self.new }
    {
        if source.block == target.block {
            self.copy_inside(source, target);
        } else {
            self.copy_across(source, target);
        }
    }

    fn copy_inside(&mut self, source: &Range, target: &Range)
        requires block { source.now.block ≡ target.now.block }
        requires source { IsHeld self.old source.now }
        requires target { IsHeld self.old target.now }
        requires size { size_of source.now ≡ size_of target.now }
        ensures memory { memory_of self.new ≡ put target.now (byte_of (memory_of self.old) source.now) (memory_of self.old) }
        ensures alike { AreAlike self.old self.new }
    {
        match self.blocks.get_mut(&target.block) {
            Some(block) => move_in_block(block, target.from, target.to, source.from),
            None => unreachable!(),
        }
    }

    // The target's bytes leave their block, so that the source's can be read beside them.
    fn copy_across(&mut self, source: &Range, target: &Range)
        requires blocks { source.now.block ≡ target.now.block → ⊥ }
        requires source { IsHeld self.old source.now }
        requires target { IsHeld self.old target.now }
        requires size { size_of source.now ≡ size_of target.now }
        ensures memory { memory_of self.new ≡ put target.now (byte_of (memory_of self.old) source.now) (memory_of self.old) }
        ensures alike { AreAlike self.old self.new }
    {
        let mut bytes = self.take_bytes(target.block);
        let piece = self.part(source);
        put_piece(&mut bytes, target.from as usize, target.to as usize, piece);
        self.put_bytes(target.block, bytes);
    }

    /// Writes words over a range, `unit` of them in turn, from 1 to 4.
    pub(crate) fn clear(&mut self, target: &Range, words: &[u32; 4], unit: u32)
        requires target { IsHeld self.old target.now }
        requires some { 1 ≤ unit }
        requires four { unit ≤ 4 }
        ensures memory { memory_of self.new ≡ put target.now (λ k. byte_in (number_at words.now (k / 4 % unit)) (k % 4)) (memory_of self.old) }
        ensures alike { AreAlike self.old self.new }
    {
        match self.blocks.get_mut(&target.block) {
            Some(block) => clear_block(block, target.from, target.to, words, unit),
            None => unreachable!(),
        }
    }
}
