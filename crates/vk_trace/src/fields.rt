//! The values of the next words of a line.

ghost use Rattle.std.specs.Prelude.{◌<◌, ◌^◌, decimal};
ghost use Rattle.vk_trace.specs.ListText.{IsSmall, IsWide, IsMask, FitsSecond, block_word, shader_word, range_word, hex_word, mask_word, second_word};
ghost use Rattle.vk_trace.specs.Reading.{Takes, IsReadRange};

use crate::mask::mask;
use crate::values;
use crate::words::Words;
use dx_types::Range;
use text_words::{read_u32, read_u64};
use vk_types::Mask;

impl Words<'_> {
    /// A number below 2^32.
    pub fn small(&mut self) -> Option<u32>
        ensures { Takes IsSmall decimal self.old self.new result }
    {
        read_u32(self.next()?)
    }

    /// A number below 2^64.
    pub fn wide(&mut self) -> Option<u64>
        ensures { Takes IsWide decimal self.old self.new result }
    {
        read_u64(self.next()?)
    }

    /// The number of a block.
    pub fn block(&mut self) -> Option<u32>
        ensures { Takes IsSmall block_word self.old self.new result }
    {
        values::block(self.next()?)
    }

    /// The call that creates a shader.
    pub fn shader(&mut self) -> Option<u32>
        ensures { Takes IsSmall shader_word self.old self.new result }
    {
        values::shader(self.next()?)
    }

    /// A range.
    pub fn range(&mut self) -> Option<Range>
        ensures { Takes IsReadRange range_word self.old self.new result }
    {
        values::range(self.next()?)
    }

    /// A word of memory.
    pub fn memory_word(&mut self) -> Option<u32>
        ensures { Takes IsSmall hex_word self.old self.new result }
    {
        values::memory_word(self.next()?)
    }

    /// The second command of a cause; none for the host.
    pub fn second(&mut self) -> Option<Option<u64>>
        ensures { Takes FitsSecond second_word self.old self.new result }
    {
        values::second(self.next()?)
    }

    /// A mask.
    pub fn mask(&mut self) -> Option<Mask>
        ensures { Takes IsMask mask_word self.old self.new result }
    {
        mask(self.next()?)
    }
}
