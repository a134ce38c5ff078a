//! The values that single words spell.

ghost use Rattle.std.specs.Prelude.{◌≡◌, ◌+◌, ◌-◌, ◌%◌, ◌<◌, ◌==◌, ◌^◌, ℕ, List, ◌∷◌, ◌++◌, IsTrue, decimal, codes, MatchOption};
ghost use Rattle.vk_types.specs.declared.access.Access.{Access};
ghost use Rattle.vk_types.specs.declared.command.SlotName.{SlotName};
ghost use Rattle.vk_trace.specs.ListText.{IsSmall, IsWide, block_word, shader_word, range_word, hex_word, access_word, slot_word, second_word, FitsSecond, size, slot_number, slot_rank};
ghost use Rattle.vk_trace.specs.Reading.{IsReadRange};
ghost use Rattle.text_words.specs.Words.{IsRead, lower};

use crate::words::is;
use dx_types::Range;
use hex::FromHex;
use text_words::{behind, cut, is_lower, read_u8, read_u32, read_u64};
use vk_types::{Access, SlotName};

/// The number of a block.
pub(crate) fn block(word: &[u8]) -> Option<u32>
    ensures { IsRead IsSmall block_word word.now result }
{
    read_u32(behind(b'b', word)?)
}

/// The call that creates a shader.
pub(crate) fn shader(word: &[u8]) -> Option<u32>
    ensures { IsRead IsSmall shader_word word.now result }
{
    read_u32(behind(b'p', word)?)
}

/// A range, of one byte at least.
pub(crate) fn range(word: &[u8]) -> Option<Range>
    ensures { IsRead IsReadRange range_word word.now result }
{
    let (number, places) = cut(word, b':');
    let (from, to) = cut(behind(b':', places)?, b'-');
    let range = Range {
        block: block(number)?,
        from: read_u64(from)?,
        to: read_u64(behind(b'-', to)?)?,
    };
    if range.from >= range.to {
        return None;
    }
    Some(range)
}

/// A word of memory, in eight lower-case hexadecimal digits.
pub(crate) fn memory_word(word: &[u8]) -> Option<u32>
    ensures { IsRead IsSmall hex_word word.now result }
{
    if !is_lower(word) {
        return None;
    }
    let bytes = <[u8; 4] as FromHex>::from_hex(word).ok()?;
    Some(u32::from_be_bytes(bytes))
}

/// An access.
pub(crate) fn access(word: &[u8]) -> Option<Access>
    ensures { IsRead (λ a. a.0 < 4) access_word word.now result }
{
    if is(word, b"-") {
        Some(Access::NONE)
    } else if is(word, b"r") {
        Some(Access::READ)
    } else if is(word, b"w") {
        Some(Access::WRITE)
    } else if is(word, b"rw") {
        Some(Access::READ_WRITE)
    } else {
        None
    }
}

/// The name of a slot.
pub(crate) fn slot_name(word: &[u8]) -> Option<SlotName>
    ensures { IsRead (λ s. slot_number s < 256) slot_word word.now result }
{
    match word {
        [b'c', number @ ..] => read_u8(number).map(SlotName::Constant),
        [b's', number @ ..] => read_u8(number).map(SlotName::Srv),
        [b'u', number @ ..] => read_u8(number).map(SlotName::Uav),
        _ => None,
    }
}

/// Where a slot stands among those of a dispatch.
pub(crate) fn rank(slot: SlotName) -> u32
    ensures rank { result ≡ slot_rank slot }
    ensures small { result < 768 }
{
    match slot {
        SlotName::Constant(number) => number as u32,
        SlotName::Srv(number) => 256 + number as u32,
        SlotName::Uav(number) => 512 + number as u32,
    }
}

/// The second command of a cause; none for the host.
pub(crate) fn second(word: &[u8]) -> Option<Option<u64>>
    ensures { IsRead FitsSecond second_word word.now result }
{
    if is(word, b"host") {
        return Some(None);
    }
    Some(Some(read_u64(word)?))
}
