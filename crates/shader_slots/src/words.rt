// The words of little-endian bytes.

ghost use Rattle.std.specs.Prelude.{ℕ, ◌≡◌, ◌<◌, length, slice_index, slice_set};
ghost use Rattle.base_lemmas.specs.ByteWords.{words_of};

use byteorder::{ByteOrder, LittleEndian};

/// How many words there are; up to three last bytes make none.
pub fn len(bytes: &[u8]) -> usize
    ensures { result ≡ length (words_of bytes.now) }
{
    bytes.len() / 4
}

/// Each word has 32 bits.
pub fn have_bits(bytes: &[u8])
    ensures { (i : ℕ) → slice_index (words_of bytes.now) i < 4294967296 }
{
    let _count = bytes.len();
}

/// The word at a place.
pub fn word(bytes: &[u8], i: usize) -> u32
    requires { i < length (words_of bytes.now) }
    ensures { result ≡ slice_index (words_of bytes.now) i }
{
    LittleEndian::read_u32(&bytes[4 * i..])
}

/// Sets the word at a place.
pub fn set_word(bytes: &mut [u8], i: usize, value: u32)
    requires { i < length (words_of bytes.old) }
    ensures { words_of bytes.new ≡ slice_set (words_of bytes.old) i value }
{
    LittleEndian::write_u32(&mut bytes[4 * i..], value);
}
