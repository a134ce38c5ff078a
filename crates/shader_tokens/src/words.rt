// The words of little-endian bytes, and the parts of a word.

ghost use Rattle.std.specs.Prelude.{◌≡◌, ◌≤◌, ◌<◌, ◌∷◌, length, take, drop, slice_index};
ghost use Rattle.shader_model.specs.Words.{bits};
ghost use Rattle.base_lemmas.specs.ByteWords.{words_of};

/// How many words there are; up to three last bytes make none.
pub fn len(bytes: &[u8]) -> usize
    ensures { result ≡ length (words_of bytes.now) }
{
    bytes.len() / 4
}

/// What stands behind so many words, nothing where there are fewer.
pub fn behind(bytes: &[u8], count: usize) -> &[u8]
    ensures { words_of result.now ≡ drop count (words_of bytes.now) }
{
    &bytes[4 * count.min(bytes.len() / 4)..]
}

/// So many words from the front, all where there are fewer.
pub fn front(bytes: &[u8], count: usize) -> &[u8]
    ensures { words_of result.now ≡ take count (words_of bytes.now) }
{
    &bytes[..4 * count.min(bytes.len() / 4)]
}

/// The word at a place, 0 behind the last one.
pub fn word(bytes: &[u8], place: usize) -> u32
    ensures { result ≡ slice_index (words_of bytes.now) place }
{
    let rest = behind(bytes, place);
    if rest.len() < 4 {
        0
    } else {
        u32::from_le_bytes([rest[0], rest[1], rest[2], rest[3]])
    }
}

/// So many bits of a word, from a bit on.
pub fn bits(from: u32, count: u32, word: u32) -> u32
    requires from_in { from < 32 }
    requires count_in { count < 32 }
    ensures { result ≡ bits from count word }
{
    (word >> from) % (1 << count)
}
