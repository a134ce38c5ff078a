//! The words that the log carries, and their bytes.

ghost use Rattle.std.specs.Prelude.{◌≡◌, ◌≤◌, IfOk};
ghost use Rattle.call_log.specs.Put.{spell_words};
ghost use Rattle.dx_types.specs.declared.limits.TheConstants.{MAX_ROUNDS};
ghost use Rattle.histogram_log.specs.Histogram.{input_word, input_words, shader_tokens};

use byteorder::{ByteOrder, LittleEndian};
use std::alloc::{AllocError, Global};

// The numbers that there are of 32 bits.
const WORDS: u64 = 4_294_967_296;

// The values of a discard.
const VALUES: u32 = 64;

const SHADER_TOKENS: [u32; 65] = [
    0x1, 0x41, 0x401, 0x40, 0x1, 0x1, 0x202, 0x1, 0x203, 0x0, 0x404, 0x0, 0x0, 0x0, 0x405, 0x0,
    0x0, 0x0, 0x820, 0x10, 0x3, 0x1, 0x2, 0x0, 0x0, 0x0, 0x430, 0x10, 0x0, 0x0, 0x512, 0x10, 0x0,
    0x2, 0x0, 0x81c, 0x10, 0x0, 0x1, 0xff, 0x0, 0x0, 0x0, 0x820, 0x10, 0x0, 0x1, 0x2, 0x0, 0x0,
    0x0, 0xe38, 0x7, 0x100, 0x0, 0x1, 0x0, 0x0, 0x0, 0x0, 0x1, 0x1, 0x0, 0x0, 0x0,
];

/// The bytes of the shader's tokens.
pub(crate) fn shader_bytes(alloc: Global) -> Result<Vec<u8>, AllocError>
    ensures { IfOk result (λ bytes. bytes.items ≡ spell_words shader_tokens) }
{
    bytes_of(alloc, &SHADER_TOKENS)
}

/// The bytes of the values that a discard of round i writes.
pub(crate) fn input_bytes(alloc: Global, i: u32) -> Result<Vec<u8>, AllocError>
    requires { i ≤ MAX_ROUNDS }
    ensures { IfOk result (λ bytes. bytes.items ≡ spell_words (input_words i 64)) }
{
    let words = input_words(alloc, i)?;
    bytes_of(alloc, &words)
}

/// The bytes of some words.
pub(crate) fn bytes_of(alloc: Global, words: &[u32]) -> Result<Vec<u8>, AllocError>
    ensures { IfOk result (λ bytes. bytes.items ≡ spell_words words.now) }
{
    let mut spelt = Vec::new(alloc);
    'words: for word in words {
        let mut bytes = [0; 4];
        LittleEndian::write_u32(&mut bytes, *word);
        spelt.extend_from_slice(&bytes)?;
    }
    Ok(spelt)
}

fn input_words(alloc: Global, i: u32) -> Result<Vec<u32>, AllocError>
    requires { i ≤ MAX_ROUNDS }
    ensures { IfOk result (λ words. words.items ≡ input_words i 64) }
{
    let mut words = Vec::new(alloc);
    'values: for j in 0..VALUES {
        words.push(input_word(i, j))?;
    }
    Ok(words)
}

fn input_word(i: u32, j: u32) -> u32
    requires round { i ≤ MAX_ROUNDS }
    requires value { j ≤ VALUES }
    ensures { result ≡ input_word i j }
{
    ((u64::from(i) * 2_654_435_761 + u64::from(j) * 40_503) % WORDS) as u32
}
