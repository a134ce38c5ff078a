// What the tests are made of: bytes, shaders, and parts of buffers.

use shader_model::Shader;
use shader_slots::Whole;
use shader_tokens::{ShaderEnd, decode};
use std::alloc::{AllocError, Global};
use std::test::Fail;

/// The bytes of words.
pub fn bytes_of(alloc: Global, words: &[u32]) -> Result<Vec<u8>, AllocError> {
    let mut bytes = Vec::new(alloc);
    for word in words {
        bytes.extend_from_slice(&word.to_le_bytes())?;
    }
    Ok(bytes)
}

/// The bytes of a shader of these items.
pub fn shader_bytes(alloc: Global, items: &[u32]) -> Result<Vec<u8>, AllocError> {
    let count = u32::try_from(items.len()).unwrap_or(0).wrapping_add(2);
    let mut bytes = bytes_of(alloc, &[1, count])?;
    for item in items {
        bytes.extend_from_slice(&item.to_le_bytes())?;
    }
    Ok(bytes)
}

/// The shader of these items.
pub fn shader_of(alloc: Global, items: &[u32]) -> Result<Shader, ShaderEnd> {
    let bytes = shader_bytes(alloc, items)?;
    decode(alloc, &bytes)
}

/// Bytes with a part of them.
pub fn part(alloc: Global, bytes: &[u8], from: usize, to: usize) -> Result<Whole, Fail> {
    let bytes = bytes.to_vec(alloc)?;
    if from > to || to > bytes.len() || (to - from) % 4 != 0 || to - from > 16_777_216 {
        return Err("no part".into());
    }
    Ok(Whole::new(bytes, from, to))
}
