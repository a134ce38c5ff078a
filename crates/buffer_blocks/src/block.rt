ghost use Rattle.std.specs.Prelude.{◌≡◌, ◌≤◌, ◌++◌, [], length, replicate, take, drop, slice_range, IfOk};
ghost use Rattle.std.specs.Borrow.{sem, LendsBoth, Array, u8};
ghost use Rattle.buffer_blocks.specs.Block.{bytes_of, with_bytes, LendsPart, LendsHalves};

use crate::bytes::Bytes;
use dx_types::{BlockNo, ChunkNo};
use std::alloc::{AllocError, Global};

/// A block of device memory, with the number of the chunk that retired it last.
#[derive(Drop)]
pub struct Block {
    pub number: BlockNo,
    pub retired: ChunkNo,
    bytes: Bytes,
}

impl Block {
    /// A block of `len` bytes, all 0, that no chunk has retired.
    pub fn new(alloc: Global, number: BlockNo, len: u64) -> Result<Block, AllocError>
        ensures number { IfOk result (λ b. b.number ≡ number) }
        ensures retired { IfOk result (λ b. b.retired ≡ 0) }
        ensures bytes { IfOk result (λ b. bytes_of b ≡ replicate len 0) }
    {
        let bytes = Bytes::zeros(alloc, len as usize)?;
        Ok(Block {
            number,
            retired: 0,
            bytes,
        })
    }

    /// How many bytes the block has.
    pub fn len(&self) -> u64
        ensures { result ≡ length (bytes_of self.now) }
    {
        self.bytes.len() as u64
    }

    /// The bytes from `from` to just before `to`.
    pub fn part(&self, from: u64, to: u64) -> &[u8]
        requires order { from ≤ to }
        requires within { to ≤ length (bytes_of self.now) }
        ensures { result.now ≡ slice_range (bytes_of self.now) from to }
    {
        self.bytes.part(from as usize, to as usize)
    }

    /// The bytes from `from` to just before `to`, to be written.
    pub fn part_mut(&mut self, from: u64, to: u64) -> &mut [u8]
        requires order { from ≤ to }
        requires within { to ≤ length (bytes_of self.old) }
        ensures* writes_back { sem 𝓛 (LendsPart self.entry from result) }
        ensures value { result.now ≡ slice_range (bytes_of self.old) from to }
    {
        self.bytes.part_mut(from as usize, to as usize)
    }

    /// All bytes in two parts, to be written: those before byte `at`, and the rest.
    pub fn split_parts(&mut self, at: u64) -> (&mut [u8], &mut [u8])
        requires { at ≤ length (bytes_of self.old) }
        ensures* writes_back { sem 𝓛 (LendsHalves self.entry result) }
        ensures front { result.0.now ≡ take at (bytes_of self.old) }
        ensures back { result.1.now ≡ drop at (bytes_of self.old) }
    {
        split_slice(self.as_mut_slice(), at)
    }

    /// Takes all bytes out without a copy; the block has none until they are put back.
    pub fn take_bytes(&mut self) -> Vec<u8>
        ensures bytes { result.items ≡ bytes_of self.old }
        ensures rest { self.new ≡ with_bytes self.old [] }
    {
        self.bytes.take()
    }

    /// Puts bytes into the block in place of those that it has.
    pub fn put_bytes(&mut self, bytes: Vec<u8>)
        ensures { self.new ≡ with_bytes self.old bytes.items }
    {
        self.bytes.put(bytes);
    }

    fn as_mut_slice(&mut self) -> &mut [u8]
        ensures* writes_back { sem 𝓛 (LendsPart self.entry 0 result) }
        ensures value { result.now ≡ bytes_of self.old }
    {
        self.bytes.as_mut_slice()
    }
}

fn split_slice(bytes: &mut [u8], at: u64) -> (&mut [u8], &mut [u8])
    requires { at ≤ length bytes.old }
    ensures* writes_back { sem 𝓛 (LendsBoth (Array u8 0) (Array u8 0) (Array u8 0) bytes.entry result ◌++◌) }
    ensures front { result.0.now ≡ take at bytes.old }
    ensures back { result.1.now ≡ drop at bytes.old }
{
    bytes.split_at_mut(at as usize)
}
