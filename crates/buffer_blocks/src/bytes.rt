ghost use Rattle.std.specs.Prelude.{◌≡◌, ◌≤◌, [], length, replicate, slice_range, IfOk};
ghost use Rattle.std.specs.Borrow.{sem};
ghost use Rattle.buffer_blocks.specs.BytesLent.{LendsBytes};

use std::alloc::{AllocError, Global};
use std::marker::Model;
use std::mem;

/// The bytes of a block. A clause sees the list of them.
#[derive(Drop)]
pub struct Bytes {
    list: Vec<u8>,
}

impl Model for Bytes {
    ghost use Rattle.std.specs.Prelude.{List, ℕ};

    ghost Value = { List ℕ };

    ghost view = { λ b. b.list.items };
}

impl Bytes {
    pub fn zeros(alloc: Global, len: usize) -> Result<Bytes, AllocError>
        ensures { IfOk result (λ b. b ≡ replicate len 0) }
    {
        let list = vec![in alloc; 0; len]?;
        Ok(Bytes { list })
    }

    pub fn len(&self) -> usize
        ensures { result ≡ length self.now }
    {
        self.list.len()
    }

    pub fn part(&self, from: usize, to: usize) -> &[u8]
        requires order { from ≤ to }
        requires within { to ≤ length self.now }
        ensures { result.now ≡ slice_range self.now from to }
    {
        &self.list[from..to]
    }

    pub fn part_mut(&mut self, from: usize, to: usize) -> &mut [u8]
        requires order { from ≤ to }
        requires within { to ≤ length self.old }
        ensures* writes_back { sem 𝓛 (LendsBytes self.entry from result) }
        ensures value { result.now ≡ slice_range self.old from to }
    {
        self.list.slice_mut(from..to)
    }

    pub fn as_mut_slice(&mut self) -> &mut [u8]
        ensures* writes_back { sem 𝓛 (LendsBytes self.entry 0 result) }
        ensures value { result.now ≡ self.old }
    {
        self.list.as_mut_slice()
    }

    /// All bytes, of which none is left.
    pub fn take(&mut self) -> Vec<u8>
        ensures bytes { result.items ≡ self.old }
        ensures rest { self.new ≡ [] }
    {
        let alloc = *self.list.allocator();
        mem::replace(&mut self.list, Vec::new(alloc))
    }

    /// These bytes in place of those that there were.
    pub fn put(&mut self, list: Vec<u8>)
        ensures { self.new ≡ list.items }
    {
        self.list = list;
    }
}
