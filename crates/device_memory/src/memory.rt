// The blocks that the device holds.

ghost use Rattle.std.specs.Prelude.{◌≡◌, ◌-◌, ◌==◌, ℕ, [], cond, length, is_some, None, Some, IfSome, OnOk, OnErr};
ghost use Rattle.std.specs.Option.{option_copied};
ghost use Rattle.vk_types.specs.Memory.{number_at, put};
ghost use Rattle.device_memory.specs.Held.{AreAlike, IsHeld, block_of, memory_of};

use crate::pieces::write_block;
use buffer_blocks::Block;
use dx_types::{BlockNo, Range};
use std::alloc::{AllocError, Global};
use std::collections::BTreeMap;
use std::marker::Model;

/// Blocks of device memory, each under its own number. A clause sees the list of them, by rising numbers.
#[derive(Drop)]
pub struct DeviceMemory {
    pub(crate) alloc: Global,
    pub(crate) blocks: BTreeMap<u32, Block>,
}

impl Model for DeviceMemory {
    ghost use Rattle.std.specs.List.{AllByRecursion};
    ghost use Rattle.device_memory.specs.Held.{Held, IsNumbered};

    ghost Value = { Held };

    ghost view = { λ m. m.blocks.entries };

    ghost invariant = { λ m. AllByRecursion IsNumbered m.blocks.entries };
}

impl DeviceMemory {
    /// No block is held.
    pub fn new(alloc: Global) -> DeviceMemory
        ensures { result ≡ [] }
    {
        DeviceMemory {
            alloc,
            blocks: BTreeMap::new(alloc),
        }
    }

    /// The block of a number, None exactly where none is held.
    pub fn block(&self, number: BlockNo) -> Option<&Block>
        ensures value { option_copied result ≡ block_of self.now number }
        ensures number { IfSome result (λ b. b.now.number ≡ number) }
    {
        self.blocks.get(&number)
    }

    /// Whether the block of a number is held.
    pub fn holds(&self, number: BlockNo) -> bool
        ensures { result ≡ is_some (block_of self.now number) }
    {
        self.blocks.contains_key(&number)
    }

    /// Holds a block more. A lack of memory changes nothing, and lets the block go.
    pub fn add(&mut self, block: Block) -> Result<(), AllocError>
        requires { block_of self.old block.number ≡ None }
        ensures ok { OnOk result ((n : ℕ) → block_of self.new n ≡ cond (n == block.number) (Some block) (block_of self.old n)) }
        ensures err { OnErr result (self.new ≡ self.old) }
    {
        self.blocks.insert(block.number, block)?;
        Ok(())
    }

    /// Lets a block go from what is held.
    pub fn take(&mut self, number: BlockNo) -> Option<Block>
        ensures block { result ≡ block_of self.old number }
        ensures rest { (n : ℕ) → block_of self.new n ≡ cond (n == number) None (block_of self.old n) }
    {
        self.blocks.remove(&number)
    }

    /// The host writes these bytes, as many as the range has.
    pub fn write(&mut self, target: &Range, bytes: &[u8])
        requires target { IsHeld self.old target.now }
        requires bytes { length bytes.now ≡ target.now.to - target.now.from }
        ensures memory { memory_of self.new ≡ put target.now (number_at bytes.now) (memory_of self.old) }
        ensures alike { AreAlike self.old self.new }
    {
        match self.blocks.get_mut(&target.block) {
            Some(block) => write_block(block, target.from, target.to, bytes),
            None => unreachable!(),
        }
    }
}
