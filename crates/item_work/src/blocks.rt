ghost use Rattle.std.specs.Prelude.{◌≡◌, OnErr, OnOk};
ghost use Rattle.base_lemmas.specs.IdMap as ids;

use dx_types::BlockNo;
use std::alloc::{AllocError, Global};
use std::collections::BTreeMap;
use std::marker::Model;

/// The block of each live buffer by the buffer's id. A clause sees the map of them.
#[derive(Drop)]
pub struct BufferBlocks {
    blocks: BTreeMap<u32, BlockNo>,
}

impl Model for BufferBlocks {
    ghost use Rattle.base_lemmas.specs.CodeMap.{map_of};
    ghost use Rattle.item_work.specs.Placed as placed;

    ghost Value = { placed.IdBlocks };

    ghost coded = { placed.blocks_code };

    ghost view = { λ b. map_of (λ n. n) b.blocks.entries };
}

impl BufferBlocks {
    /// No buffer is live.
    pub fn new(alloc: Global) -> BufferBlocks
        ensures { result ≡ ids.empty }
    {
        BufferBlocks {
            blocks: BTreeMap::new(alloc),
        }
    }

    /// The block of a live buffer.
    pub fn get(&self, id: u32) -> Option<BlockNo>
        ensures { result ≡ ids.get self.now id }
    {
        self.blocks.get(&id).copied()
    }

    /// A buffer stands in this block from now on. Want of memory changes nothing.
    pub fn insert(&mut self, id: u32, block: BlockNo) -> Result<(), AllocError>
        ensures inserted { OnOk result (self.new ≡ ids.insert self.old id block) }
        ensures unchanged { OnErr result (self.new ≡ self.old) }
    {
        self.blocks.insert(id, block)?;
        Ok(())
    }

    /// A buffer is live no more. The answer is the block in which it stood.
    pub fn remove(&mut self, id: u32) -> Option<BlockNo>
        ensures value { result ≡ ids.get self.old id }
        ensures removed { self.new ≡ ids.remove self.old id }
    {
        self.blocks.remove(&id)
    }
}
