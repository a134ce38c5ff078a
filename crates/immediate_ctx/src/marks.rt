ghost use Rattle.std.specs.Prelude.{◌≡◌, OnOk, OnErr};
ghost use Rattle.base_lemmas.specs.IdMap as ids;

use dx_types::{BlockNo, ChunkNo};
use std::alloc::{AllocError, Global};
use std::collections::BTreeMap;
use std::marker::Model;

/// The blocks of dynamic buffers that chunks marked and that no call took since, each with the chunk that marked it.
#[derive(Drop)]
pub struct Marks {
    chunks: BTreeMap<BlockNo, ChunkNo>,
}

impl Model for Marks {
    ghost use Rattle.base_lemmas.specs.CodeMap.{map_of};
    ghost use Rattle.immediate_ctx.specs.Tables as tables;

    ghost Value = { tables.Numbers };

    ghost coded = { tables.numbers_code };

    ghost view = { λ m. map_of (λ k. k) m.chunks.entries };
}

impl Marks {
    /// No block is marked.
    pub fn new(alloc: Global) -> Marks
        ensures { result ≡ ids.empty }
    {
        Marks {
            chunks: BTreeMap::new(alloc),
        }
    }

    /// The chunk that marked the block, if no call took it since.
    pub fn chunk_of(&self, block: BlockNo) -> Option<ChunkNo>
        ensures { result ≡ ids.get self.now block }
    {
        self.chunks.get(&block).copied()
    }

    /// A chunk marks the block. A lack of memory changes nothing.
    pub fn mark(&mut self, block: BlockNo, chunk: ChunkNo) -> Result<(), AllocError>
        ensures ok { OnOk result (self.new ≡ ids.insert self.old block chunk) }
        ensures err { OnErr result (self.new ≡ self.old) }
    {
        self.chunks.insert(block, chunk)?;
        Ok(())
    }

    /// A call takes the block.
    pub fn take(&mut self, block: BlockNo)
        ensures { self.new ≡ ids.remove self.old block }
    {
        self.chunks.remove(&block);
    }
}
