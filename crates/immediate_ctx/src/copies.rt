ghost use Rattle.std.specs.Prelude.{◌≡◌, OnOk, OnErr};
ghost use Rattle.std.specs.Option.{option_copied};
ghost use Rattle.base_lemmas.specs.IdMap as ids;
ghost use Rattle.immediate_ctx.specs.Tables.{with_snaps};

use dx_types::{BlockNo, ByteList};
use std::alloc::{AllocError, Global};
use std::collections::BTreeMap;
use std::marker::Model;
use vk_types::Snap;

/// The newest copy of each staging buffer's block that Posts brought one of.
#[derive(Drop)]
pub struct Copies {
    blocks: BTreeMap<BlockNo, ByteList>,
}

impl Model for Copies {
    ghost use Rattle.base_lemmas.specs.CodeMap.{map_of};
    ghost use Rattle.immediate_ctx.specs.Tables as tables;

    ghost Value = { tables.Bytes };

    ghost coded = { tables.bytes_code };

    ghost view = { λ c. map_of (λ bytes. bytes) c.blocks.entries };
}

impl Copies {
    /// No block has a copy.
    pub fn new(alloc: Global) -> Copies
        ensures { result ≡ ids.empty }
    {
        Copies {
            blocks: BTreeMap::new(alloc),
        }
    }

    /// The newest copy of the block, lent.
    pub fn of(&self, block: BlockNo) -> Option<&ByteList>
        ensures { option_copied result ≡ ids.get self.now block }
    {
        self.blocks.get(&block)
    }

    /// The copies that a Post brings, the later ones in place of the earlier. They are moved.
    pub fn bring(&mut self, snaps: Vec<Snap>) -> Result<(), AllocError>
        ensures { OnOk result (self.new ≡ with_snaps self.old snaps.items) }
    {
        'each: for s in snaps {
            self.set(s)?;
        }
        Ok(())
    }

    /// The buffer of this block is destroyed: its copy goes.
    pub fn forget(&mut self, block: BlockNo)
        ensures { self.new ≡ ids.remove self.old block }
    {
        self.blocks.remove(&block);
    }

    fn set(&mut self, s: Snap) -> Result<(), AllocError>
        ensures { OnOk result (self.new ≡ ids.insert self.old s.block s.bytes) }
    {
        let Snap { block, bytes } = s;
        self.blocks.insert(block, bytes)?;
        Ok(())
    }
}
