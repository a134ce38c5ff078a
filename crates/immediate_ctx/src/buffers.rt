ghost use Rattle.std.specs.Prelude.{◌≡◌, OnErr, OnOk};
ghost use Rattle.base_lemmas.specs.IdMap as ids;

use dx_types::BlockNo;
use std::alloc::{AllocError, Global};
use std::collections::BTreeMap;
use std::marker::Model;

/// What is kept of a live buffer: the block where it stands, its size in bytes, its class if it is dynamic, and whether it is a
/// staging buffer.
#[derive(Clone, Copy, Debug)]
pub struct Buffer {
    pub block: BlockNo,
    pub size: u64,
    pub class: Option<usize>,
    pub is_staging: bool,
}

/// The live buffers, by their ids.
#[derive(Drop)]
pub struct Buffers {
    live: BTreeMap<u32, Buffer>,
}

impl Model for Buffers {
    ghost use Rattle.base_lemmas.specs.CodeMap.{map_of};
    ghost use Rattle.immediate_ctx.specs.Buffers as buffers;

    ghost Value = { buffers.Live };

    ghost coded = { buffers.live_code };

    ghost view = { λ b. map_of (λ x. x) b.live.entries };
}

impl Buffers {
    /// No buffer is live.
    pub fn new(alloc: Global) -> Buffers
        ensures { result ≡ ids.empty }
    {
        Buffers {
            live: BTreeMap::new(alloc),
        }
    }

    /// What is kept of a live buffer.
    pub fn get(&self, id: u32) -> Option<Buffer>
        ensures { result ≡ ids.get self.now id }
    {
        self.live.get(&id).copied()
    }

    /// The buffer is live, and this is kept of it from now on. Want of memory changes nothing.
    pub fn insert(&mut self, id: u32, buffer: Buffer) -> Result<(), AllocError>
        ensures ok { OnOk result (self.new ≡ ids.insert self.old id buffer) }
        ensures err { OnErr result (self.new ≡ self.old) }
    {
        self.live.insert(id, buffer)?;
        Ok(())
    }

    /// The buffer is live no more.
    pub fn remove(&mut self, id: u32)
        ensures { self.new ≡ ids.remove self.old id }
    {
        self.live.remove(&id);
    }
}
