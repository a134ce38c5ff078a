ghost use Rattle.std.specs.Prelude.{◌≡◌, ◌≤◌, false, length, map, IfOk, OnOk, None};
ghost use Rattle.std.specs.Option.{option_map};
ghost use Rattle.dx_types.specs.declared.limits.TheConstants.{MAX_BUFFER_SIZE};
ghost use Rattle.buffer_blocks.specs.declared.block.Block.{Block};
ghost use Rattle.cs_chunk.specs.Chunk.{entries_of, pages_of};
ghost use Rattle.chunk_parts.specs.Chunks.{placed_of};
ghost use Rattle.immediate_ctx.specs.Due.{is_due_by, is_full_by};
ghost use Rattle.immediate_ctx.specs.Flight.{view_of};
ghost use Rattle.immediate_ctx.specs.OpenChunk.{nothing_filled, once_more, staged_by, with_entry, with_use, without};
ghost use Rattle.immediate_ctx.specs.Staging.{Stages, put_by};

use crate::counts::Counts;
use crate::flight::{Sent, is_among};
use crate::staging::Staging;
use buffer_blocks::Block;
use cs_chunk::{Chunk, Entry};
use dx_types::{BlockNo, CallNo, ChunkNo, Range};
use std::alloc::{AllocError, Global};
use std::marker::Model;
use vk_types::Placed;

/// The open chunk, with what is kept of it once it is handed over. It has its number from then on.
#[derive(Drop)]
pub struct OpenChunk {
    chunk: Chunk,
    counts: Counts,
    placed: Vec<Placed>,
    used: Vec<BlockNo>,
    named: Vec<BlockNo>,
}

impl Model for OpenChunk {
    ghost use Rattle.cs_chunk.specs.Chunk.{entries_of, pages_of};
    ghost use Rattle.immediate_ctx.specs.OpenChunk.{Filled, IsKept};

    ghost Value = { Filled };

    ghost view = { λ o. record {
      entries = entries_of o.chunk;
      pages = pages_of o.chunk;
      counts = o.counts;
      placed = o.placed.items;
      used = o.used.items;
      named = o.named.items;
    } };

    ghost invariant = { λ o. IsKept (entries_of o.chunk) o.counts.entries o.placed.items };
}

impl OpenChunk {
    /// A chunk without entries.
    pub fn new(alloc: Global) -> Result<OpenChunk, AllocError>
        ensures { IfOk result (λ o. o ≡ nothing_filled) }
    {
        let chunk = Chunk::new(alloc, 0)?;
        Ok(OpenChunk {
            chunk,
            counts: Counts::new(),
            placed: Vec::new(alloc),
            used: Vec::new(alloc),
            named: Vec::new(alloc),
        })
    }

    /// Adds an entry, which retires the block of a dynamic buffer or doesn't. The chunk isn't full.
    pub fn add(&mut self, e: Entry, retires: bool) -> Result<(), AllocError>
        requires room { is_full_by self.old.counts ≡ false }
        requires staged { staged_by e.staged ≤ MAX_BUFFER_SIZE }
        ensures { OnOk result (self.new ≡ with_entry e retires self.old) }
    {
        self.placed.push(placed_of(&e))?;
        self.counts.add(retires, staged_by(e.staged));
        match self.chunk.add(e) {
            Ok(()) => Ok(()),
            Err(_) => Err(AllocError),
        }
    }

    /// Stages bytes for an entry, and gives the range where they stand.
    pub fn stage(&mut self, staging: &mut Staging, bytes: &[u8]) -> Result<Range, AllocError>
        requires { length bytes.now ≤ MAX_BUFFER_SIZE }
        ensures pages { IfOk result (λ r. Stages bytes.now staging.old self.old.pages r staging.new self.new.pages) }
        ensures rest { OnOk result (self.new ≡ record self.old { pages = self.new.pages }) }
    {
        staging.stage(&mut self.chunk, bytes)
    }

    /// Whether the chunk is due. `in_list`: a list is running. `stops`: an accepted readback, question or flush comes next, or
    /// nothing.
    pub fn is_due(&self, in_list: bool, stops: bool) -> bool
        ensures { result ≡ is_due_by self.now.counts in_list stops }
    {
        self.counts.is_due(in_list, stops)
    }

    /// An item uses the block of a staging buffer.
    pub fn uses(&mut self, block: BlockNo) -> Result<(), AllocError>
        ensures { OnOk result (self.new ≡ with_use block self.old) }
    {
        add_once(&mut self.used, block)?;
        add_once(&mut self.named, block)
    }

    /// The buffer of the block is destroyed: the chunk doesn't name it any more.
    pub fn destroys(&mut self, block: BlockNo)
        ensures { self.new ≡ record self.old { named = without block self.old.named } }
    {
        self.named.retain(|b| *b != block);
    }

    /// The chunk is handed over, with this number and up to this call, and with the newest page behind its others: the chunk, and
    /// what is kept of it.
    pub fn close(
        self,
        staging: &mut Staging,
        number: ChunkNo,
        upto: CallNo,
    ) -> Result<(Chunk, Sent), AllocError>
        ensures number { IfOk result (λ r. r.0.number ≡ number) }
        ensures upto { IfOk result (λ r. r.0.upto ≡ upto) }
        ensures entries { IfOk result (λ r. entries_of r.0 ≡ self.entries) }
        ensures places { IfOk result (λ r. map placed_of (entries_of r.0) ≡ self.placed) }
        ensures pages { IfOk result (λ r. pages_of r.0 ≡ put_by self.pages staging.old.newest) }
        ensures kept { IfOk result (λ r. view_of r.1
            ≡ record { upto = upto; placed = self.placed; used = self.used; named = self.named }) }
        ensures staging { OnOk result (staging.new ≡ record staging.old { newest = None }) }
    {
        let OpenChunk {
            mut chunk,
            counts: _,
            placed,
            used,
            named,
        } = self;
        staging.close(&mut chunk)?;
        chunk.number = number;
        chunk.upto = upto;
        let sent = Sent {
            upto,
            placed,
            used,
            named,
        };
        Ok((chunk, sent))
    }
}

fn placed_of(e: &Entry) -> Placed
    ensures { result ≡ placed_of e.now }
{
    Placed {
        call: e.call,
        item: e.item,
        block: number_of(&e.block),
        mark: e.mark,
        staged: e.staged,
    }
}

fn number_of(block: &Option<Block>) -> Option<BlockNo>
    ensures { result ≡ option_map (λ (b : Block). b.number) block.now }
{
    match block {
        Some(block) => Some(block.number),
        None => None,
    }
}

fn staged_by(staged: Option<Range>) -> u64
    ensures { result ≡ staged_by staged }
{
    match staged {
        Some(range) => range.to.saturating_sub(range.from),
        None => 0,
    }
}

fn add_once(blocks: &mut Vec<BlockNo>, block: BlockNo) -> Result<(), AllocError>
    ensures { OnOk result (blocks.new.items ≡ once_more block blocks.old.items) }
{
    if !is_among(block, blocks) {
        blocks.push(block)?;
    }
    Ok(())
}
