ghost use Rattle.std.specs.Prelude.{◌≡◌, ◌+◌, ◌<◌, ◌↔◌, ◌||◌, [], length, map, suc, IfOk, IsTrue, OnOk, OnErr};
ghost use Rattle.std.specs.List.{list_all, list_any};
ghost use Rattle.immediate_ctx.specs.Flight.{Fits, IsPostOf, TakesFirst, awaited, is_snapped, last_upto, uses_block, view_of, with_sent, open_number};
ghost use Rattle.core_model.specs.OtherParts.{is_among};
ghost use Rattle.immediate_ctx.specs.declared.flight.Sent.{Sent};

use crate::same_places::same_places;
use dx_types::{BlockNo, CallNo, ChunkNo};
use std::alloc::{AllocError, Global};
use std::marker::Model;
use vk_types::{Placed, Post};

/// So many chunks may be on their way at once.
const MOST_ON_THEIR_WAY: usize = 32;

/// What is kept of a chunk that was handed over, until its Post is taken: its last call, where its items stand, and the blocks of
/// staging buffers that it uses. `named` are those of them that it does not destroy.
#[derive(Drop)]
pub struct Sent {
    pub upto: CallNo,
    pub placed: Vec<Placed>,
    pub used: Vec<BlockNo>,
    pub named: Vec<BlockNo>,
}

/// The chunks on their way, in order, and the Posts taken.
#[derive(Drop)]
pub struct Flight {
    taken: ChunkNo,
    done: CallNo,
    kept: Vec<Sent>,
}

impl Model for Flight {
    ghost use Rattle.std.specs.Prelude.{map};
    ghost use Rattle.immediate_ctx.specs.Flight.{OnTheirWay, view_of};

    ghost Value = { OnTheirWay };

    ghost view = { λ f. record { taken = f.taken; done = f.done; kept = map view_of f.kept.items } };
}

impl Flight {
    /// No chunk was handed over.
    pub fn new(alloc: Global) -> Flight
        ensures { result ≡ record { taken = 0; done = 0; kept = [] } }
    {
        Flight {
            taken: 0,
            done: 0,
            kept: Vec::new(alloc),
        }
    }

    /// How many Posts were taken.
    pub fn taken(&self) -> ChunkNo
        ensures { result ≡ self.now.taken }
    {
        self.taken
    }

    /// The last call that is finished, as the Posts taken show; 0 before the first.
    pub fn done(&self) -> CallNo
        ensures { result ≡ self.now.done }
    {
        self.done
    }

    /// The number of the chunk that was handed over last; 0 before the first. A want of memory where there is none.
    pub fn handed(&self) -> Result<ChunkNo, AllocError>
        ensures { IfOk result (λ n. n ≡ self.now.taken + length self.now.kept) }
    {
        match self.taken.checked_add(self.kept.len() as u64) {
            Some(number) => Ok(number),
            None => Err(AllocError),
        }
    }

    /// The number of the open chunk, which is the next to be handed over. A want of memory where there is none.
    pub fn next(&self) -> Result<ChunkNo, AllocError>
        ensures { IfOk result (λ n. n ≡ open_number self.now) }
    {
        let handed = self.handed()?;
        match handed.checked_add(1) {
            Some(number) => Ok(number),
            None => Err(AllocError),
        }
    }

    /// The last call of the chunk that was handed over last; 0 before the first.
    pub fn last(&self) -> CallNo
        ensures { result ≡ last_upto self.now }
    {
        match self.kept.last() {
            Some(sent) => sent.upto,
            None => self.done,
        }
    }

    /// The call that must be finished before one more chunk may be handed over, where 32 are on their way.
    pub fn awaited(&self) -> Option<CallNo>
        ensures { result ≡ awaited self.now }
    {
        let count = self.kept.len();
        if count < MOST_ON_THEIR_WAY {
            return None;
        }
        Some(self.kept[count - MOST_ON_THEIR_WAY].upto)
    }

    /// The chunk with the next number was handed over. A lack of memory changes nothing.
    pub fn hand(&mut self, sent: Sent) -> Result<(), AllocError>
        ensures ok { OnOk result (self.new ≡ with_sent (view_of sent) self.old) }
        ensures err { OnErr result (self.new ≡ self.old) }
    {
        self.kept.push(sent)?;
        Ok(())
    }

    /// Whether the Post is that of the chunk that was handed over first: it has the next number and the chunk's places, and copies of
    /// the staging buffers that this chunk uses and does not destroy, and that no later one uses.
    pub fn fits(&self, p: &Post) -> bool
        ensures { IsTrue result ↔ Fits self.now p.now }
    {
        match self.kept.split_first() {
            Some((first, later)) => is_post_of(self.taken, first, later, p),
            None => false,
        }
    }

    /// The Post of this number, the next one, was taken.
    pub fn take(&mut self, number: ChunkNo)
        requires some { 0 < length self.old.kept }
        requires next { number ≡ suc self.old.taken }
        ensures { TakesFirst self.old self.new }
    {
        let first = self.kept.remove(0);
        self.taken = number;
        self.done = first.upto;
    }
}

fn is_post_of(taken: ChunkNo, first: &Sent, later: &[Sent], p: &Post) -> bool
    ensures { IsTrue result ↔ IsPostOf (suc taken) (view_of first.now) (map view_of later.now) p.now }
{
    is_next(taken, p.number)
        && same_places(&p.placed, &first.placed)
        && has_copies(&first.named, later, p)
}

fn is_next(taken: ChunkNo, number: ChunkNo) -> bool
    ensures { IsTrue result ↔ (number ≡ suc taken) }
{
    number > taken && number - taken == 1
}

fn has_copies(named: &[BlockNo], later: &[Sent], p: &Post) -> bool
    ensures { result ≡ list_all (λ b. uses_block (map view_of later.now) b || is_snapped p.now b) named.now }
{
    named
        .iter()
        .all(|b| uses_block(later, *b) || is_snapped(p, *b))
}

fn uses_block(sent: &[Sent], block: BlockNo) -> bool
    ensures { result ≡ uses_block (map view_of sent.now) block }
{
    any_uses(sent, block)
}

fn any_uses(sent: &[Sent], block: BlockNo) -> bool
    ensures { result ≡ list_any (λ (s : Sent). is_among block s.used.items) sent.now }
{
    sent.iter().any(|s| is_used(block, s))
}

fn is_used(block: BlockNo, sent: &Sent) -> bool
    ensures { result ≡ is_among block sent.now.used.items }
{
    is_among(block, &sent.used)
}

/// Whether the block is one of these.
pub(crate) fn is_among(block: BlockNo, blocks: &[BlockNo]) -> bool
    ensures { result ≡ is_among block blocks.now }
{
    blocks.iter().any(|b| *b == block)
}

fn is_snapped(p: &Post, block: BlockNo) -> bool
    ensures { result ≡ is_snapped p.now block }
{
    p.snaps.iter().any(|s| s.block == block)
}
