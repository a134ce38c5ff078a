ghost use Rattle.std.specs.Prelude.{◌≡◌, ◌≢◌, ℕ, ◌+◌, ◌*◌, ◌/◌, ◌%◌, ◌^◌, ◌<◌, ◌≤◌, length, Some, None, IfOk, IfErr, OnOk, OnErr, MatchResult, MatchOption};
ghost use Rattle.buffer_blocks.specs.Block.{bytes_of};
ghost use Rattle.dx_types.specs.Classes.{class_length};
ghost use Rattle.slice_board.specs.Hands.{newcomer, empty_pool, with_read};
ghost use Rattle.slice_board.specs.Steps.{KnowsDone};
ghost use Rattle.slice_board.specs.Calls.{TakeGives, Given, FoundFull, TakenAt, NotTakenAt, GivenAt, NotGivenAt, Raised};
ghost use Rattle.dx_types.specs.declared.limits.TheConstants.{CLASSES};

use crate::rule::{Empties, Fills, Hand, Places, Raises, Reads, Seats, TriesGive, TriesTake};
use atomic_table::{Seat, Table};
use buffer_blocks::Block;
use dx_types::ChunkNo;
use dx_types::limits::CLASS_BLOCKS;
use std::alloc::{AllocError, Global};
use std::marker::Model;

/// The word of a place that has no block and that no seat holds.
const VACANT: u64 = 0;

/// The word of a place that a seat holds.
const BUSY: u64 = 1;

/// The word of the greatest number that was raised. The word of place k is k + 1, and word 0 is not used.
const DONE: usize = 513;

/// All bits but bit 1, which is set in the words of free places alone.
const NOT_FREE: u64 = 0xffff_ffff_ffff_fffd;

/// What a call of `take` found.
#[derive(Drop)]
pub enum Take {
    /// A block that was at home.
    Got(Block),
    /// No place that was looked at had a block, and so many were.
    NoneFree { looked: u32 },
}

/// Blocks at home, shared by any number of seats.
#[derive(Drop)]
pub struct Board {
    table: Table<Option<Block>, Hand, (), Places, Global>,
}

impl Model for Board {
    ghost use Rattle.std.specs.Prelude.{◌≡◌};
    ghost use Rattle.atomic_table.specs.Seated.{TableId, table_id_coded};

    ghost Value = { TableId };

    ghost coded = { table_id_coded };

    ghost view = { λ b. b.table.shared.table_id };

    ghost invariant = { λ b. (b.table.shared.table_id.words ≡ 514) × (b.table.shared.table_id.slots ≡ 512) };
}

/// The right of one thread to take and give, and what it knows of the board.
#[derive(Drop)]
pub struct BoardSeat {
    seat: Seat<Option<Block>, Hand>,
}

impl Model for BoardSeat {
    ghost use Rattle.std.specs.Prelude.{◌≡◌, ◌<◌, [], None};
    ghost use Rattle.slice_board.specs.Calls.{Seated};

    ghost Value = { Seated };

    ghost view = { λ s. record { board = s.seat.table_id; hand = s.seat.me.0 } };

    ghost invariant = { λ s. (s.seat.me.1 ≡ []) × (s.seat.me.0.held ≡ None) × (s.seat.me.0.read < 4611686018427387904) };
}

impl Board {
    /// A board with no block at home, and its one seat, which knows that.
    pub fn new(alloc: Global) -> Result<(Board, BoardSeat), AllocError>
        ensures board { IfOk result (λ r. r.1.board ≡ r.0) }
        ensures hand { IfOk result (λ r. r.1.hand ≡ newcomer (Some empty_pool)) }
    {
        let words = Vec::from_elem(alloc, 0u64, 514)?;
        let (table, seat) = Table::vacant(alloc, words.as_slice(), 512, &())?;
        Ok((Board { table }, BoardSeat { seat }))
    }

    /// Another seat. From now on no seat knows the whole pool.
    pub fn split(&self, seat: &mut BoardSeat) -> BoardSeat
        requires { seat.old.board ≡ self.now }
        ensures old { seat.new ≡ record { board = self.now; hand = record seat.old.hand { pool = None } } }
        ensures new { result ≡ record { board = self.now; hand = newcomer None } }
    {
        BoardSeat {
            seat: self.table.shared.split_seat::<Seats>(&mut seat.seat),
        }
    }

    /// Ends the other seat. No seat knows the pool from then on either.
    pub fn join(&self, seat: &mut BoardSeat, other: BoardSeat)
        requires first { seat.old.board ≡ self.now }
        requires second { other.board ≡ self.now }
        ensures { seat.new ≡ seat.old }
    {
        let BoardSeat { seat: spent } = other;
        self.table.shared.join_seat::<Seats>(&mut seat.seat, spent);
    }

    /// The greatest number that was raised.
    pub fn done(&self, seat: &mut BoardSeat) -> ChunkNo
        requires { seat.old.board ≡ self.now }
        ensures seat { seat.new ≡ record { board = self.now; hand = with_read seat.old.hand result } }
        ensures done { KnowsDone result seat.old.hand }
    {
        self.table.shared.load::<Reads>(&mut seat.seat, DONE)
    }

    /// Raises the number to `k`, if it is less.
    pub fn raise_done(&self, seat: &mut BoardSeat, k: ChunkNo)
        requires board { seat.old.board ≡ self.now }
        requires small { k < 2 ^ 62 }
        ensures board { seat.new.board ≡ self.now }
        ensures raised { Raised k seat.old.hand seat.new.hand }
    {
        self.table
            .shared
            .fetch_max::<Raises>(&mut seat.seat, DONE, k);
    }

    // The block at home at this place, if there is one. What is learned of the pool is of this place.
    fn take_at(&self, seat: &mut BoardSeat, place: usize) -> Option<Block>
        requires board { seat.old.board ≡ self.now }
        requires place { place < 512 }
        ensures board { seat.new.board ≡ self.now }
        ensures taken { MatchOption result (NotTakenAt place seat.old.hand seat.new.hand) (λ b. TakenAt place b seat.old.hand seat.new.hand) }
    {
        let table = &self.table.shared;
        let found = table.fetch_and::<TriesTake>(&mut seat.seat, place + 1, NOT_FREE);
        if found % 4 != 3 {
            return None;
        }
        let block = table.exchange(&mut seat.seat, place, None);
        table.swap::<Empties>(&mut seat.seat, place + 1, 0);
        table.load::<Reads>(&mut seat.seat, DONE);
        block
    }

    // The block goes home to this place, if it is vacant.
    fn give_at(&self, seat: &mut BoardSeat, place: usize, block: Block) -> Result<(), Block>
        requires board { seat.old.board ≡ self.now }
        requires place { place < 512 }
        requires len { length (bytes_of block) ≡ class_length (place / CLASS_BLOCKS) }
        requires retired { block.retired ≤ seat.old.hand.read }
        ensures board { seat.new.board ≡ self.now }
        ensures given { MatchResult result (λ _. GivenAt place block seat.old.hand seat.new.hand) (λ b. (b ≡ block) × NotGivenAt place seat.old.hand seat.new.hand) }
    {
        let table = &self.table.shared;
        let found = table.compare_exchange::<TriesGive>(&mut seat.seat, place + 1, VACANT, BUSY);
        if found != VACANT {
            return Err(block);
        }
        let home = 3 + 4 * block.retired;
        table.exchange(&mut seat.seat, place, Some(block));
        table.swap::<Fills>(&mut seat.seat, place + 1, home);
        Ok(())
    }

    /// The block of the first place of the class that is found with one. The classes are 0 to 7: a block of class
    /// c has 256 * 4^c bytes.
    pub fn take(&self, seat: &mut BoardSeat, class: usize) -> Take
        requires board { seat.old.board ≡ self.now }
        requires class { class < CLASSES }
        ensures board { seat.new.board ≡ self.now }
        ensures taken { TakeGives class seat.old.hand result seat.new.hand }
    {
        let first = CLASS_BLOCKS * class;
        'looks: for p in 0..CLASS_BLOCKS {
            if let Some(block) = self.take_at(seat, first + p) {
                return Take::Got(block);
            }
        }
        Take::NoneFree {
            looked: CLASS_BLOCKS as u32,
        }
    }

    /// The block goes to the first place of the class that is found vacant. It comes back where none of its 64
    /// places is.
    pub fn give(&self, seat: &mut BoardSeat, class: usize, block: Block) -> Result<(), Block>
        requires board { seat.old.board ≡ self.now }
        requires class { class < CLASSES }
        requires len { length (bytes_of block) ≡ class_length class }
        requires retired { block.retired ≤ seat.old.hand.read }
        ensures board { seat.new.board ≡ self.now }
        ensures given { OnOk result (Given class block seat.old.hand seat.new.hand) }
        ensures back { IfErr result (λ b. b ≡ block) }
        ensures full { OnErr result (FoundFull (CLASS_BLOCKS * class) CLASS_BLOCKS seat.old.hand seat.new.hand) }
    {
        let first = CLASS_BLOCKS * class;
        let mut kept = block;
        'tries: for p in 0..CLASS_BLOCKS {
            match self.give_at(seat, first + p, kept) {
                Ok(()) => return Ok(()),
                Err(back) => kept = back,
            }
        }
        Err(kept)
    }
}
