use atomic_table::{Join, Play, Split, TableRule};
use buffer_blocks::Block;
use dx_types::ChunkNo;
use std::collections::LinkedList;

/// All that is at home, and the greatest number that was raised. No value of it is made.
pub struct Pool {
    pub done: ChunkNo,
    pub homes: LinkedList<Option<Block>>,
}

/// What a seat knows. No value of it is made.
pub struct Hand {
    /// Its one busy place, or none.
    pub held: Option<u64>,
    /// The places that it tried in vain, each with the word that it found there.
    pub looks: LinkedList<(u64, u64)>,
    /// The greatest `done` that it read or raised.
    pub read: ChunkNo,
    /// The greatest `retired` of a block that it took.
    pub most: ChunkNo,
    /// All that is at home, if no other seat was ever made.
    pub pool: Option<Pool>,
}

/// The rule of the board, which holds between any two steps.
pub struct Places;

impl TableRule<Option<Block>, Hand, ()> for Places {
    ghost use Rattle.std.specs.Prelude.{Some};
    ghost use Rattle.slice_board.specs.Rule.{IsSound};
    ghost use Rattle.slice_board.specs.Hands.{newcomer, empty_pool};

    ghost holds = { λ _. IsSound };

    ghost first = { λ _. newcomer (Some empty_pool) };
}

// Clears bit 1 of a word: what was free is busy.
pub struct TriesTake;

impl Play<Option<Block>, Hand> for TriesTake {
    ghost use Rattle.slice_board.specs.Steps.{TriesTake as Told};

    ghost then = { Told };
}

// Changes a vacant word to a busy one.
pub struct TriesGive;

impl Play<Option<Block>, Hand> for TriesGive {
    ghost use Rattle.slice_board.specs.Steps.{TriesGive as Told};

    ghost then = { Told };
}

// The seat's busy place becomes vacant.
pub struct Empties;

impl Play<Option<Block>, Hand> for Empties {
    ghost use Rattle.slice_board.specs.Steps.{Empties as Told};

    ghost then = { Told };
}

// The seat's busy place becomes free, with a block at home.
pub struct Fills;

impl Play<Option<Block>, Hand> for Fills {
    ghost use Rattle.slice_board.specs.Steps.{Fills as Told};

    ghost then = { Told };
}

// Reads the greatest number that was raised.
pub struct Reads;

impl Play<Option<Block>, Hand> for Reads {
    ghost use Rattle.slice_board.specs.Steps.{Reads as Told};

    ghost then = { Told };
}

// Raises that number.
pub struct Raises;

impl Play<Option<Block>, Hand> for Raises {
    ghost use Rattle.slice_board.specs.Steps.{Raises as Told};

    ghost then = { Told };
}

// A second seat, and its end. No seat knows the pool once there were two.
pub struct Seats;

impl Split<Hand> for Seats {
    ghost use Rattle.std.specs.Prelude.{None};
    ghost use Rattle.slice_board.specs.Hands.{newcomer};

    ghost left = { λ v. record v { pool = None } };

    ghost right = { λ v. newcomer None };
}

impl Join<Hand> for Seats {
    ghost use Rattle.std.specs.Prelude.{None};
    ghost use Rattle.slice_board.specs.Hands.{newcomer};

    ghost both = { λ v w. v };

    ghost spent = { newcomer None };
}
