ghost use Rattle.std.specs.Prelude.{◌≡◌, ◌<◌, ◌↔◌, IfOk, IfSome, OnOk, OnErr, IsTrue, MatchOption, None, Some, replicate, slice_get};
ghost use Rattle.dx_types.specs.Classes.{class_length};
ghost use Rattle.slice_board.specs.Calls.{TakeGives};
ghost use Rattle.slice_board.specs.declared.board.Take.{Take};
ghost use Rattle.slice_board.specs.declared.board.Take.TheVariants.{Got};
ghost use Rattle.base_lemmas.specs.IdMap as ids;
ghost use Rattle.immediate_ctx.specs.ClassBlocks.{GaveNone, GetsBlock, IsKnown, MakesNew, TakesKnown};
ghost use Rattle.dx_types.specs.declared.limits.TheConstants.{CLASSES, CLASS_BLOCKS};

use crate::marks::Marks;
use buffer_blocks::Block;
use dx_types::limits::{CLASS_BLOCKS, CLASSES, LEAST_BLOCK};
use dx_types::{BlockNo, ChunkNo};
use slice_board::{Board, BoardSeat, Take};
use std::alloc::{AllocError, Global};
use std::marker::Model;

/// The blocks of dynamic buffers, as the recorder knows of them: how many of each class it made, and which it gave up.
#[derive(Drop)]
pub struct ClassBlocks {
    alloc: Global,
    made: [u32; CLASSES],
    marks: Marks,
}

impl Model for ClassBlocks {
    ghost use Rattle.std.specs.Prelude.{ℕ, ◌<◌, ◌≤◌, slice_index};
    ghost use Rattle.immediate_ctx.specs.ClassBlocks.{Made};
    ghost use Rattle.dx_types.specs.declared.limits.TheConstants.{CLASSES, CLASS_BLOCKS};

    ghost Value = { Made };

    ghost view = { λ c. record { made = c.made; marks = c.marks } };

    ghost invariant = { λ c. (class : ℕ) → class < CLASSES → slice_index c.made class ≤ CLASS_BLOCKS };
}

impl ClassBlocks {
    /// No block was made.
    pub fn new(alloc: Global) -> ClassBlocks
        ensures made { result.made ≡ replicate CLASSES 0 }
        ensures marks { result.marks ≡ ids.empty }
    {
        ClassBlocks {
            alloc,
            made: [0; CLASSES],
            marks: Marks::new(alloc),
        }
    }

    /// A chunk gives a block up. A lack of memory changes nothing.
    pub fn mark(&mut self, block: BlockNo, chunk: ChunkNo) -> Result<(), AllocError>
        ensures ok { OnOk result (self.new ≡ record self.old { marks = ids.insert self.old.marks block chunk }) }
        ensures err { OnErr result (self.new ≡ self.old) }
    {
        self.marks.mark(block, chunk)
    }

    /// A block of the class: the one that the board gives, if it is one that a chunk gave up which was handed over; `handed` is the
    /// number of the last of these. Else a new one, of 256 * 4^class bytes, all 0. None where 64 of the class were made. Nothing
    /// changes then, nor for want of memory; what the board gave is dropped.
    pub fn take(
        &mut self,
        board: &Board,
        seat: &mut BoardSeat,
        class: usize,
        handed: ChunkNo,
    ) -> Result<Option<Block>, AllocError>
        requires board { seat.old.board ≡ board.now }
        requires class { class < CLASSES }
        ensures board { seat.new.board ≡ board.now }
        ensures gets { IfOk result (λ got. (answer : Take)
            × TakeGives class seat.old.hand answer seat.new.hand × GetsBlock class handed self.old answer got self.new) }
        ensures err { OnErr result (self.new ≡ self.old) }
    {
        match board.take(seat, class) {
            Take::Got(block) if self.knows(class, handed, &block) => {
                self.marks.take(block.number);
                Ok(Some(block))
            }
            _ => self.make(class),
        }
    }

    // Whether the recorder knows of the block.
    fn knows(&self, class: usize, handed: ChunkNo, block: &Block) -> bool
        requires { class < CLASSES }
        ensures { IsTrue result ↔ IsKnown class handed self.now.marks block.now }
    {
        let number = block.number as usize;
        let first = class * CLASS_BLOCKS;
        number >= first
            && number < first + CLASS_BLOCKS
            && self.marks.chunk_of(block.number) == Some(block.retired)
            && block.retired <= handed
    }

    // A new block of the class, if fewer than 64 were made.
    fn make(&mut self, class: usize) -> Result<Option<Block>, AllocError>
        requires { class < CLASSES }
        ensures made { IfOk result (λ got. MatchOption got
            ((slice_get self.old.made class ≡ Some CLASS_BLOCKS) × (self.new ≡ self.old))
            (λ block. MakesNew class self.old block self.new)) }
        ensures err { OnErr result (self.new ≡ self.old) }
    {
        let count = self.made[class];
        if count as usize >= CLASS_BLOCKS {
            return Ok(None);
        }
        let number = class as u32 * CLASS_BLOCKS as u32 + count;
        let block = Block::new(self.alloc, number, length_of(class))?;
        self.made[class] = count + 1;
        Ok(Some(block))
    }
}

// The bytes of a block of the class.
fn length_of(class: usize) -> u64
    requires { class < CLASSES }
    ensures { result ≡ class_length class }
{
    LEAST_BLOCK * 4_u64.pow(class as u32)
}
