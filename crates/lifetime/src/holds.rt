ghost use Rattle.std.specs.Prelude.{◌≡◌, ℕ, ◌<◌, ◌≤◌, [], ◌∷◌, ◌++◌, All, OnOk, OnErr, MatchOption};

use dx_types::{BlockNo, ChunkNo};
use std::alloc::{AllocError, Global};
use std::collections::VecDeque;
use std::marker::Model;

/// A chunk's mark of a block that it retired: commands up to this chunk's last may still touch the block.
#[derive(Clone, Copy, Debug)]
pub struct Mark {
    pub chunk: ChunkNo,
    pub block: BlockNo,
}

/// The marks whose blocks were not released yet, the oldest first.
#[derive(Drop)]
pub struct Holds {
    marks: VecDeque<Mark>,
}

impl Model for Holds {
    ghost use Rattle.std.specs.Prelude.{List};
    ghost use Rattle.lifetime.specs.declared.holds.Mark.{Mark};
    ghost use Rattle.lifetime.specs.Marks.{AreInOrder};

    ghost Value = { List Mark };

    ghost view = { λ h. h.marks.items };

    ghost invariant = { λ h. AreInOrder h.marks.items };
}

impl Holds {
    /// No chunk has retired a block yet.
    pub fn new(alloc: Global) -> Holds
        ensures { result ≡ [] }
    {
        Holds {
            marks: VecDeque::new(alloc),
        }
    }

    /// Chunk `k` has retired this block. The numbers of chunks never fall. A lack of memory changes nothing.
    pub fn retire(&mut self, k: ChunkNo, block: BlockNo) -> Result<(), AllocError>
        requires { All (λ m. m.chunk ≤ k) self.old }
        ensures ok { OnOk result (self.new ≡ self.old ++ record { chunk = k; block = block } ∷ []) }
        ensures err { OnErr result (self.new ≡ self.old) }
    {
        self.marks.push_back(Mark { chunk: k, block })?;
        Ok(())
    }

    /// The block of the oldest mark, which goes, where its chunk is at most `upto`. Else no mark has a chunk of
    /// at most `upto`.
    pub fn released(&mut self, upto: ChunkNo) -> Option<BlockNo>
        ensures { MatchOption result
            ((self.new ≡ self.old) × All (λ m. upto < m.chunk) self.old)
            (λ block. (k : ℕ) × (k ≤ upto) × (self.old ≡ record { chunk = k; block = block } ∷ self.new)) }
    {
        if self.marks.front()?.chunk > upto {
            return None;
        }
        Some(self.marks.pop_front()?.block)
    }
}
