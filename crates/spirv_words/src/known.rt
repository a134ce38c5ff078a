// What is known of the instructions before a place.

ghost use Rattle.std.proofs.Props.{props};
ghost use Rattle.spirv_words.specs.Made.{Records};
ghost use Rattle.spirv_words.specs.Kept.{NamesLabels, HasTypes, HasEntry, IsPlace, so_far};

use crate::branches::Branches;
use crate::entry::{entry_after, is_id};
use crate::made::Made;
use crate::once::Once;
use crate::place::Place;
use spirv_model::Op;
use std::alloc::{AllocError, Global};

/// The bound of the ids, the instructions so far, and what is looked up of them. Clauses see the instructions as
/// `history`, the latest first.
#[derive(Drop)]
pub struct Known<'a> {
    pub bound: u32,
    pub ops: Vec<Op<'a>>,
    made: Made<'a>,
    branches: Branches,
    once: Once<'a>,
    entry: Option<u32>,
    place: Place<'a>,
    ghost records: { Records made (so_far ops.items) } by { Prim.hlevel props },
    ghost names_labels: { NamesLabels branches (so_far ops.items) } by { Prim.hlevel props },
    ghost has_types: { HasTypes once (so_far ops.items) } by { Prim.hlevel props },
    ghost has_entry: { HasEntry entry (so_far ops.items) } by { Prim.hlevel props },
    ghost is_place: { IsPlace place (so_far ops.items) } by { Prim.hlevel props },
}

impl<'a> Known<'a> {
    ghost use Rattle.std.specs.Prelude.{◌≡◌, [], option_map, IfOk};
    ghost use Rattle.spirv_model.specs.View.{shown};
    ghost use Rattle.spirv_words.specs.Known.{history, Extends};
    ghost use Rattle.spirv_model.specs.History.{maker, is_branched_to, is_entry, in_function, block_is_open};
    ghost use Rattle.spirv_model.specs.Types.{is_declared};
    ghost use Rattle.spirv_model.specs.Sections.{in_order};
    ghost use Rattle.spirv_model.specs.Blocks.{in_block};
    ghost use Rattle.spirv_words.specs.Latest.{latest};

    /// Before all instructions.
    #[tactic(auto, unfolding(crate::specs::Known::history))]
    pub fn new(alloc: Global, bound: u32) -> Known<'a>
        ensures bound { result.bound ≡ bound }
        ensures no_instruction { history result ≡ [] }
    {
        Known {
            bound,
            ops: Vec::new(alloc),
            made: Made::new(alloc),
            branches: Branches::new(alloc),
            once: Once::new(alloc),
            entry: None,
            place: Place::new(),
        }
    }

    /// The instruction that makes an id.
    #[tactic(auto, unfolding(crate::specs::Known::history))]
    pub fn maker(&self, id: u32) -> Option<Op<'a>>
        ensures { option_map shown result ≡ maker id (history self.now) }
    {
        self.made.maker(id)
    }

    /// Whether a branch names a label.
    #[tactic(auto, unfolding(crate::specs::Known::history))]
    pub fn is_branched_to(&self, label: u32) -> bool
        ensures { result ≡ is_branched_to label (history self.now) }
    {
        self.branches.has(label)
    }

    /// Whether the type of an instruction is declared.
    #[tactic(auto, unfolding(crate::specs::Known::history))]
    pub fn is_declared(&self, op: Op<'_>) -> bool
        ensures { result ≡ is_declared (shown op.entry) (history self.now) }
    {
        self.once.has(op)
    }

    /// Whether the entry point has this function.
    #[tactic(auto, unfolding(crate::specs::Known::history))]
    pub fn is_entry(&self, function: u32) -> bool
        ensures { result ≡ is_entry function (history self.now) }
    {
        is_id(function, self.entry)
    }

    /// Whether a function was begun.
    #[tactic(auto, unfolding(crate::specs::Known::history))]
    pub fn in_function(&self) -> bool
        ensures { result ≡ in_function (history self.now) }
    {
        self.place.in_function
    }

    /// The latest instruction.
    #[tactic(auto, unfolding(crate::specs::Known::history))]
    pub fn latest(&self) -> Option<Op<'a>>
        ensures { option_map shown result ≡ latest (history self.now) }
    {
        self.place.latest
    }

    /// Whether an instruction stands where its section does.
    #[tactic(auto, unfolding(crate::specs::Known::history))]
    pub fn is_in_order(&self, op: Op<'_>) -> bool
        ensures { result ≡ in_order (history self.now) (shown op.entry) }
    {
        self.place.is_in_order(op)
    }

    /// Whether an instruction stands in a block, or begins one or ends the function where it may.
    #[tactic(auto, unfolding(crate::specs::Known::history))]
    pub fn is_in_block(&self, op: Op<'_>) -> bool
        ensures { result ≡ in_block (history self.now) (shown op.entry) }
    {
        self.place.is_in_block(op)
    }

    /// Adds an instruction.
    #[tactic(auto, using(crate::proofs::Lists::so_far_pushed), unfolding(crate::specs::Known::history))]
    pub fn add(self, op: Op<'a>) -> Result<Known<'a>, AllocError>
        ensures { IfOk result (λ known. Extends self.entry known (shown op.entry)) }
    {
        let Known {
            bound,
            mut ops,
            mut made,
            mut branches,
            mut once,
            entry,
            place,
        } = self;
        made.add(op)?;
        branches.add(op)?;
        once.add(op)?;
        ops.push(op)?;
        Ok(Known {
            bound,
            ops,
            made,
            branches,
            once,
            entry: entry_after(entry, op),
            place: place.after(op),
        })
    }
}
