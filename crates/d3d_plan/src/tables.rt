ghost use Rattle.std.specs.Prelude.{◌≡◌, ◌++◌, [], length, IfOk, OnOk};
ghost use Rattle.d3d_plan.specs.Shown.{IsWithin, bound_in, calls_in, ends_in};

use d3d_effects::ListUses;
use dx_types::{CallNo, ResRange};
use std::alloc::{AllocError, Global};

/// A piece of the tables of a plan: the ranges from `start` to just before `end`, and the calls of a list from `first` to just
/// before `last`.
#[derive(Clone, Copy, Debug, PartialEq, Eq)]
pub(crate) struct Piece {
    pub(crate) start: u32,
    pub(crate) end: u32,
    pub(crate) first: u32,
    pub(crate) last: u32,
}

/// The ranges that calls bind, the calls of lists, and where the ranges of each of those end among its list's.
#[derive(Drop)]
pub(crate) struct Tables {
    pub(crate) ranges: Vec<ResRange>,
    pub(crate) calls: Vec<CallNo>,
    pub(crate) ends: Vec<u32>,
}

impl Tables {
    /// No call is planned.
    pub(crate) fn new(alloc: Global) -> Tables
        ensures ranges { result.ranges.items ≡ [] }
        ensures calls { result.calls.items ≡ [] }
        ensures ends { result.ends.items ≡ [] }
    {
        Tables {
            ranges: Vec::new(alloc),
            calls: Vec::new(alloc),
            ends: Vec::new(alloc),
        }
    }

    /// The ranges from a place on, and no calls.
    pub(crate) fn ranges_from(&self, start: usize) -> Result<Piece, AllocError>
        ensures { IfOk result (λ p. p ≡ record { start = start; end = length self.now.ranges.items; first = 0; last = 0 }) }
    {
        counted(start, self.ranges.len(), 0, 0)
    }

    /// The ranges of a piece.
    pub(crate) fn ranges_of(&self, piece: Piece) -> &[ResRange]
        requires { IsWithin self.now piece }
        ensures { result.now ≡ bound_in self.now piece }
    {
        &self.ranges[piece.start as usize..piece.end as usize]
    }

    /// The calls of a piece.
    pub(crate) fn calls_of(&self, piece: Piece) -> &[CallNo]
        requires { IsWithin self.now piece }
        ensures { result.now ≡ calls_in self.now piece }
    {
        &self.calls[piece.first as usize..piece.last as usize]
    }

    /// Where the ranges of each call of a piece end.
    pub(crate) fn ends_of(&self, piece: Piece) -> &[u32]
        requires { IsWithin self.now piece }
        ensures { result.now ≡ ends_in self.now piece }
    {
        &self.ends[piece.first as usize..piece.last as usize]
    }

    /// Appends what is kept of a list. After want of memory nothing is known of the tables.
    pub(crate) fn append(&mut self, list: &ListUses) -> Result<Piece, AllocError>
        ensures ranges { OnOk result (self.new.ranges.items ≡ self.old.ranges.items ++ list.now.ranges.items) }
        ensures calls { OnOk result (self.new.calls.items ≡ self.old.calls.items ++ list.now.calls.items) }
        ensures ends { OnOk result (self.new.ends.items ≡ self.old.ends.items ++ list.now.ends.items) }
        ensures piece { IfOk result (λ p. p ≡ record {
          start = length self.old.ranges.items;
          end = length self.new.ranges.items;
          first = length self.old.calls.items;
          last = length self.new.calls.items;
        }) }
    {
        let start = self.ranges.len();
        let first = self.calls.len();
        self.ranges.extend_from_slice(&list.ranges)?;
        self.calls.extend_from_slice(&list.calls)?;
        self.ends.extend_from_slice(&list.ends)?;
        counted(start, self.ranges.len(), first, self.calls.len())
    }
}

// More ranges or calls than 32 bits count are more than memory holds.
fn counted(start: usize, end: usize, first: usize, last: usize) -> Result<Piece, AllocError>
    ensures { IfOk result (λ p. p ≡ record { start = start; end = end; first = first; last = last }) }
{
    let (Ok(start), Ok(end)) = (u32::try_from(start), u32::try_from(end)) else {
        return Err(AllocError);
    };
    let (Ok(first), Ok(last)) = (u32::try_from(first), u32::try_from(last)) else {
        return Err(AllocError);
    };
    Ok(Piece {
        start,
        end,
        first,
        last,
    })
}
