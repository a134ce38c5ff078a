//! Where the touched ranges of a listing begin: each range reaches over the cuts that are in it.

ghost use Rattle.std.specs.Prelude.{◌≡◌, ℕ, ◌+◌, ◌<◌, ◌≤◌, ◌^◌, Some, IfOk, length, slice_get, true, false};
ghost use Rattle.vk_order.specs.Cuts.{IsReach, IsRising, precedes};
ghost use Rattle.vk_order.specs.Cuts as wanted;

use crate::touches::{touch_count, touch_of};
use crate::tree::Reach;
use dx_types::{BlockNo, Range};
use std::alloc::{AllocError, Global};
use vk_types::VkOp;

/// A byte at which a range begins.
#[derive(Clone, Copy, Debug, PartialEq, Eq, PartialOrd, Ord)]
pub struct Cut {
    pub block: BlockNo,
    pub at: u64,
}

fn precedes(a: &Cut, b: &Cut) -> bool
    ensures { result ≡ precedes a.now b.now }
{
    a.block < b.block || (a.block == b.block && a.at < b.at)
}

fn begin_of(range: &Range) -> Cut
    ensures { result ≡ wanted.begin_of range.now }
{
    Cut {
        block: range.block,
        at: range.from,
    }
}

fn end_of(range: &Range) -> Cut
    ensures { result ≡ wanted.end_of range.now }
{
    Cut {
        block: range.block,
        at: range.to,
    }
}

// Whether each cut precedes the next.
fn rises(cuts: &[Cut]) -> bool
    ensures { result ≡ true → IsRising cuts.now }
{
    for i in 1..cuts.len() {
        if !precedes(&cuts[i - 1], &cuts[i]) {
            return false;
        }
    }
    true
}

fn all_cuts(alloc: Global, ops: &[VkOp]) -> Result<Vec<Cut>, AllocError> {
    let mut cuts = Vec::new(alloc);
    for op in ops {
        for i in 0..touch_count(op) {
            if let Some(t) = touch_of(op, i) {
                cuts.push(begin_of(&t.range))?;
            }
        }
    }
    cuts.sort()?;
    cuts.dedup();
    Ok(cuts)
}

/// The first bytes of all ranges that the listing touches, in order.
pub fn cuts_of(alloc: Global, ops: &[VkOp]) -> Result<Vec<Cut>, AllocError>
    ensures { IfOk result (λ cuts. IsRising cuts.items) }
{
    let cuts = all_cuts(alloc, ops)?;
    if rises(&cuts) {
        return Ok(cuts);
    }
    Ok(Vec::new(alloc))
}

// The place of the first cut that doesn't precede this one.
fn place_of(cuts: &[Cut], cut: &Cut) -> usize
    requires { IsRising cuts.now }
    ensures within { result ≤ length cuts.now }
    ensures below { (k : ℕ) (c : Cut) → k < result → slice_get cuts.now k ≡ Some c → precedes c cut.now ≡ true }
    ensures above { (k : ℕ) (c : Cut) → result ≤ k → slice_get cuts.now k ≡ Some c → precedes c cut.now ≡ false }
{
    let mut low = 0;
    let mut high = cuts.len();
    'halves: while low < high {
        let middle = low + (high - low) / 2;
        if precedes(&cuts[middle], cut) {
            low = middle + 1;
        } else {
            high = middle;
        }
    }
    low
}

// A place from which on no cut precedes this one: mostly the one that is likely, which is looked at first.
fn end_place(cuts: &[Cut], likely: usize, cut: &Cut) -> usize
    requires { IsRising cuts.now }
    ensures { (k : ℕ) (c : Cut) → result ≤ k → slice_get cuts.now k ≡ Some c → precedes c cut.now ≡ false }
{
    match cuts.get(likely) {
        Some(other) if !precedes(other, cut) => likely,
        _ => place_of(cuts, cut),
    }
}

// Whether this cut stands there.
fn stands_at(cuts: &[Cut], place: usize, cut: &Cut) -> bool
    requires { place ≤ length cuts.now }
    ensures { result ≡ true → slice_get cuts.now place ≡ Some cut.now }
{
    place < cuts.len() && cuts[place] == *cut
}

/// The places of the cuts in the range, which begins at one of them; all places, where it doesn't.
pub fn reach_of(cuts: &[Cut], range: &Range) -> Reach
    requires { IsRising cuts.now }
    ensures { IsReach cuts.now range.now result }
{
    let begin = begin_of(range);
    let from = place_of(cuts, &begin);
    if !stands_at(cuts, from, &begin) {
        return Reach {
            from: 0,
            to: cuts.len().max(1),
        };
    }
    Reach {
        from,
        to: end_place(cuts, from + 1, &end_of(range)),
    }
}
