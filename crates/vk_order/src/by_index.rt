//! Whether each hazard of a listing is covered, by an index.

ghost use Rattle.std.specs.Prelude.{◌≡◌, ℕ, ◌+◌, ◌<◌, ◌≤◌, ◌^◌, ◌↔◌, true, false, Some, IsOk, IfOk, IfErr, MatchOption, length, slice_get, slice_index};
ghost use Rattle.vk_types.specs.Covered.{uncovered, Covered, IsFirstBreak};
ghost use Rattle.vk_order.specs.Finish.{AreFinished};
ghost use Rattle.vk_order.specs.Index.{IndexHolds};

use crate::finish::finish_places;
use crate::hazards::{Uncovered, is_open};
use crate::index::Index;
use std::alloc::{AllocError, Global};
use vk_types::VkOp;

// The least place that is open to the one at `second`.
fn least_open(ops: &[VkOp], second: usize) -> Option<usize>
    requires { second < length ops.now }
    ensures { MatchOption result
        ((x : ℕ) → uncovered ops.now x second ≡ false)
        (λ first. (first < second) × (uncovered ops.now first second ≡ true) × ((x : ℕ) → x < first → uncovered ops.now x second ≡ false)) }
{
    for first in 0..second {
        if is_open(ops, first, second) {
            return Some(first);
        }
    }
    None
}

// The same. It is looked for only where the index doesn't tell that there is none.
fn first_open(index: &Index, ops: &[VkOp], places: &[u32], second: usize) -> Option<usize>
    requires there { second < length ops.now }
    requires few { length ops.now < 2 ^ 32 }
    requires finished { AreFinished ops.now places.now }
    requires holds { IndexHolds ops.now places.now second index.now }
    ensures { MatchOption result
        ((x : ℕ) → uncovered ops.now x second ≡ false)
        (λ first. (first < second) × (uncovered ops.now first second ≡ true) × ((x : ℕ) → x < first → uncovered ops.now x second ≡ false)) }
{
    if index.is_clear(second, &ops[second]) {
        return None;
    }
    least_open(ops, second)
}

/// What `covered` answers, in less time: of the touches of the operations before each the latest are kept, by classes of
/// touches and over the bytes that they touch, with the latest barriers behind them and the fences that finish them. For n
/// operations that takes some n * log n steps for each class of touches, of which a listing has few, and for each barrier
/// as many as there are pairs of classes. Only where that leaves a hazard open are earlier operations looked at one by one.
pub fn covered_by_index(alloc: Global, ops: &[VkOp]) -> Result<Result<(), Uncovered>, AllocError>
    requires { length ops.now < 2 ^ 32 }
    ensures ok { IfOk result (λ r. IsOk r ↔ Covered ops.now) }
    ensures err { IfOk result (λ r. IfErr r (λ u. IsFirstBreak ops.now u.first u.second)) }
{
    let places = finish_places(alloc, ops)?;
    let mut index = Index::new(alloc, ops)?;
    'seconds: for second in 0..ops.len() {
        if let Some(first) = first_open(&index, ops, &places, second) {
            return Ok(Err(Uncovered {
                first: first as u32,
                second: second as u32,
            }));
        }
        index.note(alloc, &ops[second], second as u32 + 1, places[second])?;
    }
    Ok(Ok(()))
}
