//! Whether a listing allows an order, by ranks.

ghost use Rattle.std.specs.Prelude.{◌≡◌, ℕ, ◌<◌, ◌≤◌, ◌^◌, ◌↔◌, true, false, IsOk, IfOk, IfErr, MatchOption, length, slice_index, slice_index_or, slice_set};
ghost use Rattle.vk_types.specs.Listing.{acts};
ghost use Rattle.vk_types.specs.Allowed.{IsAllowed};
ghost use Rattle.base_lemmas.specs.Lists.{IsReordering};
ghost use Rattle.vk_order.specs.Order.{is_new_at, is_broken};
ghost use Rattle.vk_order.specs.Ends.{IsOrderEnd};
ghost use Rattle.vk_order.specs.Turns.{AreRanks, IsOddPlace, TurnsHold};

use crate::order::{OrderEnd, act_count, first_broken, is_act_at, least_broken, rises};
use crate::turns::Turns;
use std::alloc::{AllocError, Global};
use vk_types::VkOp;

// Whether the place is marked.
fn is_marked(marks: &[bool], place: u32) -> bool
    ensures { result ≡ slice_index_or marks.now place false }
{
    match marks.get(place as usize) {
        Some(mark) => *mark,
        None => false,
    }
}

// Marks the place, if there is one.
fn mark(marks: &mut [bool], place: u32)
    ensures { marks.new ≡ slice_set marks.old place true }
{
    let at = place as usize;
    if at < marks.len() {
        marks[at] = true;
    }
}

// The first place of the order that is no act's or repeats, or its length.
fn odd_place(alloc: Global, ops: &[VkOp], order: &[u32]) -> Result<usize, AllocError>
    ensures { IfOk result (IsOddPlace ops.now order.now) }
{
    let mut marks = vec![in alloc; false; ops.len()]?;
    for at in 0..order.len() {
        let place = order[at];
        if !is_act_at(ops, place) || is_marked(&marks, place) {
            return Ok(at);
        }
        mark(&mut marks, place);
    }
    Ok(order.len())
}

// Why the order doesn't have each act once, by its first odd place.
fn not_all(ops: &[VkOp], order: &[u32], at: usize) -> Option<OrderEnd>
    requires few { length ops.now < 2 ^ 32 }
    requires odd { IsOddPlace ops.now order.now at }
    ensures { MatchOption result (IsReordering (acts ops.now) order.now) (IsOrderEnd ops.now order.now) }
{
    if at < order.len() || at < act_count(ops) {
        return Some(OrderEnd::NotAll { at: at as u32 });
    }
    None
}

// The rank of a place: one more than where it stands in the order; 0 where it doesn't.
fn rank_of(ranks: &[u32], place: usize) -> u32
    ensures { result ≡ slice_index ranks.now place }
{
    if place < ranks.len() { ranks[place] } else { 0 }
}

fn ranks_of(alloc: Global, places: usize, order: &[u32]) -> Result<Vec<u32>, AllocError> {
    let mut ranks = vec![in alloc; 0; places]?;
    let mut rank: u32 = 0;
    for place in order {
        rank = rank.saturating_add(1);
        let at = *place as usize;
        if at < ranks.len() {
            ranks[at] = rank;
        }
    }
    Ok(ranks)
}

// Whether these are the ranks of all places of the order.
fn are_ranks(order: &[u32], ranks: &[u32]) -> bool
    ensures { result ≡ true → AreRanks order.now ranks.now }
{
    for i in 0..order.len() {
        if rank_of(ranks, order[i] as usize) as usize != i + 1 {
            return false;
        }
    }
    true
}

// The least place whose act the order has behind the one at `second`, which the listing orders before it; else the second.
// It is looked for only where the ranks don't tell that there is none.
fn broken_at(turns: &Turns, ops: &[VkOp], order: &[u32], ranks: &[u32], second: usize) -> usize
    requires few { length ops.now < 2 ^ 32 }
    requires there { second < length ops.now }
    requires ranks { AreRanks order.now ranks.now }
    requires holds { TurnsHold ops.now ranks.now turns.now second }
    ensures within { result ≤ second }
    ensures least { (x : ℕ) → x < result → is_broken ops.now order.now x second ≡ false }
    ensures here { result < second → is_broken ops.now order.now result second ≡ true }
{
    if turns.is_kept(&ops[second], rank_of(ranks, second)) {
        return second;
    }
    least_broken(ops, order, second)
}

fn first_turned(
    alloc: Global,
    ops: &[VkOp],
    order: &[u32],
    ranks: &[u32],
) -> Result<Result<(), OrderEnd>, AllocError>
    requires few { length ops.now < 2 ^ 32 }
    requires whole { IsReordering (acts ops.now) order.now }
    requires ranks { AreRanks order.now ranks.now }
    ensures ok { IfOk result (λ r. IsOk r ↔ IsAllowed ops.now order.now) }
    ensures err { IfOk result (λ r. IfErr r (IsOrderEnd ops.now order.now)) }
{
    let mut turns = Turns::new(alloc, ops)?;
    'seconds: for second in 0..ops.len() {
        let first = broken_at(&turns, ops, order, ranks, second);
        if first < second {
            return Ok(Err(OrderEnd::Broken {
                first: first as u32,
                second: second as u32,
            }));
        }
        turns.note(&ops[second], rank_of(ranks, second));
    }
    Ok(Ok(()))
}

/// What `allowed` answers, in less time: where the acts stand in the order is noted once, and of the acts before a place the
/// greatest rank of each kind is kept, as barriers, fences and the host order them. Only where that leaves a pair turned
/// round are earlier acts looked at one by one.
pub fn allowed_by_index(
    alloc: Global,
    ops: &[VkOp],
    order: &[u32],
) -> Result<Result<(), OrderEnd>, AllocError>
    requires { length ops.now < 2 ^ 32 }
    ensures ok { IfOk result (λ r. IsOk r ↔ IsAllowed ops.now order.now) }
    ensures err { IfOk result (λ r. IfErr r (IsOrderEnd ops.now order.now)) }
{
    let at = odd_place(alloc, ops, order)?;
    if let Some(end) = not_all(ops, order, at) {
        return Ok(Err(end));
    }
    let ranks = ranks_of(alloc, ops.len(), order)?;
    if rises(order) || !are_ranks(order, &ranks) {
        return Ok(first_broken(ops, order));
    }
    first_turned(alloc, ops, order, &ranks)
}
