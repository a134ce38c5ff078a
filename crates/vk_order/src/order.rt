//! Whether a listing allows an order.

ghost use Rattle.std.specs.Prelude.{◌≡◌, ℕ, ◌<◌, ◌≤◌, ◌^◌, ◌↔◌, true, false, IsOk, IfErr, length, slice_get};
ghost use Rattle.vk_types.specs.Listing.{acts};
ghost use Rattle.vk_types.specs.Listing as listing;
ghost use Rattle.vk_types.specs.Before.{On_device, side, before};
ghost use Rattle.vk_types.specs.Allowed.{IsAllowed};
ghost use Rattle.std.specs.List.{AllByRecursion};
ghost use Rattle.base_lemmas.specs.Lists.{IsReordering, Pairwise};
ghost use Rattle.vk_order.specs.Order.{ordered_by, is_act_in, is_new_at, late_of, is_broken};
ghost use Rattle.vk_order.specs.Order as wanted;
ghost use Rattle.vk_order.specs.Ends.{IsOrderEnd};

use crate::ordered::{is_fenced, orders_commands};
use vk_types::{Command, VkOp};

/// Why an order is none that the listing allows. `NotAll` names the order's first place that is no act's or repeats, or
/// its length. `Broken` names two places of the listing, the first of which has to happen before the second.
#[derive(Clone, Copy, Debug, PartialEq, Eq)]
pub enum OrderEnd {
    NotAll { at: u32 },
    Broken { first: u32, second: u32 },
}

fn is_act(o: &VkOp) -> bool
    ensures { result ≡ listing.is_act o.now }
{
    match o {
        VkOp::HostWrite { .. } | VkOp::Command(_) | VkOp::HostRead { .. } => true,
        _ => false,
    }
}

fn command_is_before(rest: &[VkOp], mid: &[VkOp], c: &Command, p: &VkOp) -> bool
    ensures { result ≡ ordered_by rest.now mid.now (On_device c.now) (side p.now) }
{
    match p {
        VkOp::Command(d) => orders_commands(mid, c, d),
        VkOp::HostWrite { .. } | VkOp::HostRead { .. } => is_fenced(rest, mid),
        _ => false,
    }
}

fn pair_is_before(rest: &[VkOp], mid: &[VkOp], o: &VkOp, p: &VkOp) -> bool
    ensures { result ≡ ordered_by rest.now mid.now (side o.now) (side p.now) }
{
    match o {
        VkOp::Command(c) => command_is_before(rest, mid, c, p),
        VkOp::HostWrite { .. } | VkOp::HostRead { .. } => is_act(p),
        _ => false,
    }
}

fn is_before(ops: &[VkOp], x: usize, y: usize) -> bool
    requires order { x < y }
    requires within { y < length ops.now }
    ensures { result ≡ before ops.now x y }
{
    pair_is_before(&ops[x + 1..], &ops[x + 1..y], &ops[x], &ops[y])
}

pub fn is_act_at(ops: &[VkOp], place: u32) -> bool
    ensures { result ≡ is_act_in (slice_get ops.now place) }
{
    match ops.get(place as usize) {
        Some(o) => is_act(o),
        None => false,
    }
}

fn stands_in(places: &[u32], place: u32) -> bool
    ensures { result ≡ wanted.stands_in places.now place }
{
    places.iter().any(|p| *p == place)
}

// Whether the place is an act's and none of those in front, of which each is below `past`.
fn is_new(ops: &[VkOp], front: &[u32], past: u64, place: u32) -> bool
    requires { AllByRecursion (λ p. p < past) front.now }
    ensures { result ≡ wanted.is_new ops.now front.now place }
{
    is_act_at(ops, place) && (u64::from(place) >= past || !stands_in(front, place))
}

// The first place of the order that is no act's or repeats, or its length.
fn first_odd(ops: &[VkOp], order: &[u32]) -> usize
    ensures within { result ≤ length order.now }
    ensures new { (i : ℕ) → i < result → is_new_at ops.now order.now i ≡ true }
    ensures odd { is_new_at ops.now order.now result ≡ false }
{
    let mut past = 0;
    for at in 0..order.len() {
        let place = order[at];
        if !is_new(ops, &order[..at], past, place) {
            return at;
        }
        past = past.max(u64::from(place) + 1);
    }
    order.len()
}

pub fn act_count(ops: &[VkOp]) -> usize
    ensures { result ≡ length (acts ops.now) }
{
    let mut count = 0;
    for o in ops {
        if is_act(o) {
            count += 1;
        }
    }
    count
}

// What stands behind this place in the order.
fn late(order: &[u32], place: u32) -> &[u32]
    ensures { result.now ≡ late_of order.now place }
{
    for i in 0..order.len() {
        if order[i] == place {
            return &order[i + 1..];
        }
    }
    &order[order.len()..]
}

// The least place that the listing orders before the second, and that stands behind it in the order; else the second.
pub fn least_broken(ops: &[VkOp], order: &[u32], second: usize) -> usize
    requires there { second < length ops.now }
    requires few { second < 2 ^ 32 }
    ensures within { result ≤ second }
    ensures least { (x : ℕ) → x < result → is_broken ops.now order.now x second ≡ false }
    ensures here { result < second → is_broken ops.now order.now result second ≡ true }
{
    let mut least = second;
    for place in late(order, second as u32) {
        let first = *place as usize;
        if first < least && is_before(ops, first, second) {
            least = first;
        }
    }
    least
}

// Whether each place is greater than those before it.
pub fn rises(order: &[u32]) -> bool
    ensures { result ≡ true → Pairwise (λ p q. p < q) order.now }
{
    let mut past = 0;
    for place in order {
        if u64::from(*place) < past {
            return false;
        }
        past = u64::from(*place) + 1;
    }
    true
}

pub fn first_broken(ops: &[VkOp], order: &[u32]) -> Result<(), OrderEnd>
    requires few { length ops.now < 2 ^ 32 }
    requires whole { IsReordering (acts ops.now) order.now }
    ensures ok { IsOk result ↔ IsAllowed ops.now order.now }
    ensures err { IfErr result (IsOrderEnd ops.now order.now) }
{
    if rises(order) {
        return Ok(());
    }
    for second in 0..ops.len() {
        let first = least_broken(ops, order, second);
        if first < second {
            return Err(OrderEnd::Broken {
                first: first as u32,
                second: second as u32,
            });
        }
    }
    Ok(())
}

/// Whether the listing allows the order, which names places of its operations from 0: each act stands in it once, and
/// none before an act that the listing orders before it.
///
/// It takes no memory, so what it looks for it looks for anew. An order that rises, as the listing's own does, takes time in
/// proportion to it. In any other order of n places, each that is less than an earlier one is looked for among those before it,
/// and what stands behind each of the listing's places is looked through: n * n steps at most for each of the two, of which a
/// step is a comparison of numbers. Of two acts that the order turns round, and of these alone, what stands between them in
/// the listing is walked, up to the first barrier or fence that orders them.
pub fn allowed(ops: &[VkOp], order: &[u32]) -> Result<(), OrderEnd>
    requires { length ops.now < 2 ^ 32 }
    ensures ok { IsOk result ↔ IsAllowed ops.now order.now }
    ensures err { IfErr result (IsOrderEnd ops.now order.now) }
{
    let at = first_odd(ops, order);
    if at < order.len() || at < act_count(ops) {
        return Err(OrderEnd::NotAll { at: at as u32 });
    }
    first_broken(ops, order)
}
