//! The greatest of the numbers that were noted over reaches of places.

ghost use Rattle.std.specs.Prelude.{◌≡◌, ℕ, ◌+◌, ◌-◌, ◌*◌, ◌/◌, ◌<◌, ◌≤◌, ◌^◌, ◌||◌, IfOk, length, true, false};
ghost use Rattle.vk_order.specs.Tree.{AreAtMost, AreTops, Grew, HasMark, IsNode, IsTree, IsUnder, MarksGrew, NotedWithin, left_of, right_of};

use std::alloc::{AllocError, Global};

/// The places from one on to just before another.
#[derive(Clone, Copy)]
pub struct Reach {
    pub from: usize,
    pub to: usize,
}

/// A node of the tree, and the places below it.
#[derive(Clone, Copy)]
pub struct Part {
    pub node: usize,
    pub from: usize,
    pub width: usize,
}

impl Part {
    fn left(&self) -> Part
        requires { 2 * self.now.node < 2 ^ 64 }
        ensures { result ≡ left_of self.now }
    {
        Part {
            node: 2 * self.node,
            from: self.from,
            width: self.width / 2,
        }
    }

    fn right(&self) -> Part
        requires node { 2 * self.now.node + 1 < 2 ^ 64 }
        requires places { self.now.from + self.now.width < 2 ^ 64 }
        ensures { result ≡ right_of self.now }
    {
        let half = self.width / 2;
        Part {
            node: 2 * self.node + 1,
            from: self.from + half,
            width: self.width - half,
        }
    }

    // Whether none of its places is in the reach.
    fn is_apart(&self, reach: Reach) -> bool
        requires { self.now.from + self.now.width < 2 ^ 64 }
        ensures { result ≡ true → (i : ℕ) → reach.from ≤ i → i < reach.to → self.now.from ≤ i → i < self.now.from + self.now.width → ⊥ }
    {
        reach.to <= self.from || self.from + self.width <= reach.from
    }

    // Whether all of them are.
    fn is_within(&self, reach: Reach) -> bool
        requires { self.now.from + self.now.width < 2 ^ 64 }
    {
        reach.from <= self.from && self.from + self.width <= reach.to
    }
}

// Notes the number over the places of the part that are in the reach: at the uppermost nodes that have no others below them.
fn raise_part(marks: &mut [u32], bests: &mut [u32], part: Part, reach: Reach, number: u32)
    requires same { length bests.old ≡ length marks.old }
    requires node { IsNode (length marks.old) part }
    requires tops { AreTops marks.old bests.old }
    requires under { IsUnder bests.old part.node number }
    ensures marks { Grew marks.old marks.new }
    ensures bests { Grew bests.old bests.new }
    ensures tops { AreTops marks.new bests.new }
    ensures noted { NotedWithin marks.new part reach number }
{
    if part.is_apart(reach) {
        return;
    }
    bests[part.node] = bests[part.node].max(number);
    if part.is_within(reach) || part.node >= marks.len() / 2 {
        marks[part.node] = marks[part.node].max(number);
        return;
    }
    let left = part.left();
    let right = part.right();
    if right.is_apart(reach) {
        raise_part(marks, bests, left, reach, number);
        return;
    }
    if left.is_apart(reach) {
        raise_part(marks, bests, right, reach, number);
        return;
    }
    raise_part(marks, bests, left, reach, number);
    raise_part(marks, bests, right, reach, number);
}

// Whether each number that was noted at a place of the part that is in the reach is at most the bound, as far as the nodes
// from the part on say. Only a node with a greater best is looked below.
fn is_part_below(marks: &[u32], bests: &[u32], part: Part, reach: Reach, bound: usize) -> bool
    requires same { length bests.now ≡ length marks.now }
    requires node { IsNode (length marks.now) part }
    requires tops { AreTops marks.now bests.now }
    ensures { result ≡ true → AreAtMost marks.now part reach bound }
{
    if part.is_apart(reach) {
        return true;
    }
    if bests[part.node] as usize <= bound {
        return true;
    }
    if part.is_within(reach) || part.node >= marks.len() / 2 {
        return false;
    }
    if marks[part.node] as usize > bound {
        return false;
    }
    let left = part.left();
    let right = part.right();
    if !is_part_below(marks, bests, left, reach, bound) {
        return false;
    }
    is_part_below(marks, bests, right, reach, bound)
}

/// Numbers over places: each node has the greatest that was noted over all its places, and the greatest at any of them.
#[derive(Drop)]
pub struct MaxTree {
    pub marks: Vec<u32>,
    pub bests: Vec<u32>,
    pub width: usize,
}

// As many nodes as the halves of so many places need, from node 1 on.
fn node_count(width: usize) -> usize
    ensures { 2 ≤ result }
{
    match width.checked_next_power_of_two() {
        Some(leaves) => leaves.saturating_mul(2).max(2),
        None => 2,
    }
}

impl MaxTree {
    /// Zeros over so many places.
    pub fn new(alloc: Global, width: usize) -> Result<MaxTree, AllocError>
        ensures tree { IfOk result (λ t. IsTree t) }
        ensures width { IfOk result (λ t. t.width ≡ width) }
    {
        let count = node_count(width);
        let marks = vec![in alloc; 0; count]?;
        let bests = vec![in alloc; 0; count]?;
        Ok(MaxTree {
            marks,
            bests,
            width,
        })
    }

    /// Notes a number over a reach.
    pub fn raise(&mut self, reach: Reach, number: u32)
        requires { IsTree self.old }
        ensures tree { IsTree self.new }
        ensures grew { MarksGrew self.old self.new }
        ensures noted { (i : ℕ) → reach.from ≤ i → i < reach.to → i < self.old.width → HasMark self.new i number }
    {
        let root = Part {
            node: 1,
            from: 0,
            width: self.width,
        };
        raise_part(&mut self.marks, &mut self.bests, root, reach, number);
    }

    /// Whether each number that was noted at a place of the reach is at most the bound. Where it is false, mostly one isn't.
    pub fn is_below(&self, reach: Reach, bound: usize) -> bool
        requires { IsTree self.now }
        ensures { result ≡ true → (i n : ℕ) → reach.from ≤ i → i < reach.to → i < self.now.width → HasMark self.now i n → n ≤ bound }
    {
        let root = Part {
            node: 1,
            from: 0,
            width: self.width,
        };
        is_part_below(&self.marks, &self.bests, root, reach, bound)
    }
}
