//! What is known of the operations of a listing up to a place, by which it is told quickly that an act there is covered.

ghost use Rattle.std.specs.Prelude.{◌≡◌, ℕ, ◌+◌, ◌<◌, ◌≤◌, ◌^◌, true, false, max, Some, IfOk, OnOk, length, slice_get};
ghost use Rattle.vk_order.specs.Tree.{HasMark, IsTree, MarksGrew};
ghost use Rattle.vk_order.specs.Index.{AreClear, AreNoted, HasTouch, IndexGrew, IndexPassed, IsClear, IsFirstIndex, IsNoted, IsNotedOver, IsSound, IsTouchClear, IsReadClear, IsWriteClear, width_of};

use crate::classes::{Second, Stages, first_of, second_of, stages_of};
use crate::cuts::{Cut, cuts_of, reach_of};
use crate::layers::{Layer, layer_for, pass_layers, raise_layer, second_place};
use crate::tree::{MaxTree, Reach};
use dx_types::Range;
use std::alloc::{AllocError, Global};
use vk_types::{Barrier, Command, Touch, VkOp};

/// The touches of the operations so far, by their classes; and over the same cuts the place of the fence that finishes the
/// latest to be finished of all touches, and of those that write. Only acts of the host ask for these: where a listing has
/// none, none is noted.
#[derive(Drop)]
pub struct Index {
    pub cuts: Vec<Cut>,
    pub seconds: Vec<Second>,
    pub layers: Vec<Layer>,
    pub hosted: bool,
    pub touched: MaxTree,
    pub written: MaxTree,
}

// The classes of all touches of commands, each once.
fn seconds_of(alloc: Global, ops: &[VkOp]) -> Result<Vec<Second>, AllocError> {
    let mut seconds = Vec::new(alloc);
    for op in ops {
        if let VkOp::Command(c) = op {
            push_seconds(&mut seconds, c)?;
        }
    }
    Ok(seconds)
}

fn push_seconds(seconds: &mut Vec<Second>, c: &Command) -> Result<(), AllocError> {
    let stages = stages_of(c);
    for i in 0..c.touch_count() {
        if let Some(u) = c.touch_at(i) {
            let second = second_of(stages, &u);
            if second_place(seconds, &second).is_none() {
                seconds.push(second)?;
            }
        }
    }
    Ok(())
}

fn is_of_host(op: &VkOp) -> bool {
    match op {
        VkOp::HostWrite { .. } | VkOp::HostRead { .. } => true,
        _ => false,
    }
}

// How many places a tree has over these cuts.
fn width_of(cuts: &[Cut]) -> usize
    ensures { result ≡ width_of cuts.now }
{
    cuts.len().max(1)
}

// Notes the number over the reach where the test holds.
fn raise_if(tree: &mut MaxTree, holds: bool, reach: Reach, number: u32)
    requires { IsTree tree.old }
    ensures tree { IsTree tree.new }
    ensures grew { MarksGrew tree.old tree.new }
    ensures noted { holds ≡ true → IsNotedOver tree.new reach number }
{
    if holds {
        tree.raise(reach, number);
    }
}

// Whether each number that is noted over the reach is less than this one. Where it is false, mostly one isn't.
fn are_before(tree: &MaxTree, reach: Reach, at: usize) -> bool
    requires { IsTree tree.now }
    ensures { result ≡ true → (i n : ℕ) → reach.from ≤ i → i < reach.to → i < tree.now.width → HasMark tree.now i n → n < at }
{
    match at.checked_sub(1) {
        Some(last) => tree.is_below(reach, last),
        None => false,
    }
}

impl Index {
    /// What is known before the first operation of a listing.
    pub fn new(alloc: Global, ops: &[VkOp]) -> Result<Index, AllocError>
        ensures { IfOk result IsFirstIndex }
    {
        let cuts = cuts_of(alloc, ops)?;
        let width = width_of(&cuts);
        Ok(Index {
            cuts,
            seconds: seconds_of(alloc, ops)?,
            layers: Vec::new(alloc),
            hosted: ops.iter().any(is_of_host),
            touched: MaxTree::new(alloc, width)?,
            written: MaxTree::new(alloc, width)?,
        })
    }

    // Whether each layer has its hazards with this touch covered.
    fn touch_is_clear(&self, stages: Stages, u: &Touch) -> bool
        requires { IsSound self.now }
        ensures { result ≡ true → IsTouchClear self.now stages u.now }
    {
        let reach = reach_of(&self.cuts, &u.range);
        let second = second_place(&self.seconds, &second_of(stages, u));
        for n in 0..self.layers.len() {
            if !self.layers[n].is_clear(u, reach, second) {
                return false;
            }
        }
        true
    }

    fn command_is_clear(&self, d: &Command) -> bool
        requires { IsSound self.now }
        ensures { result ≡ true → AreClear self.now d.now }
    {
        let stages = stages_of(d);
        for i in 0..d.touch_count() {
            if let Some(u) = d.touch_at(i) {
                if !self.touch_is_clear(stages, &u) {
                    return false;
                }
            }
        }
        true
    }

    fn write_is_clear(&self, at: usize, range: &Range) -> bool
        requires { IsSound self.now }
        ensures { result ≡ true → IsWriteClear self.now at range.now }
    {
        let reach = reach_of(&self.cuts, range);
        self.hosted && are_before(&self.touched, reach, at)
    }

    fn read_is_clear(&self, at: usize, range: &Range) -> bool
        requires { IsSound self.now }
        ensures { result ≡ true → IsReadClear self.now at range.now }
    {
        let reach = reach_of(&self.cuts, range);
        if !self.hosted || !are_before(&self.written, reach, at) {
            return false;
        }
        for n in 0..self.layers.len() {
            if !self.layers[n].is_shown(reach) {
                return false;
            }
        }
        true
    }

    /// Whether each hazard of an earlier operation and this one, which stands there, is covered. Where it is false, mostly
    /// one isn't.
    pub fn is_clear(&self, at: usize, op: &VkOp) -> bool
        requires { IsSound self.now }
        ensures { result ≡ true → IsClear self.now at op.now }
    {
        match op {
            VkOp::Command(d) => self.command_is_clear(d),
            VkOp::HostWrite { range, .. } => self.write_is_clear(at, range),
            VkOp::HostRead { range, .. } => self.read_is_clear(at, range),
            _ => true,
        }
    }

    fn note_touch(
        &mut self,
        alloc: Global,
        stages: Stages,
        t: &Touch,
        past: u32,
        finish: u32,
    ) -> Result<(), AllocError>
        requires { IsSound self.old }
        ensures sound { OnOk result (IsSound self.new) }
        ensures grew { OnOk result (IndexGrew self.old self.new) }
        ensures noted { OnOk result (HasTouch self.new stages t.now past finish) }
    {
        let reach = reach_of(&self.cuts, &t.range);
        let width = width_of(&self.cuts);
        let n = layer_for(
            alloc,
            &mut self.layers,
            first_of(stages, t),
            width,
            self.seconds.len(),
        )?;
        raise_layer(&mut self.layers, n, reach, past);
        let hosted = self.hosted;
        raise_if(&mut self.touched, hosted, reach, finish);
        raise_if(
            &mut self.written,
            hosted && t.access.writes(),
            reach,
            finish,
        );
        Ok(())
    }

    fn note_command(
        &mut self,
        alloc: Global,
        c: &Command,
        past: u32,
        finish: u32,
    ) -> Result<(), AllocError>
        requires { IsSound self.old }
        ensures sound { OnOk result (IsSound self.new) }
        ensures grew { OnOk result (IndexGrew self.old self.new) }
        ensures noted { OnOk result (AreNoted self.new c.now past finish) }
    {
        let stages = stages_of(c);
        for i in 0..c.touch_count() {
            if let Some(t) = c.touch_at(i) {
                self.note_touch(alloc, stages, &t, past, finish)?;
            }
        }
        Ok(())
    }

    fn note_barrier(&mut self, b: &Barrier, past: u32)
        requires { IsSound self.old }
        ensures sound { IsSound self.new }
        ensures passed { IndexPassed self.old self.new b.now past }
    {
        pass_layers(&mut self.layers, &self.seconds, b, past);
    }

    /// Notes an operation just before a place, and if it is a command the place of the fence that finishes it.
    pub fn note(
        &mut self,
        alloc: Global,
        op: &VkOp,
        past: u32,
        finish: u32,
    ) -> Result<(), AllocError>
        requires { IsSound self.old }
        ensures sound { OnOk result (IsSound self.new) }
        ensures noted { OnOk result (IsNoted self.old self.new op.now past finish) }
    {
        match op {
            VkOp::Command(c) => self.note_command(alloc, c, past, finish)?,
            VkOp::Barrier(b) => self.note_barrier(b, past),
            _ => (),
        }
        Ok(())
    }
}
