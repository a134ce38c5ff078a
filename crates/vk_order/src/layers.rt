//! Where the touches of a class were noted, and the latest barriers behind them.

ghost use Rattle.std.specs.Prelude.{◌≡◌, ℕ, ◌+◌, ◌<◌, ◌≤◌, ◌≢◌, ◌^◌, true, false, Some, IfOk, IfSome, OnOk, length, slice_get, slice_index};
ghost use Rattle.vk_order.specs.Layers.{AreHostMarksBelow, AreMarksBelow, ArePassed, AreRaisedAt, AreTrees, HasFirst, IsFresh, IsPassed, IsRaised, LastsPassed, PushedFresh, last_of};
ghost use Rattle.vk_order.specs.Tree.{IsTree};

use crate::classes::{First, Second, asks, covers, is_first, is_second, shows_host};
use crate::tree::{MaxTree, Reach};
use std::alloc::{AllocError, Global};
use vk_types::{Barrier, Touch};

/// The touches of one class: one more than the place of the latest, over the cuts; and one more than the place of the latest
/// barrier that covers a hazard of them, by the classes of second touches, and that shows the host what they write. 0 where
/// there is none.
#[derive(Drop)]
pub struct Layer {
    pub first: First,
    pub marks: MaxTree,
    pub lasts: Vec<u32>,
    pub to_host: u32,
}

/// The place of the class among these.
pub fn second_place(seconds: &[Second], second: &Second) -> Option<usize>
    ensures { IfSome result (λ k. slice_get seconds.now k ≡ Some second.now) }
{
    for k in 0..seconds.len() {
        if is_second(&seconds[k], second) {
            return Some(k);
        }
    }
    None
}

impl Layer {
    fn new(alloc: Global, first: First, width: usize, seconds: usize) -> Result<Layer, AllocError>
        ensures { IfOk result (IsFresh first width) }
    {
        Ok(Layer {
            first,
            marks: MaxTree::new(alloc, width)?,
            lasts: vec![in alloc; 0; seconds]?,
            to_host: 0,
        })
    }

    // One more than the place of the latest barrier for second touches of this class.
    fn last(&self, second: Option<usize>) -> u32
        ensures { result ≡ last_of self.now second }
    {
        match second {
            Some(k) if k < self.lasts.len() => self.lasts[k],
            _ => 0,
        }
    }

    /// Whether no hazard of a touch that was noted and this one is open, which reaches over these places and is of that class.
    pub fn is_clear(&self, u: &Touch, reach: Reach, second: Option<usize>) -> bool
        requires { IsTree self.now.marks }
        ensures { result ≡ true → AreMarksBelow self.now u.now reach second }
    {
        !asks(&self.first, u) || self.marks.is_below(reach, self.last(second) as usize)
    }

    /// Whether the host is shown what was written at these places.
    pub fn is_shown(&self, reach: Reach) -> bool
        requires { IsTree self.now.marks }
        ensures { result ≡ true → AreHostMarksBelow self.now reach }
    {
        self.first.written.is_none() || self.marks.is_below(reach, self.to_host as usize)
    }

    fn raise(&mut self, reach: Reach, number: u32)
        requires { IsTree self.old.marks }
        ensures { IsRaised self.old self.new reach number }
    {
        self.marks.raise(reach, number);
    }

    // A barrier of this class stands just before a place.
    fn pass(&mut self, seconds: &[Second], b: &Barrier, past: u32)
        ensures { IsPassed seconds.now b.now past self.old self.new }
    {
        pass_lasts(&mut self.lasts, &self.first, seconds, b, past);
        if shows_host(&self.first, b) {
            self.to_host = past;
        }
    }
}

fn pass_lasts(lasts: &mut [u32], first: &First, seconds: &[Second], b: &Barrier, past: u32)
    ensures { LastsPassed first.now seconds.now b.now past lasts.old lasts.new }
{
    for k in 0..seconds.len() {
        if k < lasts.len() && covers(first, &seconds[k], b) {
            lasts[k] = past;
        }
    }
}

fn layer_place(layers: &[Layer], first: &First) -> Option<usize>
    ensures { IfSome result (HasFirst layers.now first.now) }
{
    for n in 0..layers.len() {
        if is_first(&layers[n].first, first) {
            return Some(n);
        }
    }
    None
}

/// The place of the class's layer, which is put behind the others where there is none.
pub fn layer_for(
    alloc: Global,
    layers: &mut Vec<Layer>,
    first: First,
    width: usize,
    seconds: usize,
) -> Result<usize, AllocError>
    ensures there { IfOk result (HasFirst layers.new.items first) }
    ensures pushed { PushedFresh first width layers.old.items layers.new.items }
{
    if let Some(n) = layer_place(layers, &first) {
        return Ok(n);
    }
    let layer = Layer::new(alloc, first, width, seconds)?;
    let n = layers.len();
    layers.push(layer)?;
    Ok(n)
}

/// Notes a number over a reach in one of the layers.
pub fn raise_layer(layers: &mut [Layer], n: usize, reach: Reach, number: u32)
    requires there { n < length layers.old }
    requires sound { AreTrees layers.old }
    ensures len { length layers.new ≡ length layers.old }
    ensures raised { AreRaisedAt n reach number layers.old layers.new }
{
    layers[n].raise(reach, number);
}

/// Passes a barrier, which stands just before a place.
pub fn pass_layers(layers: &mut [Layer], seconds: &[Second], b: &Barrier, past: u32)
    ensures len { length layers.new ≡ length layers.old }
    ensures passed { ArePassed seconds.now b.now past layers.old layers.new }
{
    for n in 0..layers.len() {
        layers[n].pass(seconds, b, past);
    }
}
