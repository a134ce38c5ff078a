//! What the commands since the last barrier touched.

ghost use Rattle.std.specs.Prelude.{◌≡◌, ◌+◌, ◌≤◌, ◌++◌, [], true, false, OnOk, length, slice_get};
ghost use Rattle.std.specs.Prelude.{vec_len, vec_capacity};
ghost use Rattle.vk_types.specs.Hazards.{touches, has_write};
ghost use Rattle.vk_types.specs.BarrierCauses as cause;
ghost use Rattle.barrier_track.specs.Bytes.{AddsIf, Grows};
ghost use Rattle.barrier_track.specs.Touched.{Misses, AllMiss, NoneClashes};
ghost use Rattle.barrier_track.specs.Since.{least_seen, seen_by};

use crate::blocks::Blocks;
use std::alloc::{AllocError, Global};
use std::marker::Model;
use vk_types::{Command, Touch};

/// What a command touched.
#[derive(Clone, Copy, Debug)]
pub struct Seen {
    pub number: u64,
    pub touch: Touch,
}

/// The touches of commands, in order. The bytes of the first of them lie in two sets, those that were touched and those
/// that were written, so that a question costs a logarithm. The others aren't in the sets yet, since `add` takes no
/// memory.
///
/// The sets tell whether some touch conflicts. Which command is the least of those is asked of the touches themselves,
/// and then all of them are dropped.
#[derive(Drop)]
pub struct Touches {
    seen: Vec<Seen>,
    settled: usize,
    touched: Blocks,
    written: Blocks,
}

impl Model for Touches {
    ghost use Rattle.std.specs.Prelude.{◌-◌, vec_len, vec_capacity};
    ghost use Rattle.barrier_track.specs.Touched.{Touched, HaveBytes};

    ghost Value = { Touched };

    ghost view = { λ t. record { seen = t.seen.items; room = vec_capacity t.seen - vec_len t.seen } };

    ghost invariant = { λ t. HaveBytes t.seen.items t.settled t.touched t.written };
}

/// The lesser of two numbers, or the one that there is.
fn lesser(a: Option<u64>, b: Option<u64>) -> Option<u64>
    ensures { result ≡ cause.lesser a b }
{
    match (a, b) {
        (None, b) => b,
        (a, None) => a,
        (Some(a), Some(b)) => Some(a.min(b)),
    }
}

/// The least command of these touches that conflicts with this one.
fn least(seen: &[Seen], c: &Command) -> Option<u64>
    ensures { result ≡ least_seen c.now seen.now }
{
    let mut least = None;
    for s in seen {
        if c.clashes(&s.touch) {
            least = lesser(least, Some(s.number));
        }
    }
    least
}

fn touch_at(seen: &[Seen], at: usize) -> Option<Seen>
    ensures { result ≡ slice_get seen.now at }
{
    seen.get(at).copied()
}

/// Whether one of the touches from this place on conflicts with the command.
fn clashes_from(seen: &[Seen], from: usize, c: &Command) -> bool
    requires { from ≤ length seen.now }
    ensures { result ≡ false → NoneClashes c.now seen.now from (length seen.now) }
{
    let mut at = from;
    'walk: while let Some(s) = touch_at(seen, at) {
        if c.clashes(&s.touch) {
            return true;
        }
        at += 1;
    }
    false
}

/// Whether the touch conflicts with those whose bytes are in the sets.
fn touch_meets(touched: &Blocks, written: &Blocks, t: &Touch) -> bool
    ensures { result ≡ false → Misses touched.now written.now t.now }
{
    if t.access.writes() {
        touched.meets(&t.range)
    } else {
        written.meets(&t.range)
    }
}

/// Whether the command conflicts with those whose bytes are in the sets.
fn meets(touched: &Blocks, written: &Blocks, c: &Command) -> bool
    ensures { result ≡ false → AllMiss touched.now written.now c.now (length (touches c.now)) }
{
    for i in 0..c.touch_count() {
        if let Some(t) = c.touch_at(i) {
            if touch_meets(touched, written, &t) {
                return true;
            }
        }
    }
    false
}

/// Puts the bytes of a touch into the sets.
fn put(touched: &mut Blocks, written: &mut Blocks, t: &Touch) -> Result<(), AllocError>
    ensures touched { OnOk result (AddsIf true touched.old t.now.range touched.new) }
    ensures written { OnOk result (AddsIf (has_write t.now.access) written.old t.now.range written.new) }
    ensures part_touched { Grows true touched.old t.now.range touched.new }
    ensures part_written { Grows (has_write t.now.access) written.old t.now.range written.new }
{
    touched.add(&t.range)?;
    if t.access.writes() {
        written.add(&t.range)?;
    }
    Ok(())
}

impl Touches {
    /// No touch.
    pub fn new(alloc: Global) -> Touches
        ensures { result.seen ≡ [] }
    {
        Touches {
            seen: Vec::new(alloc),
            settled: 0,
            touched: Blocks::new(alloc),
            written: Blocks::new(alloc),
        }
    }

    /// No touch any more.
    pub fn clear(&mut self)
        ensures seen { self.new.seen ≡ [] }
        ensures room { self.old.room ≤ self.new.room }
    {
        self.seen.clear();
        self.settled = 0;
        self.touched.clear();
        self.written.clear();
    }

    /// The least command of these touches that conflicts with this one.
    pub fn conflict(&self, c: &Command) -> Option<u64>
        ensures { result ≡ least_seen c.now self.now.seen }
    {
        let some = meets(&self.touched, &self.written, c)
            || clashes_from(&self.seen, self.settled, c);
        if some { least(&self.seen, c) } else { None }
    }

    // All touches are in the sets.
    fn settle(&mut self) -> Result<(), AllocError>
        ensures { self.new ≡ self.old }
    {
        'walk: while let Some(s) = touch_at(&self.seen, self.settled) {
            put(&mut self.touched, &mut self.written, &s.touch)?;
            self.settled += 1;
        }
        Ok(())
    }

    /// Makes room for so many touches. The touches stay, whatever the answer.
    pub fn reserve(&mut self, count: usize) -> Result<(), AllocError>
        ensures room { OnOk result (count ≤ self.new.room) }
        ensures same { self.new.seen ≡ self.old.seen }
    {
        self.settle()?;
        self.seen.reserve(count)
    }

    /// The touches of a command too.
    pub fn add(&mut self, c: &Command)
        requires { length (touches c.now) ≤ self.old.room }
        ensures { self.new.seen ≡ self.old.seen ++ seen_by c.now }
    {
        add(&mut self.seen, c);
    }
}

fn add(seen: &mut Vec<Seen>, c: &Command)
    requires { length (touches c.now) + vec_len seen.old ≤ vec_capacity seen.old }
    ensures { seen.new.items ≡ seen.old.items ++ seen_by c.now }
{
    for i in 0..c.touch_count() {
        if let Some(touch) = c.touch_at(i) {
            seen.push_reserved(Seen {
                number: c.number,
                touch,
            });
        }
    }
}
