ghost use Rattle.std.specs.Prelude.{◌≡◌, ◌<◌, ◌≤◌, [], IfSome, OnErr, OnOk};
ghost use Rattle.std.specs.BTreeMap.{IsOrdered};
ghost use Rattle.std.specs.Ordering.{nat_cmp};
ghost use Rattle.d3d_uses.specs.Ranges.{Adds, IsAlone, IsApart, IsLast, IsLastBetween, Joins, JoinsEnd, JoinsStart, RemovesBetween, meet_any};

use std::alloc::{AllocError, Global};
use std::collections::BTreeMap;
use std::marker::Model;

/// Some bytes of one buffer, as ranges that neither meet nor touch one another.
#[derive(Drop)]
pub struct Ranges {
    // the ends of the ranges, by their first bytes
    ends: BTreeMap<u64, u64>,
}

impl Model for Ranges {
    ghost use Rattle.d3d_uses.specs.Ranges as ranges;
    ghost use Rattle.d3d_uses.specs.Ranges.{IsApart};

    ghost Value = { ranges.Ranges };

    ghost view = { λ r. r.ends.entries };

    ghost invariant = { λ r. IsApart r.ends.entries };
}

impl Ranges {
    /// No byte.
    pub fn new(alloc: Global) -> Ranges
        ensures { result ≡ [] }
    {
        Ranges {
            ends: BTreeMap::new(alloc),
        }
    }

    /// Whether a byte from `from` to just before `to` is among them.
    pub fn meets(&self, from: u64, to: u64) -> bool
        ensures { result ≡ meet_any self.now from to }
    {
        if to <= from {
            return false;
        }
        match last_until(&self.ends, to - 1) {
            Some((_, end)) => from < end,
            None => false,
        }
    }

    /// The bytes from `from` to just before `to` too. Ranges that meet or touch become one.
    pub fn add(&mut self, from: u64, to: u64) -> Result<(), AllocError>
        ensures added { OnOk result (Adds self.old from to self.new) }
        ensures unchanged { OnErr result (self.new ≡ self.old) }
    {
        if to <= from {
            return Ok(());
        }
        let last = last_until(&self.ends, to);
        match last {
            Some((start, _)) if from < start => join_over(&mut self.ends, from, to),
            _ => join_at(&mut self.ends, last, from, to),
        }
    }

    /// No byte any more.
    pub fn clear(&mut self)
        ensures { self.new ≡ [] }
    {
        self.ends.clear();
    }
}

/// Of the ranges that begin at a place or before it, the last.
fn last_until(ends: &BTreeMap<u64, u64>, at: u64) -> Option<(u64, u64)>
    ensures last { IsLast ends.now.entries at result }
    ensures ordered { IsOrdered nat_cmp ends.now }
{
    let (start, end) = ends.range(..=at).next_back()?;
    Some((*start, *end))
}

/// Adds the bytes from `from` to just before `to` where of the ranges that begin at `to` or before it the last, which is
/// given, does not begin after `from`: no other range meets or touches them.
fn join_at(
    ends: &mut BTreeMap<u64, u64>,
    last: Option<(u64, u64)>,
    from: u64,
    to: u64,
) -> Result<(), AllocError>
    requires full { from < to }
    requires apart { IsApart ends.old.entries }
    requires ordered { IsOrdered nat_cmp ends.old }
    requires last { IsLast ends.old.entries to last }
    requires before { IfSome last (λ r. r.0 ≤ from) }
    ensures joined { OnOk result (Joins ends.old.entries from to ends.new.entries) }
    ensures unchanged { OnErr result (ends.new.entries ≡ ends.old.entries) }
{
    match last {
        Some((_, end)) if to <= end => Ok(()),
        Some((start, end)) if from <= end => put_alone(ends, from, start, to),
        _ => put_alone(ends, from, from, to),
    }
}

/// Adds the bytes from `from` to just before `to` as a range from `start`, where no other range meets or touches it.
fn put_alone(
    ends: &mut BTreeMap<u64, u64>,
    from: u64,
    start: u64,
    to: u64,
) -> Result<(), AllocError>
    requires full { from < to }
    requires apart { IsApart ends.old.entries }
    requires ordered { IsOrdered nat_cmp ends.old }
    requires alone { IsAlone ends.old.entries from to start }
    ensures joined { OnOk result (Joins ends.old.entries from to ends.new.entries) }
    ensures unchanged { OnErr result (ends.new.entries ≡ ends.old.entries) }
{
    ends.insert(start, to)?;
    Ok(())
}

/// Adds the bytes from `from` to just before `to`, whatever ranges they meet or touch.
fn join_over(ends: &mut BTreeMap<u64, u64>, from: u64, to: u64) -> Result<(), AllocError>
    requires full { from < to }
    requires apart { IsApart ends.old.entries }
    requires ordered { IsOrdered nat_cmp ends.old }
    ensures joined { OnOk result (Joins ends.old.entries from to ends.new.entries) }
    ensures unchanged { OnErr result (ends.new.entries ≡ ends.old.entries) }
{
    let start = joined_start(ends, from);
    let end = joined_end(ends, to);
    ends.insert(start, end)?;
    remove_between(ends, start, end);
    Ok(())
}

/// Where the range begins that meets or touches `from`, or `from` itself.
fn joined_start(ends: &BTreeMap<u64, u64>, from: u64) -> u64
    requires { IsApart ends.now.entries }
    ensures { JoinsStart ends.now.entries from result }
{
    match last_until(ends, from) {
        Some((start, end)) if from <= end => start,
        _ => from,
    }
}

/// Where the last of the ranges ends that begin at `to` or before it, or `to` itself.
fn joined_end(ends: &BTreeMap<u64, u64>, to: u64) -> u64
    requires { IsApart ends.now.entries }
    ensures { JoinsEnd ends.now.entries to result }
{
    match last_until(ends, to) {
        Some((_, end)) => to.max(end),
        None => to,
    }
}

/// Where the last range begins that begins after `from` and not after `to`.
fn last_between(ends: &BTreeMap<u64, u64>, from: u64, to: u64) -> Option<u64>
    ensures last { IsLastBetween ends.now.entries from to result }
    ensures ordered { IsOrdered nat_cmp ends.now }
{
    match last_until(ends, to) {
        Some((start, _)) if from < start => Some(start),
        _ => None,
    }
}

/// Takes out the ranges that begin after `from` and not after `to`.
fn remove_between(ends: &mut BTreeMap<u64, u64>, from: u64, to: u64)
    ensures removed { RemovesBetween ends.old.entries from to ends.new.entries }
    ensures ordered { IsOrdered nat_cmp ends.new }
{
    'inner: while let Some(start) = last_between(ends, from, to) {
        ends.remove(&start);
    }
}
