//! A set of the bytes of one block.

ghost use Rattle.std.specs.Prelude.{◌≡◌, ◌<◌, ◌≤◌, ℕ, [], Some, None, IsSome, OnOk, OnErr};
ghost use Rattle.barrier_track.specs.Bytes.{start_of, byte_at, Adds, IsSame, IsLast, IsFirst, Forgets, Meets};

use std::alloc::{AllocError, Global};
use std::collections::BTreeMap;
use std::marker::Model;

/// Bytes of a block, as disjoint ranges: a place says whether the bytes from it to just before the next place are in
/// the set, and the bytes before the first place are not. Between two places where bytes begin to be out of the set
/// lies one where they begin to be in it.
#[derive(Drop)]
pub struct Ranges {
    starts: BTreeMap<u64, bool>,
}

impl Model for Ranges {
    ghost use Rattle.barrier_track.specs.Bytes as bytes;

    ghost Value = { bytes.Ranges };

    ghost view = { λ r. r.starts.entries };
}

/// The last place at this one or before it.
fn last_until(starts: &BTreeMap<u64, bool>, at: u64) -> Option<(u64, bool)>
    ensures { IsLast starts.now.entries at result }
{
    let (start, has) = starts.range(..=at).next_back()?;
    Some((*start, *has))
}

/// The first place from one to just before another.
fn first_within(starts: &BTreeMap<u64, bool>, from: u64, to: u64) -> Option<(u64, bool)>
    requires { from ≤ to }
    ensures { IsFirst starts.now.entries from to result }
{
    let (start, has) = starts.range(from..to).next()?;
    Some((*start, *has))
}

/// Whether the byte is in the set.
fn byte(starts: &BTreeMap<u64, bool>, at: u64) -> bool
    ensures { result ≡ byte_at starts.now.entries at }
{
    match last_until(starts, at) {
        Some((_, has)) => has,
        None => false,
    }
}

/// A place is there from now on. Each byte is as it was.
fn split(starts: &mut BTreeMap<u64, bool>, at: u64) -> Result<(), AllocError>
    ensures same { IsSame starts.old.entries starts.new.entries }
    ensures begins { OnOk result (IsSome (start_of starts.new.entries at)) }
{
    if !starts.contains_key(&at) {
        let has = byte(starts, at);
        starts.insert(at, has)?;
    }
    Ok(())
}

/// The places from one to just before another are gone.
fn forget(starts: &mut BTreeMap<u64, bool>, from: u64, to: u64)
    requires { from ≤ to }
    ensures { Forgets starts.old.entries from to starts.new.entries }
{
    let mut at = from;
    'walk: while let Some((start, _)) = first_within(starts, at, to) {
        starts.remove(&start);
        at = start + 1;
    }
}

/// Whether one of these bytes is in the set. Behind a place of bytes that are not comes one of bytes that are, so it
/// looks at two places at most.
fn meets(starts: &BTreeMap<u64, bool>, from: u64, to: u64) -> bool
    requires { from < to }
    ensures { Meets (byte_at starts.now.entries) from to result }
{
    if byte(starts, from) {
        return true;
    }
    let mut at = from + 1;
    'walk: while let Some((start, has)) = first_within(starts, at, to) {
        if has {
            return true;
        }
        at = start + 1;
    }
    false
}

/// These bytes are in the set too. Each place between them is looked at once and for all: it is removed.
fn add(starts: &mut BTreeMap<u64, bool>, from: u64, to: u64) -> Result<(), AllocError>
    requires { from < to }
    ensures added { OnOk result (Adds starts.old.entries from to starts.new.entries) }
    ensures same { OnErr result (IsSame starts.old.entries starts.new.entries) }
{
    split(starts, to)?;
    starts.insert(from, true)?;
    forget(starts, from + 1, to);
    Ok(())
}

impl Ranges {
    /// No byte.
    pub fn new(alloc: Global) -> Ranges
        ensures { result ≡ [] }
    {
        Ranges {
            starts: BTreeMap::new(alloc),
        }
    }

    /// The bytes from `from` to just before `to` are in the set too. Where memory runs out each byte is as it was.
    pub fn add(&mut self, from: u64, to: u64) -> Result<(), AllocError>
        requires { from < to }
        ensures added { OnOk result (Adds self.old from to self.new) }
        ensures same { OnErr result (IsSame self.old self.new) }
    {
        add(&mut self.starts, from, to)
    }

    /// Whether one of the bytes from `from` to just before `to` is in the set, in the logarithm of all ranges.
    pub fn meets(&self, from: u64, to: u64) -> bool
        requires { from < to }
        ensures { Meets (byte_at self.now) from to result }
    {
        meets(&self.starts, from, to)
    }
}
