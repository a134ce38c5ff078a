//! A set of the bytes of all blocks.

ghost use Rattle.std.specs.Prelude.{◌≡◌, ◌<◌, [], true, OnOk, OnErr};
ghost use Rattle.barrier_track.specs.Bytes.{AddsIf, KeepsBytes, Meets, has_byte, ranges_of};

use crate::ranges::Ranges;
use dx_types::Range;
use std::alloc::{AllocError, Global};
use std::collections::BTreeMap;
use std::marker::Model;

/// The bytes of each block that has some.
#[derive(Drop)]
pub struct Blocks {
    alloc: Global,
    ranges: BTreeMap<u32, Ranges>,
}

impl Model for Blocks {
    ghost use Rattle.barrier_track.specs.Bytes as bytes;

    ghost Value = { bytes.Blocks };

    ghost view = { λ b. b.ranges.entries };
}

impl Blocks {
    /// No byte.
    pub fn new(alloc: Global) -> Blocks
        ensures { result ≡ [] }
    {
        Blocks {
            alloc,
            ranges: BTreeMap::new(alloc),
        }
    }

    /// No byte any more.
    pub fn clear(&mut self)
        ensures { self.new ≡ [] }
    {
        self.ranges.clear();
    }

    /// Whether a byte of the range is in the set.
    pub fn meets(&self, range: &Range) -> bool
        ensures { Meets (has_byte self.now range.now.block) range.now.from range.now.to result }
    {
        if range.to <= range.from {
            return false;
        }
        match self.ranges.get(&range.block) {
            Some(ranges) => ranges.meets(range.from, range.to),
            None => false,
        }
    }

    /// The bytes of the range are in the set too. Where memory runs out each byte is as it was.
    pub fn add(&mut self, range: &Range) -> Result<(), AllocError>
        ensures added { OnOk result (AddsIf true self.old range.now self.new) }
        ensures same { OnErr result (KeepsBytes self.old self.new) }
    {
        if range.to <= range.from {
            return Ok(());
        }
        match self.ranges.get_mut(&range.block) {
            Some(ranges) => ranges.add(range.from, range.to),
            None => self.add_first(range),
        }
    }

    // The first bytes of a block.
    fn add_first(&mut self, range: &Range) -> Result<(), AllocError>
        requires some { range.now.from < range.now.to }
        requires first { ranges_of self.old range.now.block ≡ [] }
        ensures added { OnOk result (AddsIf true self.old range.now self.new) }
        ensures same { OnErr result (KeepsBytes self.old self.new) }
    {
        let mut ranges = Ranges::new(self.alloc);
        ranges.add(range.from, range.to)?;
        self.ranges.insert(range.block, ranges)?;
        Ok(())
    }
}
