ghost use Rattle.std.specs.Prelude.{◌≡◌, ◌+◌, ◌-◌, ◌<◌, ◌==◌, ◌^◌, ℕ, IsSome, OnOk, if◌then◌else◌};
ghost use Rattle.base_lemmas.specs.IdMap as ids;
ghost use Rattle.d3d_lists.specs.Counts.{HasRoom, count_at, set_if};

use std::alloc::{AllocError, Global};
use std::collections::BTreeMap;
use std::marker::Model;

/// From here on no count rises: more calls than this are more than memory holds.
const MOST: u64 = 1 << 63;

/// Counts by ids. A clause sees a map; the count of an id that it lacks is 0.
#[derive(Drop)]
pub(crate) struct Counts {
    counts: BTreeMap<u32, u64>,
}

impl Model for Counts {
    ghost use Rattle.base_lemmas.specs.CodeMap.{map_of};
    ghost use Rattle.d3d_lists.specs.Counts as specs;

    ghost Value = { specs.Counts };

    ghost coded = { specs.counts_code };

    ghost view = { λ c. map_of (λ n. n) c.counts.entries };
}

impl Counts {
    /// Each count is 0.
    pub(crate) fn new(alloc: Global) -> Counts
        ensures { result ≡ ids.empty }
    {
        Counts {
            counts: BTreeMap::new(alloc),
        }
    }

    /// The count of an id.
    pub(crate) fn get(&self, id: u32) -> u64
        ensures { result ≡ count_at self.now id }
    {
        self.counts.get(&id).copied().unwrap_or(0)
    }

    /// Makes room for a count that may rise twice. No count changes.
    pub(crate) fn make_room(&mut self, id: u32) -> Result<(), AllocError>
        ensures room { OnOk result (HasRoom self.new id 2) }
        ensures kept { (k : ℕ) → HasRoom self.old k 2 → HasRoom self.new k 2 }
        ensures same { (k : ℕ) → count_at self.new k ≡ count_at self.old k }
    {
        let known = self.counts.get(&id).copied();
        match known {
            Some(count) => is_low(count),
            None => {
                self.counts.insert(id, 0)?;
                Ok(())
            }
        }
    }

    /// A count rises by one.
    pub(crate) fn raise(&mut self, id: u32)
        requires { HasRoom self.old id 1 }
        ensures counts { (k : ℕ) → count_at self.new k ≡ count_at self.old k + (if k == id then 1 else 0) }
        ensures kept { (k : ℕ) → IsSome (ids.get self.old k) → IsSome (ids.get self.new k) }
    {
        let count = self.get(id);
        self.set(id, count + 1);
    }

    /// A count falls by one, where it is not 0.
    pub(crate) fn lower(&mut self, id: u32)
        ensures { (k : ℕ) → count_at self.new k ≡ count_at self.old k - (if k == id then 1 else 0) }
    {
        let count = self.get(id);
        self.set(id, count.saturating_sub(1));
    }

    /// A count is 0.
    pub(crate) fn clear(&mut self, id: u32)
        ensures { (k : ℕ) → count_at self.new k ≡ (if k == id then 0 else count_at self.old k) }
    {
        self.set(id, 0);
    }

    // Sets a count for which there is room.
    fn set(&mut self, id: u32, count: u64)
        ensures { self.new ≡ set_if (ids.get self.old id) self.old id count }
    {
        if let Some(place) = self.counts.get_mut(&id) {
            *place = count;
        }
    }
}

// A count that may rise, else a want of memory.
fn is_low(count: u64) -> Result<(), AllocError>
    ensures { OnOk result (count < 2 ^ 63) }
{
    if count < MOST {
        Ok(())
    } else {
        Err(AllocError)
    }
}
