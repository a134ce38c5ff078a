ghost use Rattle.std.specs.Prelude.{◌≡◌, ◌==◌, ◌<◌, ◌^◌, IfSome, None, OnErr, OnOk};
ghost use Rattle.std.specs.List.{list_any};
ghost use Rattle.dx_types.specs.declared.shape.ViewShape.{ViewShape as Shown};
ghost use Rattle.base_lemmas.specs.IdMap as ids;
ghost use Rattle.d3d_model.specs.View.{view_end};
ghost use Rattle.std.specs.BTreeMap.{get};
ghost use Rattle.std.specs.Ordering.{nat_cmp};
ghost use Rattle.std.specs.Prelude.{unwrap_or};

use dx_types::ViewShape;
use std::alloc::{AllocError, Global};
use std::collections::BTreeMap;
use std::marker::Model;

/// The live views by ids, and how many of them each buffer has. A clause sees the map of the views.
#[derive(Drop)]
pub struct Views {
    shapes: BTreeMap<u32, ViewShape>,
    counts: BTreeMap<u32, u64>,
}

impl Model for Views {
    ghost use Rattle.base_lemmas.specs.CodeMap.{map_of};
    ghost use Rattle.d3d_state.specs.Codes as codes;
    ghost use Rattle.d3d_state.specs.Counted.{Counted};

    ghost Value = { codes.Views };

    ghost coded = { codes.views_code };

    ghost view = { λ v. map_of (λ s. s) v.shapes.entries };

    ghost invariant = { λ v. Counted (map_of (λ s. s) v.shapes.entries) v.counts.entries };
}

impl Views {
    /// No view is live.
    pub fn new(alloc: Global) -> Views
        ensures { result ≡ ids.empty }
    {
        Views {
            shapes: BTreeMap::new(alloc),
            counts: BTreeMap::new(alloc),
        }
    }

    /// The shape of a live view.
    pub fn shape(&self, id: u32) -> Option<ViewShape>
        ensures value { result ≡ ids.get self.now id }
        ensures end { IfSome result (λ v. view_end v < 2 ^ 64) }
    {
        self.shapes.get(&id).copied()
    }

    /// Whether a live view is one of this buffer.
    pub fn has_of(&self, res: u32) -> bool
        ensures { result ≡ list_any (λ (v : Shown). v.res == res) (ids.values self.now) }
    {
        count_in(&self.counts, res) > 0
    }

    /// One more view is live. Want of memory changes nothing.
    pub fn insert(&mut self, id: u32, shape: ViewShape) -> Result<(), AllocError>
        requires free { ids.get self.old id ≡ None }
        requires end { view_end shape < 2 ^ 64 }
        ensures inserted { OnOk result (self.new ≡ ids.insert self.old id shape) }
        ensures unchanged { OnErr result (self.new ≡ self.old) }
    {
        // There are fewer entries than a number holds, so each count has room.
        prove!(self.shapes.len() < usize::MAX);
        let count = count_in(&self.counts, shape.res);
        self.counts.insert(shape.res, count)?;
        self.shapes.insert(id, shape)?;
        self.counts.insert(shape.res, count + 1)?;
        Ok(())
    }

    /// A view is live no more. The answer is its shape, where it was live.
    pub fn remove(&mut self, id: u32) -> Option<ViewShape>
        ensures value { result ≡ ids.get self.old id }
        ensures removed { self.new ≡ ids.remove self.old id }
    {
        let shape = self.shapes.remove(&id)?;
        if let Some(count) = self.counts.get_mut(&shape.res) {
            *count -= 1;
        }
        Some(shape)
    }
}

// How many views are counted for a buffer.
fn count_in(counts: &BTreeMap<u32, u64>, res: u32) -> u64
    ensures { result ≡ unwrap_or (get nat_cmp counts.now res) 0 }
{
    counts.get(&res).copied().unwrap_or(0)
}
