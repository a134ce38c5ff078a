ghost use Rattle.std.specs.Prelude.{◌≡◌, ◌+◌, ◌≤◌, nat_le, nat_lt, ◌&&◌, OnErr, OnOk};
ghost use Rattle.std.specs.Option.{ok_or};
ghost use Rattle.d3d_model.specs.Check.{first_failed};
ghost use Rattle.base_lemmas.specs.IdMap as ids;
ghost use Rattle.d3d_model.specs.Resource.{class_of, is_dynamic, live_bytes, live_dynamic};
ghost use Rattle.d3d_resources.specs.Creation.{table_checks};
ghost use Rattle.d3d_resources.specs.Outcome.{refusal_of};

use crate::TableEnd;
use crate::classes::{class_of, count_in, count_out, is_dynamic};
use crate::refusals::{has_bad_bind, has_bad_size, is_id};
use dx_types::limits::{CLASSES, MAX_DYNAMIC_OF_CLASS, MAX_LIVE_BYTES};
use dx_types::{Refusal, Shape};
use std::alloc::Global;
use std::collections::BTreeMap;
use std::marker::Model;

/// The shapes of the live buffers, by ids. A clause sees the map of them.
#[derive(Drop)]
pub struct Table {
    shapes: BTreeMap<u32, Shape>,
    total: u64,
    dynamic: [u32; CLASSES],
}

impl Model for Table {
    ghost use Rattle.base_lemmas.specs.CodeMap.{map_of};
    ghost use Rattle.d3d_model.specs.Resource as resource;
    ghost use Rattle.d3d_resources.specs.Totals.{Kept};

    ghost Value = { resource.Buffers };

    ghost coded = { resource.buffers_code };

    ghost view = { λ t. map_of (λ s. s) t.shapes.entries };

    ghost invariant = { λ t. Kept (map_of (λ s. s) t.shapes.entries) t.total t.dynamic };
}

impl Table {
    /// No buffer is live.
    pub fn new(alloc: Global) -> Table
        ensures { result ≡ ids.empty }
    {
        Table {
            shapes: BTreeMap::new(alloc),
            total: 0,
            dynamic: [0; CLASSES],
        }
    }

    /// The shape of a live buffer.
    pub fn shape(&self, id: u32) -> Option<Shape>
        ensures { result ≡ ids.get self.now id }
    {
        self.shapes.get(&id).copied()
    }

    /// The sizes of all live buffers together, in bytes.
    pub fn total(&self) -> u64
        ensures value { result ≡ live_bytes self.now }
        ensures at_most { result ≤ MAX_LIVE_BYTES }
    {
        self.total
    }

    /// One more buffer is live.
    ///
    /// It is refused for the first of these that is so: the id is not from 1 to 65,535 (`OutOfRange`) or is live (`IdInUse`);
    /// the size or the stride is out of its limits (`BadSize`); the bits don't go together or not with the usage (`BadBind`);
    /// the live sizes would be above 268,435,456 bytes (`TooMuchMemory`), or 32 dynamic buffers of its class are live
    /// (`TooManyDynamic`).
    pub fn create(&mut self, id: u32, shape: Shape) -> Result<(), TableEnd>
        ensures refused { refusal_of result ≡ first_failed (table_checks self.old id shape) }
        ensures created { OnOk result (self.new ≡ ids.insert self.old id shape) }
        ensures unchanged { OnErr result (self.new ≡ self.old) }
    {
        if let Some(why) = self.refusal(id, &shape) {
            return Err(TableEnd::Refused(why));
        }
        self.shapes.insert(id, shape)?;
        self.total += shape.size;
        count_in(&mut self.dynamic, &shape);
        Ok(())
    }

    /// A buffer is live no more. The answer is its shape; `UnknownId` where the id is not live.
    pub fn remove(&mut self, id: u32) -> Result<Shape, Refusal>
        ensures value { result ≡ ok_or (ids.get self.old id) Refusal.UnknownId }
        ensures removed { OnOk result (self.new ≡ ids.remove self.old id) }
        ensures unchanged { OnErr result (self.new ≡ self.old) }
    {
        let Some(shape) = self.shapes.remove(&id) else {
            return Err(Refusal::UnknownId);
        };
        self.total -= shape.size;
        count_out(&mut self.dynamic, &shape);
        Ok(shape)
    }

    /// Why a buffer of this shape can't be created under this id.
    pub fn refusal(&self, id: u32, shape: &Shape) -> Option<Refusal>
        ensures { result ≡ first_failed (table_checks self.now id shape.now) }
    {
        if !is_id(id) {
            Some(Refusal::OutOfRange)
        } else if self.shape(id).is_some() {
            Some(Refusal::IdInUse)
        } else if has_bad_size(shape) {
            Some(Refusal::BadSize)
        } else if has_bad_bind(shape) {
            Some(Refusal::BadBind)
        } else if self.is_full(shape.size) {
            Some(Refusal::TooMuchMemory)
        } else if self.has_too_many(shape) {
            Some(Refusal::TooManyDynamic)
        } else {
            None
        }
    }

    fn is_full(&self, size: u64) -> bool
        ensures { result ≡ nat_lt MAX_LIVE_BYTES (live_bytes self.now + size) }
    {
        size > MAX_LIVE_BYTES - self.total
    }

    fn has_too_many(&self, shape: &Shape) -> bool
        ensures { result ≡ (is_dynamic shape.now.usage
            && nat_le MAX_DYNAMIC_OF_CLASS (live_dynamic self.now (class_of shape.now.size))) }
    {
        is_dynamic(shape) && self.dynamic[class_of(shape.size)] >= MAX_DYNAMIC_OF_CLASS
    }
}
