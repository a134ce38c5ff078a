ghost use Rattle.std.specs.Prelude.{◌≡◌, ◌<◌, None, IfOk, length, slice_index_or};
ghost use Rattle.d3d_model.specs.Binding as model;
ghost use Rattle.std.specs.Option.{option_to_list};
ghost use Rattle.d3d_model.specs.Binding.{predicate_range, default_bindings, holds_buffer, holds_query, holds_shader, holds_view};
ghost use Rattle.d3d_views.specs.Limits.{EndFits, WordFits};
ghost use Rattle.d3d_views.specs.Meaning.{meaning};

use crate::ranges::{constant_range, push_constants, push_views, push_word, word_range};
use crate::slots::{any_beside, any_constant_of, any_view, any_view_of, empty_beside};
use crate::{BoundView, Predicate};
use dx_types::ResRange;
use dx_types::limits::{CONSTANT_SLOTS, SRV_SLOTS, UAV_SLOTS};
use std::alloc::{AllocError, Global};
use std::marker::Model;

/// What is set on a context. A clause sees the model's bindings: lists of the slots.
#[derive(Clone, Copy)]
pub struct Bindings {
    shader: u32,
    constants: [Option<ResRange>; CONSTANT_SLOTS],
    srvs: [Option<BoundView>; SRV_SLOTS],
    uavs: [Option<BoundView>; UAV_SLOTS],
    predicate: Predicate,
}

impl Model for Bindings {
    ghost use Rattle.d3d_model.specs.Binding as model;

    ghost Value = { model.Bindings };

    ghost use Rattle.d3d_views.specs.Limits.{Ending};
    ghost use Rattle.d3d_views.specs.Meaning.{meaning, meant_by};

    ghost view = { λ b. record {
      shader = b.shader;
      constants = b.constants;
      srvs = b.srvs;
      uavs = b.uavs;
      predicate = meaning b.predicate;
    } };

    ghost invariant = { λ b. Ending b.srvs b.uavs (meaning b.predicate) };

    ghost inverse = { λ v. record {
      shader = v.shader;
      constants = v.constants;
      srvs = v.srvs;
      uavs = v.uavs;
      predicate = meant_by v.predicate;
    } };
}

impl Bindings {
    /// The default state: no shader, empty slots, no predication.
    pub fn new() -> Bindings
        ensures { result ≡ default_bindings }
    {
        Bindings {
            shader: 0,
            constants: [None; CONSTANT_SLOTS],
            srvs: [None; SRV_SLOTS],
            uavs: [None; UAV_SLOTS],
            predicate: Predicate::Never,
        }
    }

    /// Sets a shader by its id; 0 for none.
    pub fn set_shader(&mut self, id: u32)
        ensures { self.new ≡ model.set_shader self.old id }
    {
        self.shader = id;
    }

    /// Sets a buffer in a constant slot, from 0 to 13, by its id; 0 empties the slot.
    pub fn set_constant(&mut self, slot: usize, res: u32)
        requires { slot < CONSTANT_SLOTS }
        ensures { self.new ≡ model.set_constant self.old slot res }
    {
        self.constants[slot] = constant_range(res);
    }

    /// Sets a view in a shader resource slot, from 0 to 15. A view of a buffer that is set in an unordered access slot leaves
    /// the slot empty, whatever it held.
    pub fn set_srv(&mut self, slot: usize, v: Option<BoundView>)
        requires slot { slot < SRV_SLOTS }
        requires end { EndFits v }
        ensures { self.new ≡ model.set_srv self.old slot v }
    {
        self.srvs[slot] = if any_beside(&self.uavs, &v) { None } else { v };
    }

    /// Sets a view in an unordered access slot, from 0 to 7. Each shader resource slot and each other unordered access slot
    /// that holds a view of the same buffer is emptied.
    pub fn set_uav(&mut self, slot: usize, v: Option<BoundView>)
        requires slot { slot < UAV_SLOTS }
        requires end { EndFits v }
        ensures { self.new ≡ model.set_uav self.old slot v }
    {
        empty_beside(&mut self.srvs, &v);
        empty_beside(&mut self.uavs, &v);
        self.uavs[slot] = v;
    }

    /// Sets the predicate of the calls that are predicated.
    pub fn set_predicate(&mut self, p: Predicate)
        requires { WordFits (meaning p) }
        ensures { self.new ≡ model.set_predicate self.old (meaning p) }
    {
        self.predicate = p;
    }

    /// Sets the default state.
    pub fn clear(&mut self)
        ensures { self.new ≡ default_bindings }
    {
        *self = Bindings::new();
    }

    /// There are 14 constant slots, 16 shader resource slots and 8 unordered access slots, set or empty.
    pub fn has_all_slots(&self)
        ensures constants { length self.now.constants ≡ CONSTANT_SLOTS }
        ensures srvs { length self.now.srvs ≡ SRV_SLOTS }
        ensures uavs { length self.now.uavs ≡ UAV_SLOTS }
    {
        let _constants: &[Option<ResRange>] = &self.constants;
        let _srvs: &[Option<BoundView>] = &self.srvs;
        let _uavs: &[Option<BoundView>] = &self.uavs;
    }

    /// The id of the shader that is set, 0 where none is.
    pub fn shader(&self) -> u32
        ensures { result ≡ self.now.shader }
    {
        self.shader
    }

    /// What a constant slot, from 0 to 13, shows: bytes 0 to 65,536 of its buffer, not yet cut to the buffer's size.
    pub fn constant(&self, slot: usize) -> Option<ResRange>
        requires { slot < CONSTANT_SLOTS }
        ensures { result ≡ slice_index_or self.now.constants slot None }
    {
        self.constants[slot]
    }

    /// The view in a shader resource slot, from 0 to 15.
    pub fn srv(&self, slot: usize) -> Option<BoundView>
        requires { slot < SRV_SLOTS }
        ensures value { result ≡ slice_index_or self.now.srvs slot None }
        ensures end { EndFits result }
    {
        self.srvs[slot]
    }

    /// The view in an unordered access slot, from 0 to 7.
    pub fn uav(&self, slot: usize) -> Option<BoundView>
        requires { slot < UAV_SLOTS }
        ensures value { result ≡ slice_index_or self.now.uavs slot None }
        ensures end { EndFits result }
    {
        self.uavs[slot]
    }

    /// The predicate that is set.
    pub fn predicate(&self) -> Predicate
        ensures { meaning result ≡ self.now.predicate }
    {
        self.predicate
    }

    /// The word that the predicate reads, if it reads one.
    pub fn predicate_word(&self) -> Option<ResRange>
        ensures { option_to_list result ≡ predicate_range self.now.predicate }
    {
        word_range(self.predicate)
    }

    /// Whether a buffer is set: in a constant slot, through a view, or as the predicate's.
    pub fn holds(&self, res: u32) -> bool
        ensures { result ≡ holds_buffer self.now res }
    {
        any_constant_of(&self.constants, res)
            || any_view_of(&self.srvs, res)
            || any_view_of(&self.uavs, res)
            || matches!(self.predicate, Predicate::Word { res: of, .. } if of == res)
    }

    /// Whether a view is set in a slot.
    pub fn holds_view(&self, view: u32) -> bool
        ensures { result ≡ holds_view self.now view }
    {
        any_view(&self.srvs, view) || any_view(&self.uavs, view)
    }

    /// Whether this shader is set.
    pub fn holds_shader(&self, id: u32) -> bool
        ensures { result ≡ holds_shader self.now id }
    {
        self.shader == id
    }

    /// Whether a query is the predicate's.
    pub fn holds_query(&self, query: u32) -> bool
        ensures { result ≡ holds_query self.now query }
    {
        matches!(self.predicate, Predicate::Query { id, .. } if id == query)
    }

    /// The ranges that a dispatch binds: of the constants, the shader resources and the unordered access views by rising slot,
    /// then the predicate's word. Constants are not yet cut to their buffers.
    pub fn footprint(&self, alloc: Global) -> Result<Vec<ResRange>, AllocError>
        ensures { IfOk result (λ ranges. ranges.items ≡ model.footprint self.now) }
    {
        let mut ranges = Vec::new(alloc);
        push_constants(&mut ranges, &self.constants)?;
        push_views(&mut ranges, &self.srvs)?;
        push_views(&mut ranges, &self.uavs)?;
        push_word(&mut ranges, self.predicate)?;
        Ok(ranges)
    }
}
