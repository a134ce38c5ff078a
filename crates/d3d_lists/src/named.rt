ghost use Rattle.std.specs.Prelude.{◌≡◌, ◌+◌, ◌-◌, OnOk, Option};

use crate::Name;
use crate::counts::Counts;
use std::alloc::{AllocError, Global};

/// How often the calls of open and of live lists name each object, by its class.
#[derive(Drop)]
pub(crate) struct Named {
    pub(crate) buffers: Counts,
    pub(crate) views: Counts,
    pub(crate) shaders: Counts,
    pub(crate) queries: Counts,
}

impl Named {
    ghost use Rattle.d3d_lists.specs.declared.name.Name.{Name as Object};
    ghost use Rattle.d3d_lists.specs.Named.{RoomFor, count_of, times_for};

    /// Nothing is named.
    pub(crate) fn new(alloc: Global) -> Named
        ensures { (k : Object) → count_of result k ≡ 0 }
    {
        Named {
            buffers: Counts::new(alloc),
            views: Counts::new(alloc),
            shaders: Counts::new(alloc),
            queries: Counts::new(alloc),
        }
    }

    /// How often an object is named.
    pub(crate) fn count(&self, name: Name) -> u64
        ensures { result ≡ count_of self.now name }
    {
        match name {
            Name::Buffer(id) => self.buffers.get(id),
            Name::View(id) => self.views.get(id),
            Name::Shader(id) => self.shaders.get(id),
            Name::Query(id) => self.queries.get(id),
        }
    }

    /// Makes room for naming an object twice, if there is one. No count changes.
    pub(crate) fn make_room(&mut self, name: Option<Name>) -> Result<(), AllocError>
        ensures room { OnOk result (RoomFor self.new name 2) }
        ensures kept { (k : Option Object) → RoomFor self.old k 2 → RoomFor self.new k 2 }
        ensures same { (k : Object) → count_of self.new k ≡ count_of self.old k }
    {
        match name {
            None => Ok(()),
            Some(Name::Buffer(id)) => self.buffers.make_room(id),
            Some(Name::View(id)) => self.views.make_room(id),
            Some(Name::Shader(id)) => self.shaders.make_room(id),
            Some(Name::Query(id)) => self.queries.make_room(id),
        }
    }

    /// An object is named once more, if there is one.
    pub(crate) fn raise(&mut self, name: Option<Name>)
        requires { RoomFor self.old name 1 }
        ensures counts { (k : Object) → count_of self.new k ≡ count_of self.old k + times_for k name }
        ensures kept { (k : Option Object) → RoomFor self.old k 2 → RoomFor self.new k 1 }
    {
        match name {
            None => {}
            Some(Name::Buffer(id)) => self.buffers.raise(id),
            Some(Name::View(id)) => self.views.raise(id),
            Some(Name::Shader(id)) => self.shaders.raise(id),
            Some(Name::Query(id)) => self.queries.raise(id),
        }
    }

    /// An object is named once less, if there is one.
    pub(crate) fn lower(&mut self, name: Option<Name>)
        ensures { (k : Object) → count_of self.new k ≡ count_of self.old k - times_for k name }
    {
        match name {
            None => {}
            Some(Name::Buffer(id)) => self.buffers.lower(id),
            Some(Name::View(id)) => self.views.lower(id),
            Some(Name::Shader(id)) => self.shaders.lower(id),
            Some(Name::Query(id)) => self.queries.lower(id),
        }
    }
}
