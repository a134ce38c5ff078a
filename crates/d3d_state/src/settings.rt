ghost use Rattle.std.specs.Prelude.{◌≡◌, length};
ghost use Rattle.d3d_lists.specs.declared.recorder.TheConstants.{CONTEXTS};

use crate::setting::{Setting, set_one};
use d3d_lists::CONTEXTS;
use d3d_views::Bindings;

const COUNT: usize = CONTEXTS as usize;

/// What is set on each context.
#[derive(Drop)]
pub(crate) struct Settings {
    pub(crate) bindings: [Bindings; COUNT],
    ghost all: { length bindings ≡ CONTEXTS },
}

impl Settings {
    ghost use Rattle.std.specs.Prelude.{◌<◌, replicate, slice_index_or, slice_set};
    ghost use Rattle.std.specs.List.{list_any};
    ghost use Rattle.d3d_model.specs.Binding.{default_bindings, holds_buffer, holds_query, holds_shader, holds_view};
    ghost use Rattle.d3d_state.specs.Setting.{Fits, set_to};

    /// The default state of each context.
    pub(crate) fn new() -> Settings
        ensures { result.bindings ≡ replicate CONTEXTS default_bindings }
    {
        Settings {
            bindings: [Bindings::new(); COUNT],
        }
    }

    /// What is set on a context.
    pub(crate) fn on(&self, context: u16) -> &Bindings
        requires { context < CONTEXTS }
        ensures { result.now ≡ slice_index_or self.now.bindings context default_bindings }
    {
        &self.bindings[context as usize]
    }

    /// Sets one thing on a context.
    pub(crate) fn set(&mut self, context: u16, setting: Setting)
        requires context { context < CONTEXTS }
        requires fits { Fits setting }
        ensures { self.new.bindings ≡ slice_set self.old.bindings context
            (set_to (slice_index_or self.old.bindings context default_bindings) setting) }
    {
        set_one(&mut self.bindings[context as usize], setting);
    }

    /// Whether a buffer is set on a context: in a constant slot, through a view, or as the predicate's.
    pub(crate) fn hold_buffer(&self, res: u32) -> bool
        ensures { result ≡ list_any (λ b. holds_buffer b res) self.now.bindings }
    {
        self.bindings.iter().any(|b| b.holds(res))
    }

    /// Whether a view is set on a context.
    pub(crate) fn hold_view(&self, view: u32) -> bool
        ensures { result ≡ list_any (λ b. holds_view b view) self.now.bindings }
    {
        self.bindings.iter().any(|b| b.holds_view(view))
    }

    /// Whether a shader is set on a context: 0 where none is.
    pub(crate) fn hold_shader(&self, id: u32) -> bool
        ensures { result ≡ list_any (λ b. holds_shader b id) self.now.bindings }
    {
        self.bindings.iter().any(|b| b.holds_shader(id))
    }

    /// Whether a query is the predicate's of a context.
    pub(crate) fn hold_query(&self, query: u32) -> bool
        ensures { result ≡ list_any (λ b. holds_query b query) self.now.bindings }
    {
        self.bindings.iter().any(|b| b.holds_query(query))
    }
}
