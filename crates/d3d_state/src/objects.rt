ghost use Rattle.d3d_model.specs.declared.codes.TheConstants.{BUFFER_CLASS, VIEW_CLASS, SHADER_CLASS, QUERY_CLASS, LIST_CLASS};
ghost use Rattle.d3d_lists.specs.declared.recorder.TheConstants.{CONTEXTS};

use crate::settings::Settings;
use crate::{LiveShader, Queries, Query, Setting, Shaders, Views};
use call_log::Call;
use d3d_lists::{CONTEXTS, Name, Numbered, Recorder};
use d3d_resources::{Table, TableEnd};
use d3d_views::{Bindings, BoundView};
use dx_types::{CallNo, Refusal, Shape, ViewShape};
use shader_model::Shader;
use std::alloc::{AllocError, Global};

/// What is live, what is set on each context, and what the deferred contexts record.
#[derive(Drop)]
pub struct Objects<'a> {
    alloc: Global,
    buffers: Table,
    views: Views,
    shaders: Shaders,
    queries: Queries,
    settings: Settings,
    recorder: Recorder<'a>,
}

// What the checks ask.
impl<'a> Objects<'a> {
    ghost use Rattle.std.specs.Prelude.{◌≡◌, ◌<◌, ◌^◌, ◌||◌, List, length, false, IfOk, IfSome};
    ghost use Rattle.std.specs.Borrow.{Bor};
    ghost use Rattle.std.specs.Option.{option_copied, option_map};
    ghost use Rattle.shader_model.specs.Shader.{Tree, program_of};
    ghost use Rattle.d3d_model.specs.Binding.{holds_buffer, holds_query, holds_shader, holds_view};
    ghost use Rattle.d3d_model.specs.Check.{first_failed};
    ghost use Rattle.d3d_model.specs.D3dState.{bindings_of, bound_view, buffer_of, context_of, no_objects, words_set};
    ghost use Rattle.base_lemmas.specs.IdMap as ids;
    ghost use Rattle.std.specs.List.{list_any};
    ghost use Rattle.d3d_lists.specs.declared.numbered.Numbered.{Numbered as RecordedCall};
    ghost use Rattle.d3d_lists.specs.Calls.{calls_in};
    ghost use Rattle.d3d_lists.specs.Names.{name_view};
    ghost use Rattle.d3d_model.specs.Stream.{begun_after, begun_in_list, is_listed};
    ghost use Rattle.d3d_model.specs.Verdict.{has_view, is_set, query_is};
    ghost use Rattle.d3d_model.specs.View.{view_end};
    ghost use Rattle.d3d_resources.specs.Creation.{table_checks};
    ghost use Rattle.d3d_state.specs.Meaning.{objects_of};
    ghost use Rattle.d3d_state.specs.Shaders.{program_by};
    ghost use Rattle.d3d_views.specs.Limits.{EndFits};

    /// Nothing is live, nothing is set, and nothing is recorded.
    pub fn new(alloc: Global) -> Result<Objects<'a>, AllocError>
        ensures { IfOk result (λ o. objects_of o ≡ no_objects) }
    {
        let recorder = Recorder::new(alloc)?;
        Ok(Objects {
            alloc,
            buffers: Table::new(alloc),
            views: Views::new(alloc),
            shaders: Shaders::new(alloc),
            queries: Queries::new(alloc),
            settings: Settings::new(),
            recorder,
        })
    }

    /// The shape of a live buffer.
    pub fn buffer(&self, id: u32) -> Option<Shape>
        ensures { result ≡ buffer_of (objects_of self.now) id }
    {
        self.buffers.shape(id)
    }

    /// Why a buffer of this shape can't be created under this id, by its id, its shape and what is live.
    pub fn buffer_refusal(&self, id: u32, shape: &Shape) -> Option<Refusal>
        ensures { result ≡ first_failed (table_checks (objects_of self.now).buffers id shape.now) }
    {
        self.buffers.refusal(id, shape)
    }

    /// The shape of a live view.
    pub fn view(&self, id: u32) -> Option<ViewShape>
        ensures value { result ≡ ids.get (objects_of self.now).views id }
        ensures end { IfSome result (λ v. view_end v < 2 ^ 64) }
    {
        self.views.shape(id)
    }

    /// What a slot holds once a view is set by its id: nothing for id 0.
    pub fn bound_view(&self, id: u32) -> Option<BoundView>
        ensures value { result ≡ bound_view (objects_of self.now) id }
        ensures end { EndFits result }
    {
        if id == 0 {
            return None;
        }
        let shape = self.views.shape(id)?;
        Some(BoundView { view: id, shape })
    }

    /// A live shader.
    pub fn shader(&self, id: u32) -> Option<&LiveShader>
        ensures { option_copied result ≡ ids.get (objects_of self.now).shaders id }
    {
        self.shaders.get(id)
    }

    /// The tree of the shader that is set on a context; none where none is set.
    pub fn shader_on(&self, context: u16) -> Option<&Shader>
        requires { context < CONTEXTS }
        ensures { let o = objects_of self.now in
            option_map (λ (s : Bor Tree). program_of s.now) result ≡ program_by (words_set o (bindings_of o context)) }
    {
        let shader = self.shaders.get(self.settings.on(context).shader())?;
        Some(shader.tree())
    }

    /// A live query.
    pub fn query(&self, id: u32) -> Option<Query>
        ensures { result ≡ ids.get (objects_of self.now).queries id }
    {
        self.queries.get(id)
    }

    /// What is set on a context.
    pub fn bindings(&self, context: u16) -> &Bindings
        requires { context < CONTEXTS }
        ensures { result.now ≡ bindings_of (objects_of self.now) context }
    {
        self.settings.on(context)
    }

    /// How many calls the open list of a context has.
    pub fn recorded_count(&self, context: u16) -> usize
        requires { context < CONTEXTS }
        ensures { result ≡ length (context_of (objects_of self.now) context).recorded }
    {
        self.recorder.count(context)
    }

    /// Whether the open list of a context leaves a query begun.
    pub fn is_begun_in_list(&self, context: u16, query: u32) -> bool
        requires { context < CONTEXTS }
        ensures { result ≡ begun_after query false (context_of (objects_of self.now) context).recorded }
    {
        self.recorder.is_begun(context, query)
    }

    /// Whether the open list of a context leaves a query begun that it begins. It goes over the list's calls.
    pub fn leaves_begun(&self, context: u16) -> bool
        requires { context < CONTEXTS }
        ensures { let cs = (context_of (objects_of self.now) context).recorded in
            result ≡ list_any (λ q. begun_after q false cs) (begun_in_list cs) }
    {
        self.recorder.leaves_begun(context)
    }

    /// The calls of a live list, in order.
    pub fn list(&self, list: u32) -> Option<&[Numbered<'a>]>
        ensures { option_map (λ (b : Bor (List RecordedCall)). calls_in b.now) result ≡ ids.get (objects_of self.now).lists list }
    {
        self.recorder.list(list)
    }

    /// Whether a buffer may not be destroyed: it is set, a command list names it, or it has a live view.
    pub fn uses_buffer(&self, id: u32) -> bool
        ensures { let o = objects_of self.now in
            result ≡ (is_set o (λ b. holds_buffer b id) || is_listed o BUFFER_CLASS id || has_view o id) }
    {
        self.is_held(self.settings.hold_buffer(id), Name::Buffer(id)) || self.views.has_of(id)
    }

    /// Whether a view may not be destroyed: it is set, or a command list names it.
    pub fn uses_view(&self, id: u32) -> bool
        ensures { let o = objects_of self.now in
            result ≡ (is_set o (λ b. holds_view b id) || is_listed o VIEW_CLASS id) }
    {
        self.is_held(self.settings.hold_view(id), Name::View(id))
    }

    /// Whether a shader may not be destroyed: it is set, or a command list names it.
    pub fn uses_shader(&self, id: u32) -> bool
        ensures { let o = objects_of self.now in
            result ≡ (is_set o (λ b. holds_shader b id) || is_listed o SHADER_CLASS id) }
    {
        self.is_held(self.settings.hold_shader(id), Name::Shader(id))
    }

    /// Whether a query may not be destroyed: it is the predicate's, a command list names it, or it is begun.
    pub fn uses_query(&self, id: u32) -> bool
        ensures { let o = objects_of self.now in
            result ≡ (is_set o (λ b. holds_query b id) || is_listed o QUERY_CLASS id || query_is o id (λ q. q.begun)) }
    {
        self.is_held(self.settings.hold_query(id), Name::Query(id)) || self.is_begun(id)
    }

    // Whether an object is set, or a command list names it.
    fn is_held(&self, is_set: bool, name: Name) -> bool
        ensures { result ≡ (is_set || is_listed (objects_of self.now) (name_view name).class (name_view name).id) }
    {
        is_set || self.recorder.names(name)
    }

    /// Whether a live query is begun on the immediate context.
    pub fn is_begun(&self, id: u32) -> bool
        ensures { result ≡ query_is (objects_of self.now) id (λ q. q.begun) }
    {
        match self.queries.get(id) {
            Some(query) => query.begun,
            None => false,
        }
    }
}

// What accepted calls change.
impl<'a> Objects<'a> {
    ghost use Rattle.std.specs.Prelude.{◌≡◌, ◌<◌, ◌^◌, None, OnErr, OnOk};
    ghost use Rattle.call_log.specs.View.{call_view};
    ghost use Rattle.d3d_model.specs.Check.{first_failed};
    ghost use Rattle.d3d_model.specs.D3dState.{bindings_of, with_bindings};
    ghost use Rattle.d3d_model.specs.Effect.{begun_query, destroyed, ended_query, finished};
    ghost use Rattle.base_lemmas.specs.IdMap as ids;
    ghost use Rattle.d3d_model.specs.View.{view_end};
    ghost use Rattle.d3d_resources.specs.Creation.{table_checks};
    ghost use Rattle.d3d_state.specs.Meaning.{objects_of, with_buffer, with_queries, with_query, with_recorded, with_shader, with_view};
    ghost use Rattle.d3d_state.specs.Setting.{Fits, set_to};

    /// One more buffer is live. Want of memory changes nothing.
    pub fn create_buffer(&mut self, id: u32, shape: Shape) -> Result<(), AllocError>
        requires { first_failed (table_checks (objects_of self.old).buffers id shape) ≡ None }
        ensures created { OnOk result (objects_of self.new ≡ with_buffer (objects_of self.old) id shape) }
        ensures unchanged { OnErr result (objects_of self.new ≡ objects_of self.old) }
    {
        match self.buffers.create(id, shape) {
            Ok(()) => Ok(()),
            Err(TableEnd::NoMemory) => Err(AllocError),
            Err(TableEnd::Refused(_)) => unreachable!(),
        }
    }

    /// One more view is live. Want of memory changes nothing.
    pub fn create_view(&mut self, id: u32, shape: ViewShape) -> Result<(), AllocError>
        requires free { ids.get (objects_of self.old).views id ≡ None }
        requires end { view_end shape < 2 ^ 64 }
        ensures created { OnOk result (objects_of self.new ≡ with_view (objects_of self.old) id shape) }
        ensures unchanged { OnErr result (objects_of self.new ≡ objects_of self.old) }
    {
        self.views.insert(id, shape)
    }

    /// One more shader is live. Want of memory changes nothing.
    pub fn create_shader(&mut self, id: u32, shader: LiveShader) -> Result<(), AllocError>
        ensures created { OnOk result (objects_of self.new ≡ with_shader (objects_of self.old) id shader) }
        ensures unchanged { OnErr result (objects_of self.new ≡ objects_of self.old) }
    {
        self.shaders.insert(id, shader)
    }

    /// One more query is live. Want of memory changes nothing.
    pub fn create_query(&mut self, id: u32, query: Query) -> Result<(), AllocError>
        ensures created { OnOk result (objects_of self.new ≡ with_query (objects_of self.old) id query) }
        ensures unchanged { OnErr result (objects_of self.new ≡ objects_of self.old) }
    {
        self.queries.insert(id, query)
    }

    /// A buffer is live no more.
    pub fn destroy_buffer(&mut self, id: u32)
        ensures { objects_of self.new ≡ destroyed (objects_of self.old) BUFFER_CLASS id }
    {
        let _ = self.buffers.remove(id);
    }

    /// A view is live no more.
    pub fn destroy_view(&mut self, id: u32)
        ensures { objects_of self.new ≡ destroyed (objects_of self.old) VIEW_CLASS id }
    {
        let _ = self.views.remove(id);
    }

    /// A shader is live no more.
    pub fn destroy_shader(&mut self, id: u32)
        ensures { objects_of self.new ≡ destroyed (objects_of self.old) SHADER_CLASS id }
    {
        self.shaders.remove(id);
    }

    /// A query is live no more.
    pub fn destroy_query(&mut self, id: u32)
        ensures { objects_of self.new ≡ destroyed (objects_of self.old) QUERY_CLASS id }
    {
        self.queries.remove(id);
    }

    /// A list is live no more.
    pub fn destroy_list(&mut self, id: u32)
        ensures { objects_of self.new ≡ destroyed (objects_of self.old) LIST_CLASS id }
    {
        self.recorder.remove(id);
    }

    /// Sets one thing on a context.
    pub fn set(&mut self, context: u16, setting: Setting)
        requires context { context < CONTEXTS }
        requires fits { Fits setting }
        ensures { let o = objects_of self.old in
            objects_of self.new ≡ with_bindings o context (set_to (bindings_of o context) setting) }
    {
        self.settings.set(context, setting);
    }

    /// Call n is recorded in the open list of a context, and sets nothing. Want of memory changes nothing.
    pub fn record(&mut self, context: u16, n: CallNo, call: Call<'a>) -> Result<(), AllocError>
        requires { context < CONTEXTS }
        ensures recorded { OnOk result (objects_of self.new ≡ with_recorded (objects_of self.old) context n (call_view call.entry)) }
        ensures unchanged { OnErr result (objects_of self.new ≡ objects_of self.old) }
    {
        self.recorder.record(context, Numbered { number: n, call })
    }

    /// The open list of a context becomes a live one under a free id, and the context begins anew. Want of memory changes
    /// nothing.
    pub fn finish_list(&mut self, context: u16, list: u32) -> Result<(), AllocError>
        requires context { context < CONTEXTS }
        requires free { ids.get (objects_of self.old).lists list ≡ None }
        ensures finished { OnOk result (objects_of self.new ≡ finished (objects_of self.old) context list) }
        ensures unchanged { OnErr result (objects_of self.new ≡ objects_of self.old) }
    {
        self.recorder.finish(self.alloc, context, list)?;
        self.settings.set(context, Setting::Default);
        Ok(())
    }

    /// A live query begins on the immediate context.
    pub fn begin(&mut self, query: u32)
        ensures { let o = objects_of self.old in
            objects_of self.new ≡ with_queries o (begun_query (ids.get o.queries query) o.queries query) }
    {
        self.queries.begin(query);
    }

    /// Call n ends a live query on the immediate context.
    pub fn end(&mut self, query: u32, n: CallNo)
        ensures { let o = objects_of self.old in
            objects_of self.new ≡ with_queries o (ended_query n (ids.get o.queries query) o.queries query) }
    {
        self.queries.end(query, n);
    }
}
