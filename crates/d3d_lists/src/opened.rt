ghost use Rattle.d3d_lists.specs.Begun.{CountsBegun};
ghost use Rattle.d3d_lists.specs.Calls.{calls_in};

use crate::Numbered;
use crate::counts::Counts;
use call_log::Call;
use std::alloc::{AllocError, Global};
use std::mem;

/// The open list of a context: its calls in order, and how often each query was begun in it since it was last ended.
#[derive(Drop)]
pub(crate) struct OpenList<'a> {
    calls: Vec<Numbered<'a>>,
    begun: Counts,
    ghost begun_is: { CountsBegun begun (calls_in calls.items) },
}

impl<'a> OpenList<'a> {
    ghost use Rattle.std.specs.Prelude.{◌≡◌, ◌++◌, ◌∷◌, [], false, length, OnErr, OnOk};
    ghost use Rattle.std.specs.List.{list_any};
    ghost use Rattle.call_log.specs.View.{call_view};
    ghost use Rattle.d3d_model.specs.Stream.{begins, begun_after, begun_in_list};
    ghost use Rattle.d3d_lists.specs.declared.numbered.Numbered.{Numbered as RecordedCall};
    ghost use Rattle.d3d_lists.specs.Calls.{numbered};

    /// No call is recorded.
    pub(crate) fn new(alloc: Global) -> OpenList<'a>
        ensures { calls_in result.calls.items ≡ [] }
    {
        OpenList {
            calls: Vec::new(alloc),
            begun: Counts::new(alloc),
        }
    }

    /// How many calls are recorded.
    pub(crate) fn count(&self) -> usize
        ensures { result ≡ length (calls_in self.now.calls.items) }
    {
        self.calls.len()
    }

    /// Whether the calls leave a query begun.
    pub(crate) fn is_begun(&self, query: u32) -> bool
        ensures { result ≡ begun_after query false (calls_in self.now.calls.items) }
    {
        self.begun.get(query) > 0
    }

    /// Whether a query that a call begins is still begun after all.
    pub(crate) fn leaves_begun(&self) -> bool
        ensures { let cs = calls_in self.now.calls.items in
            result ≡ list_any (λ q. begun_after q false cs) (begun_in_list cs) }
    {
        self.any_begun()
    }

    // Whether a query that a call begins is still begun, call by call.
    fn any_begun(&self) -> bool
        ensures { let cs = calls_in self.now.calls.items in
            result ≡ list_any (λ (c : RecordedCall). list_any (λ q. begun_after q false cs) (begins (call_view c.call))) self.now.calls.items }
    {
        self.calls.iter().any(|c| self.begins_begun(&c.call))
    }

    // Whether a call begins a query that is still begun after all calls.
    fn begins_begun(&self, call: &Call<'_>) -> bool
        ensures { let cs = calls_in self.now.calls.items in
            result ≡ list_any (λ q. begun_after q false cs) (begins (call_view call.now)) }
    {
        match *call {
            Call::Begin { query } => self.is_begun(query),
            _ => false,
        }
    }

    /// One more call is recorded. Want of memory changes nothing.
    pub(crate) fn push(&mut self, call: Numbered<'a>) -> Result<(), AllocError>
        ensures pushed { OnOk result (calls_in self.new.calls.items ≡ calls_in self.old.calls.items ++ numbered call.entry ∷ []) }
        ensures unchanged { OnErr result (calls_in self.new.calls.items ≡ calls_in self.old.calls.items) }
    {
        match call.call {
            Call::Begin { query } => {
                self.begun.make_room(query)?;
                self.calls.push(call)?;
                self.begun.raise(query);
            }
            Call::EndQuery { query } => {
                self.calls.push(call)?;
                self.begun.clear(query);
            }
            _ => self.calls.push(call)?,
        }
        Ok(())
    }

    /// The calls, which leave an empty list.
    pub(crate) fn take(&mut self, alloc: Global) -> Vec<Numbered<'a>>
        ensures taken { calls_in result.items ≡ calls_in self.old.calls.items }
        ensures left { calls_in self.new.calls.items ≡ [] }
    {
        self.begun = Counts::new(alloc);
        mem::replace(&mut self.calls, Vec::new(alloc))
    }
}
