ghost use Rattle.std.specs.Prelude.{◌≡◌, ◌<◌, ◌^◌, length, slice_get, IfOk};
ghost use Rattle.deferred_ctx.specs.Lists.{CommandList};

use dx_types::CallNo;
use std::alloc::{AllocError, Global};
use std::marker::Model;

/// A command list: the call that made it, and the calls that it holds, by their numbers in the log, in order.
#[derive(Drop)]
pub struct List {
    made_by: CallNo,
    calls: Vec<CallNo>,
}

impl Model for List {
    ghost use Rattle.std.specs.Prelude.{◌<◌, ◌^◌, length};
    ghost use Rattle.deferred_ctx.specs.Lists.{CommandList};

    ghost Value = { CommandList };

    ghost view = { λ l. record { made_by = l.made_by; calls = l.calls.items } };

    ghost invariant = { λ l. length l.calls.items < 2 ^ 32 };
}

impl List {
    /// The list that this call makes of these calls. More of them than 32 bits count are more than memory holds.
    pub(crate) fn new(alloc: Global, made_by: CallNo, calls: &[CallNo]) -> Result<List, AllocError>
        ensures { IfOk result (λ list. list ≡ record { made_by = made_by; calls = calls.now }) }
    {
        if u32::try_from(calls.len()).is_err() {
            return Err(AllocError);
        }
        let mut own = Vec::new(alloc);
        own.extend_from_slice(calls)?;
        Ok(List {
            made_by,
            calls: own,
        })
    }

    /// The call of the log that finished the list.
    pub fn made_by(&self) -> CallNo
        ensures { result ≡ self.now.made_by }
    {
        self.made_by
    }

    /// How many calls it holds.
    pub fn count(&self) -> u32
        ensures { result ≡ length self.now.calls }
    {
        self.calls.len() as u32
    }

    /// The call of the log that stands at this place of the list, from 0; None exactly past the last.
    pub fn expand(&self, at: u32) -> Option<CallNo>
        ensures { result ≡ slice_get self.now.calls at }
    {
        self.calls.get(at as usize).copied()
    }
}
