ghost use Rattle.std.specs.Prelude.{◌≡◌, ◌<◌, ◌≤◌, [], ◌∷◌, ◌++◌, length, slice_get, IfOk, MatchOption, MatchResult};
ghost use Rattle.std.specs.Option.{option_copied};
ghost use Rattle.dx_types.specs.declared.limits.TheConstants.{CHUNK_ENTRIES};

use crate::entry::Entry;
use dx_types::limits::CHUNK_ENTRIES;
use std::alloc::{AllocError, Global};
use std::collections::VecDeque;
use std::marker::Model;

/// The entries of a chunk, with room for as many as it may have.
#[derive(Drop)]
pub struct EntryQueue {
    entries: VecDeque<Entry>,
}

impl Model for EntryQueue {
    ghost use Rattle.std.specs.Prelude.{◌≤◌, List, length};
    ghost use Rattle.std.specs.VecDeque.{deque_capacity};
    ghost use Rattle.cs_chunk.specs.declared.entry.Entry.{Entry};
    ghost use Rattle.dx_types.specs.declared.limits.TheConstants.{CHUNK_ENTRIES};

    ghost Value = { List Entry };

    ghost view = { λ q. q.entries.items };

    ghost invariant = { λ q. (length q.entries.items ≤ CHUNK_ENTRIES) × (CHUNK_ENTRIES ≤ deque_capacity q.entries) };
}

impl EntryQueue {
    pub fn new(alloc: Global) -> Result<EntryQueue, AllocError>
        ensures { IfOk result (λ q. q ≡ []) }
    {
        let entries = VecDeque::with_capacity(alloc, CHUNK_ENTRIES)?;
        Ok(EntryQueue { entries })
    }

    pub fn len(&self) -> usize
        ensures len { result ≡ length self.now }
        ensures within { result ≤ CHUNK_ENTRIES }
    {
        self.entries.len()
    }

    pub fn get(&self, i: usize) -> Option<&Entry>
        ensures { option_copied result ≡ slice_get self.now i }
    {
        self.entries.get(i)
    }

    // The entry comes back where there are 64.
    pub fn push(&mut self, e: Entry) -> Result<(), Entry>
        ensures { MatchResult result
            (λ _. (length self.old < CHUNK_ENTRIES) × (self.new ≡ self.old ++ e ∷ []))
            (λ back. (length self.old ≡ CHUNK_ENTRIES) × (back ≡ e) × (self.new ≡ self.old)) }
    {
        if self.entries.len() >= CHUNK_ENTRIES {
            return Err(e);
        }
        self.entries.push_back_reserved(e);
        Ok(())
    }

    pub fn pop(&mut self) -> Option<Entry>
        ensures { MatchOption result ((self.old ≡ []) × (self.new ≡ [])) (λ e. self.old ≡ e ∷ self.new) }
    {
        self.entries.pop_front()
    }
}
