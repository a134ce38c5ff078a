ghost use Rattle.std.specs.Prelude.{◌≡◌, ◌<◌, ◌≤◌, [], ◌∷◌, ◌++◌, length, slice_get, IfOk, OnOk, OnErr, MatchOption, MatchResult};
ghost use Rattle.std.specs.Option.{option_copied};
ghost use Rattle.cs_chunk.specs.Chunk.{entries_of, pages_of, with_entries, with_pages};
ghost use Rattle.dx_types.specs.declared.limits.TheConstants.{CHUNK_ENTRIES};

use crate::entry::Entry;
use crate::entry_queue::EntryQueue;
use crate::page_queue::PageQueue;
use dx_types::{CallNo, ChunkNo};
use staging_pages::Page;
use std::alloc::{AllocError, Global};

/// A part of a run, which goes to the device as one batch: at most CHUNK_ENTRIES entries in order, and the pages on which their
/// bytes are staged. `upto` is the last call that was done with when the chunk was handed over.
#[derive(Drop)]
pub struct Chunk {
    pub number: ChunkNo,
    pub upto: CallNo,
    entries: EntryQueue,
    pages: PageQueue,
}

impl Chunk {
    /// A chunk of this number, up to call 0, with no entries and no pages. It has room for CHUNK_ENTRIES entries from here on.
    pub fn new(alloc: Global, number: ChunkNo) -> Result<Chunk, AllocError>
        ensures number { IfOk result (λ chunk. chunk.number ≡ number) }
        ensures upto { IfOk result (λ chunk. chunk.upto ≡ 0) }
        ensures entries { IfOk result (λ chunk. entries_of chunk ≡ []) }
        ensures pages { IfOk result (λ chunk. pages_of chunk ≡ []) }
    {
        let entries = EntryQueue::new(alloc)?;
        Ok(Chunk {
            number,
            upto: 0,
            entries,
            pages: PageQueue::new(alloc),
        })
    }

    /// Adds an entry behind the others. Where there are CHUNK_ENTRIES, it comes back, and nothing changes.
    pub fn add(&mut self, e: Entry) -> Result<(), Entry>
        ensures { MatchResult result
            (λ _. (length (entries_of self.old) < CHUNK_ENTRIES)
            × (self.new ≡ with_entries self.old (entries_of self.old ++ e ∷ [])))
            (λ back. (length (entries_of self.old) ≡ CHUNK_ENTRIES) × (back ≡ e) × (self.new ≡ self.old)) }
    {
        self.entries.push(e)
    }

    /// How many entries there are.
    pub fn count(&self) -> u32
        ensures count { result ≡ length (entries_of self.now) }
        ensures within { result ≤ CHUNK_ENTRIES }
    {
        self.entries.len() as u32
    }

    /// The entry at place `i`, from 0, or `None` past the last.
    pub fn entry(&self, i: u32) -> Option<&Entry>
        ensures { option_copied result ≡ slice_get (entries_of self.now) i }
    {
        self.entries.get(i as usize)
    }

    /// Takes the first entry out, or `None` where none is left.
    pub fn take_entry(&mut self) -> Option<Entry>
        ensures { MatchOption result
            ((entries_of self.old ≡ []) × (self.new ≡ self.old))
            (λ e. self.old ≡ with_entries self.new (e ∷ entries_of self.new)) }
    {
        self.entries.pop()
    }

    /// Puts a page behind the others. A lack of memory changes nothing, and the page is gone.
    pub fn put_page(&mut self, p: Page) -> Result<(), AllocError>
        ensures ok { OnOk result (self.new ≡ with_pages self.old (pages_of self.old ++ p ∷ [])) }
        ensures err { OnErr result (self.new ≡ self.old) }
    {
        self.pages.push(p)
    }

    /// Takes the first page out, or `None` where none is left.
    pub fn take_page(&mut self) -> Option<Page>
        ensures { MatchOption result
            ((pages_of self.old ≡ []) × (self.new ≡ self.old))
            (λ p. self.old ≡ with_pages self.new (p ∷ pages_of self.new)) }
    {
        self.pages.pop()
    }
}
