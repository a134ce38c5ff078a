ghost use Rattle.std.specs.Prelude.{◌≡◌, ◌≤◌, false};
ghost use Rattle.immediate_ctx.specs.Due.{counted, is_due_by, is_full_by, no_counts};
ghost use Rattle.dx_types.specs.declared.limits.TheConstants.{MAX_BUFFER_SIZE};

use dx_types::limits::{CHUNK_ENTRIES, CHUNK_MARKS, CHUNK_STAGED_BYTES};

/// What the open chunk holds, as far as that decides when it is handed over: its entries, the blocks of dynamic buffers that they
/// retire, and the bytes that they stage.
#[derive(Clone, Copy, Debug, PartialEq, Eq)]
pub struct Counts {
    pub entries: u32,
    pub marks: u32,
    pub staged: u64,
}

impl Counts {
    /// The counts of a chunk without entries.
    pub fn new() -> Counts
        ensures { result ≡ no_counts }
    {
        Counts {
            entries: 0,
            marks: 0,
            staged: 0,
        }
    }

    /// One more entry, which retires a dynamic buffer's block or doesn't, and stages so many bytes. A full chunk takes none.
    pub fn add(&mut self, retires: bool, staged: u64)
        requires room { is_full_by self.old ≡ false }
        requires staged { staged ≤ MAX_BUFFER_SIZE }
        ensures { self.new ≡ counted retires staged self.old }
    {
        self.entries += 1;
        self.marks += u32::from(retires);
        self.staged += staged;
    }

    /// Whether the chunk is due whatever comes next: it has 64 entries, 16 marks, or 4,194,304 staged bytes.
    pub fn is_full(&self) -> bool
        ensures { result ≡ is_full_by self.now }
    {
        self.entries as usize >= CHUNK_ENTRIES
            || self.marks as usize >= CHUNK_MARKS
            || self.staged >= CHUNK_STAGED_BYTES
    }

    /// Whether the chunk is due. `in_list`: a list is running. `stops`: an accepted readback, question or flush comes next, or
    /// nothing.
    pub fn is_due(&self, in_list: bool, stops: bool) -> bool
        ensures { result ≡ is_due_by self.now in_list stops }
    {
        self.is_full() || (self.entries >= 1 && !in_list && stops)
    }
}
