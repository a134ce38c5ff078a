ghost use Rattle.std.specs.Prelude.{◌≡◌, ◌+◌, ◌<◌, ◌^◌, true, IfOk, OnOk, OnErr};
ghost use Rattle.d3d_model.specs.D3dState.{bytes_of, count_of, no_memory};
ghost use Rattle.d3d_model.specs.Memory.{begun_count, cleared, copied, counted, counts_at, discarded, ended_count, is_skipped, no_counts, write};
ghost use Rattle.d3d_model.specs.Regions.{slice};
ghost use Rattle.d3d_views.specs.Meaning.{meaning};
ghost use Rattle.d3d_memory.specs.Effects.{created, destroyed};
ghost use Rattle.d3d_memory.specs.Limits.{InLimits};

use crate::contents::{Contents, Place};
use crate::regions::{within, word_at};
use d3d_views::{BoundView, Predicate};
use std::alloc::{AllocError, Global};
use std::collections::BTreeMap;
use std::marker::Model;

/// The most invocations that may have run before a dispatch.
const MOST_RAN: u64 = 1 << 63;

/// The bytes of each live buffer, and the counts of queries. A clause sees the model's memory.
#[derive(Drop)]
pub struct Memory {
    alloc: Global,
    contents: Contents,
    ran: u64,
    begun_at: BTreeMap<u32, u64>,
    counts: BTreeMap<u32, u64>,
}

impl Model for Memory {
    ghost use Rattle.base_lemmas.specs.CodeMap.{map_of};
    ghost use Rattle.d3d_model.specs.D3dState as model;
    ghost use Rattle.d3d_memory.specs.Effects as effects;

    ghost Value = { model.Memory };

    ghost coded = { effects.memory_code };

    ghost view = { λ m. record {
      bytes = m.contents;
      ran = m.ran;
      begun_at = map_of (λ n. n) m.begun_at.entries;
      counts = map_of (λ n. n) m.counts.entries;
    } };
}

impl Memory {
    pub fn new(alloc: Global) -> Memory
        ensures { result ≡ no_memory }
    {
        Memory {
            alloc,
            contents: Contents::new(alloc),
            ran: 0,
            begun_at: BTreeMap::new(alloc),
            counts: BTreeMap::new(alloc),
        }
    }

    /// Whether the memory is within the limits that a dispatch asks for: each state of a log is.
    pub fn is_in_limits(&self) -> bool
        ensures { result ≡ true → InLimits self.now }
    {
        self.ran <= MOST_RAN && self.contents.are_short()
    }

    /// The bytes of a buffer, none where it isn't live.
    pub fn bytes(&self, id: u32) -> &[u8]
        ensures { result.now ≡ bytes_of self.now id }
    {
        self.contents.bytes(id)
    }

    /// A buffer more: these bytes, and zeros up to its size in bytes.
    pub fn create(&mut self, id: u32, size: u32, bytes: &[u8]) -> Result<(), AllocError>
        ensures ok { OnOk result (self.new ≡ created self.old id size bytes.now) }
        ensures err { OnErr result (self.new ≡ self.old) }
    {
        self.contents.create(self.alloc, id, size as usize, bytes)
    }

    /// A buffer less.
    pub fn destroy(&mut self, id: u32)
        ensures { self.new ≡ destroyed self.old id }
    {
        self.contents.remove(id);
    }

    /// Where it takes its memory from.
    pub(crate) fn alloc(&self) -> Global {
        self.alloc
    }

    /// These bytes in a live buffer, from byte `from` on, where they fit.
    pub(crate) fn write_at(&mut self, res: u32, from: u64, bytes: &[u8])
        ensures { self.new ≡ write self.old res from bytes.now }
    {
        self.contents.write(res, from as usize, bytes);
    }

    /// So many invocations more ran.
    pub(crate) fn count_ran(&mut self, count: u64)
        requires { self.old.ran + count < 2 ^ 64 }
        ensures { self.new ≡ counted self.old count }
    {
        self.ran += count;
    }

    /// These bytes in a live buffer, from byte `offset` on, where they fit.
    pub fn write(&mut self, res: u32, offset: u32, bytes: &[u8])
        ensures { self.new ≡ write self.old res offset bytes.now }
    {
        self.contents.write(res, offset as usize, bytes);
    }

    /// D3D11_MAP_WRITE_DISCARD: these bytes in a live buffer, from byte `offset` on, and zeros elsewhere.
    pub fn discard(&mut self, res: u32, offset: u32, bytes: &[u8])
        ensures { self.new ≡ discarded self.old res offset bytes.now }
    {
        self.contents.zero(res);
        self.contents.write(res, offset as usize, bytes);
    }

    /// All bytes of a buffer over those of another.
    pub fn copy(&mut self, target: u32, source: u32)
        ensures { self.new ≡ write self.old target 0 (bytes_of self.old source) }
    {
        let len = self.contents.bytes(source).len();
        let to = Place { res: target, at: 0 };
        let from = Place { res: source, at: 0 };
        self.contents.copy(self.alloc, &to, &from, len);
    }

    /// So many bytes of a buffer, from byte `source_offset` on, over those of another from byte `target_offset` on, where they
    /// fit. All is read before the write.
    pub fn copy_region(
        &mut self,
        target: u32,
        target_offset: u32,
        source: u32,
        source_offset: u32,
        length: u32,
    )
        ensures { self.new ≡ copied self.old target target_offset source source_offset length }
    {
        let to = Place {
            res: target,
            at: target_offset as usize,
        };
        let from = Place {
            res: source,
            at: source_offset as usize,
        };
        self.contents.copy(self.alloc, &to, &from, length as usize);
    }

    /// The values over and over in a view: of a typed view as many as it has components, else the first alone.
    pub fn clear(&mut self, view: Option<BoundView>, values: &[u32; 4])
        ensures { self.new ≡ cleared self.old view values.now }
    {
        if let Some(v) = view {
            self.contents.clear(&v.shape, values);
        }
    }

    /// Whether a predicated call is skipped: the predicate's result, read now, equals its value.
    pub fn is_skipped(&self, predicate: Predicate) -> bool
        ensures { result ≡ is_skipped self.now (meaning predicate) }
    {
        match predicate {
            Predicate::Never => false,
            Predicate::Query { value, .. } => 0 == value,
            Predicate::Word { res, offset, value } => {
                let word = word_at(self.contents.bytes(res), offset as usize);
                word.min(1) == value
            }
        }
    }

    /// A query begins: it counts the invocations from here on.
    pub fn begin(&mut self, query: u32) -> Result<(), AllocError>
        ensures ok { OnOk result (self.new ≡ begun_count self.old query) }
        ensures err { OnErr result (self.new ≡ self.old) }
    {
        self.begun_at.insert(query, self.ran)?;
        Ok(())
    }

    /// A query ends: its count is that of the invocations since it began.
    pub fn end(&mut self, query: u32) -> Result<(), AllocError>
        ensures ok { OnOk result (self.new ≡ ended_count self.old query) }
        ensures err { OnErr result (self.new ≡ self.old) }
    {
        let begun_at = self.begun_at.get(&query).copied().unwrap_or(self.ran);
        let count = self.ran.saturating_sub(begun_at);
        self.counts.insert(query, count)?;
        Ok(())
    }

    /// A new query, which has counted nothing.
    pub fn forget_query(&mut self, query: u32)
        ensures { self.new ≡ no_counts self.old query }
    {
        self.begun_at.remove(&query);
        self.counts.remove(&query);
    }

    /// The invocations that a query's last end counted.
    pub fn count(&self, query: u32) -> u64
        ensures { result ≡ count_of self.now query }
    {
        self.counts.get(&query).copied().unwrap_or(0)
    }

    /// The three counts of groups that stand at a place of a buffer.
    pub fn counts_at(&self, res: u32, offset: u32) -> [u32; 3]
        ensures { result ≡ counts_at self.now res offset }
    {
        let bytes = self.contents.bytes(res);
        let at = offset as usize;
        [
            word_at(bytes, at),
            word_at(bytes, at + 4),
            word_at(bytes, at + 8),
        ]
    }

    /// So many bytes of a buffer, from byte `offset` on, as far as it has them.
    pub fn read(
        &self,
        alloc: Global,
        res: u32,
        offset: u32,
        length: u32,
    ) -> Result<Vec<u8>, AllocError>
        ensures { IfOk result (λ v. v.items ≡ slice (bytes_of self.now res) offset (offset + length)) }
    {
        let bytes = within(self.contents.bytes(res), offset as usize, length as usize);
        Vec::from_slice(alloc, bytes)
    }
}
