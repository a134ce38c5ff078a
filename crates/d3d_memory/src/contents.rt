ghost use Rattle.std.specs.Prelude.{◌≡◌, ◌*◌, [], nat_le, true, vec_len, IfOk, OnOk, OnErr};
ghost use Rattle.std.specs.BTreeMap.{values};
ghost use Rattle.std.specs.List.{list_all};
ghost use Rattle.base_lemmas.specs.IdMap as ids;
ghost use Rattle.d3d_model.specs.Memory.{pattern};
ghost use Rattle.d3d_model.specs.Regions.{filled};
ghost use Rattle.d3d_memory.specs.Contents.{AreShort, bytes_at, changed, copied, write, zeroed};

use crate::clear::clear;
use crate::regions::{put, put_own, within, zero};
use dx_types::ViewShape;
use dx_types::limits::MAX_BUFFER_SIZE;
use std::alloc::{AllocError, Global};
use std::collections::BTreeMap;
use std::marker::Model;
use std::mem;

/// A place in a buffer.
#[derive(Clone, Copy)]
pub(crate) struct Place {
    pub(crate) res: u32,
    pub(crate) at: usize,
}

/// The bytes of the live buffers, by their ids.
#[derive(Drop)]
pub(crate) struct Contents {
    buffers: BTreeMap<u32, Vec<u8>>,
}

impl Model for Contents {
    ghost use Rattle.base_lemmas.specs.CodeMap.{map_of};
    ghost use Rattle.d3d_memory.specs.Contents as contents;

    ghost Value = { contents.Contents };

    ghost coded = { contents.contents_code };

    ghost view = { λ c. map_of (λ v. v.items) c.buffers.entries };
}

impl Contents {
    pub(crate) fn new(alloc: Global) -> Contents
        ensures { result ≡ ids.empty }
    {
        Contents {
            buffers: BTreeMap::new(alloc),
        }
    }

    /// The bytes of a buffer, none where it isn't live.
    pub(crate) fn bytes(&self, id: u32) -> &[u8]
        ensures { result.now ≡ bytes_at self.now id }
    {
        match self.buffers.get(&id) {
            Some(bytes) => bytes.as_slice(),
            None => &[],
        }
    }

    /// Whether no buffer has more than 16,777,216 bytes.
    pub(crate) fn are_short(&self) -> bool
        ensures { result ≡ true → AreShort self.now }
    {
        all_short(&self.buffers)
    }

    /// A new buffer: these bytes, and zeros up to its size.
    pub(crate) fn create(
        &mut self,
        alloc: Global,
        id: u32,
        size: usize,
        first: &[u8],
    ) -> Result<(), AllocError>
        ensures ok { OnOk result (self.new ≡ ids.insert self.old id (filled size first.now)) }
        ensures err { OnErr result (self.new ≡ self.old) }
    {
        let bytes = filled_bytes(alloc, size, first)?;
        self.buffers.insert(id, bytes)?;
        Ok(())
    }

    /// These bytes in a live buffer, from a place on, where they fit.
    pub(crate) fn write(&mut self, id: u32, from: usize, piece: &[u8])
        ensures { self.new ≡ write self.old id from piece.now }
    {
        match self.buffers.get_mut(&id) {
            Some(bytes) => put(bytes, from, piece),
            None => (),
        }
    }

    /// A live buffer as it was made without data.
    pub(crate) fn zero(&mut self, id: u32)
        ensures { self.new ≡ zeroed self.old id }
    {
        match self.buffers.get_mut(&id) {
            Some(bytes) => zero(bytes),
            None => (),
        }
    }

    /// A cleared view of a live buffer.
    pub(crate) fn clear(&mut self, v: &ViewShape, values: &[u32; 4])
        ensures { self.new ≡ write self.old v.now.res (v.now.first * v.now.unit) (pattern v.now values.now) }
    {
        match self.buffers.get_mut(&v.res) {
            Some(bytes) => clear(bytes, v, values),
            None => (),
        }
    }

    /// So many bytes of one buffer, from a place on, over those of another, where they fit. All is read before the write.
    pub(crate) fn copy(&mut self, alloc: Global, to: &Place, from: &Place, len: usize)
        ensures { self.new ≡ copied self.old to.now.res to.now.at from.now.res from.now.at len }
    {
        if to.res == from.res {
            self.copy_inside(to.res, to.at, from.at, len);
            return;
        }
        let mut bytes = self.take(alloc, to.res);
        put(
            &mut bytes,
            to.at,
            within(self.bytes(from.res), from.at, len),
        );
        self.restore(to.res, bytes);
    }

    fn copy_inside(&mut self, id: u32, to: usize, from: usize, len: usize)
        ensures { self.new ≡ copied self.old id to id from len }
    {
        match self.buffers.get_mut(&id) {
            Some(bytes) => put_own(bytes, to, from, len),
            None => (),
        }
    }

    /// The bytes of a buffer, which are lent out: it has none until they are back.
    pub(crate) fn take(&mut self, alloc: Global, id: u32) -> Vec<u8>
        ensures value { result.items ≡ bytes_at self.old id }
        ensures rest { self.new ≡ changed (λ old. []) self.old id }
    {
        match self.buffers.get_mut(&id) {
            Some(bytes) => mem::replace(bytes, Vec::new(alloc)),
            None => Vec::new(alloc),
        }
    }

    /// The bytes of a live buffer, from then on.
    pub(crate) fn restore(&mut self, id: u32, bytes: Vec<u8>)
        ensures { self.new ≡ changed (λ old. bytes.items) self.old id }
    {
        match self.buffers.get_mut(&id) {
            Some(place) => *place = bytes,
            None => drop(bytes),
        }
    }

    /// A buffer less.
    pub(crate) fn remove(&mut self, id: u32)
        ensures { self.new ≡ ids.remove self.old id }
    {
        self.buffers.remove(&id);
    }
}

fn all_short(buffers: &BTreeMap<u32, Vec<u8>>) -> bool
    ensures { result ≡ list_all (λ v. nat_le (vec_len v) MAX_BUFFER_SIZE) (values buffers.now) }
{
    buffers
        .values()
        .all(|bytes| bytes.len() as u64 <= MAX_BUFFER_SIZE)
}

// So many bytes, of which the first are these where they fit, and the rest 0.
fn filled_bytes(alloc: Global, size: usize, first: &[u8]) -> Result<Vec<u8>, AllocError>
    ensures { IfOk result (λ v. v.items ≡ filled size first.now) }
{
    let mut bytes = vec![in alloc; 0u8; size]?;
    put(&mut bytes, 0, first);
    Ok(bytes)
}
