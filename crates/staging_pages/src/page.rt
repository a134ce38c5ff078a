ghost use Rattle.std.specs.Prelude.{◌≡◌, ◌+◌, ◌≤◌, ◌↔◌, IfSome, IsSome, length, slice_range};
ghost use Rattle.std.specs.Borrow.{sem};
ghost use Rattle.buffer_blocks.specs.Block.{bytes_of};
ghost use Rattle.staging_pages.specs.Page.{LendsNext, LendsIfLeft, fitting};

use buffer_blocks::Block;
use dx_types::BlockNo;
use std::marker::Model;

/// A block whose bytes are staged from the front on.
#[derive(Drop)]
pub struct Page {
    block: Block,
    used: u64,
}

impl Model for Page {
    ghost use Rattle.std.specs.Prelude.{◌≤◌, length};
    ghost use Rattle.buffer_blocks.specs.Block.{bytes_of};
    ghost use Rattle.staging_pages.specs.PageState.{PageState, page_code};

    ghost Value = { PageState };

    ghost coded = { page_code };

    ghost view = { λ p. record { block = p.block; used = p.used } };

    ghost invariant = { λ p. p.used ≤ length (bytes_of p.block) };
}

impl Page {
    /// A page of this block, of which nothing is used.
    pub(crate) fn new(block: Block) -> Page
        ensures block { result.block ≡ block }
        ensures used { result.used ≡ 0 }
    {
        Page { block, used: 0 }
    }

    /// The next `len` bytes, to be written, or `None` where fewer are left.
    pub fn part(&mut self, len: u64) -> Option<&mut [u8]>
        ensures* writes_back { sem 𝓛 (LendsIfLeft self.entry len result) }
        ensures fits { IsSome result ↔ (self.old.used + len ≤ length (bytes_of self.old.block)) }
        ensures value { IfSome result (λ part. part.now ≡ slice_range (bytes_of self.old.block) self.old.used (self.old.used + len)) }
    {
        let part = self.take_if_left(len);
        if part.len() as u64 != len {
            return None;
        }
        Some(part)
    }

    /// How many bytes are not used yet.
    pub fn left(&self) -> u64
        ensures { self.now.used + result ≡ length (bytes_of self.now.block) }
    {
        self.block.len() - self.used
    }

    /// The next `len` bytes, to be written, of a page that has as many left.
    pub fn take(&mut self, len: u64) -> &mut [u8]
        requires { self.old.used + len ≤ length (bytes_of self.old.block) }
        ensures* writes_back { sem 𝓛 (LendsNext self.entry len result) }
        ensures value { result.now ≡ slice_range (bytes_of self.old.block) self.old.used (self.old.used + len) }
    {
        let left = self.block.len() - self.used;
        prove!(len <= left);
        let from = self.used;
        self.used += len;
        self.block.part_mut(from, from + len)
    }

    // The next `len` bytes, or no bytes where fewer are left.
    fn take_if_left(&mut self, len: u64) -> &mut [u8]
        ensures* writes_back { sem 𝓛 (LendsNext self.entry (fitting self.old len) result) }
        ensures value { result.now ≡ slice_range (bytes_of self.old.block) self.old.used (self.old.used + fitting self.old len) }
        ensures within { self.old.used ≤ length (bytes_of self.old.block) }
    {
        let len = if self.left() < len { 0 } else { len };
        self.take(len)
    }

    /// The number of its block.
    pub fn number(&self) -> BlockNo
        ensures { result ≡ self.now.block.number }
    {
        self.block.number
    }

    /// How many bytes are used.
    pub fn used(&self) -> u64
        ensures used { result ≡ self.now.used }
        ensures within { result ≤ length (bytes_of self.now.block) }
    {
        self.used
    }

    /// The block, with what was written into it.
    pub fn into_block(self) -> Block
        ensures { result ≡ self.block }
    {
        self.block
    }
}
