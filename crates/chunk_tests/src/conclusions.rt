//! What a caller concludes of the calls that it makes: here the clauses are the tests.

ghost use Rattle.std.specs.Prelude.{◌≡◌, ◌+◌, ◌-◌, ◌<◌, ◌≤◌, [], ◌∷◌, ◌++◌, OnOk, length, replicate, slice_index_or, vec_len};
ghost use Rattle.buffer_blocks.specs.Block.{bytes_of};
ghost use Rattle.buffer_blocks.specs.Written.{written};
ghost use Rattle.staging_pages.specs.Page.{staged};
ghost use Rattle.cs_chunk.specs.Chunk.{entries_of, with_entries};

use buffer_blocks::Block;
use cs_chunk::{Chunk, Entry};
use staging_pages::Page;
use std::alloc::AllocError;

/// Of one block among others, once a part of it was written.
fn fill_part(blocks: &mut Vec<Block>, i: usize, from: u64, to: u64, byte: u8)
    requires element { i < vec_len blocks.old }
    requires order { from ≤ to }
    requires within { (d : Block) → to ≤ length (bytes_of (slice_index_or blocks.old.items i d)) }
    ensures number { (d : Block) → (slice_index_or blocks.new.items i d).number ≡ (slice_index_or blocks.old.items i d).number }
    ensures bytes { (d : Block) → bytes_of (slice_index_or blocks.new.items i d)
        ≡ written (bytes_of (slice_index_or blocks.old.items i d)) from (replicate (to - from) byte) }
{
    blocks[i].part_mut(from, to).fill(byte);
}

/// Of two parts that are written side by side.
pub(crate) fn fill_both(block: &mut Block, at: u64)
    requires { at ≤ length (bytes_of block.old) }
    ensures { bytes_of block.new ≡ written (bytes_of block.old) 0 (replicate at 1 ++ replicate (length (bytes_of block.old) - at) 2) }
{
    let (front, back) = block.part_mut(0, block.len()).split_at_mut(at as usize);
    front.fill(1);
    back.fill(2);
}

/// Of a page, once bytes were staged.
fn stage(page: &mut Page, len: u64, byte: u8)
    requires { page.old.used + len ≤ length (bytes_of page.old.block) }
    ensures page { page.new ≡ staged page.old len (replicate len byte) }
    ensures used { page.new.used ≡ page.old.used + len }
{
    page.take(len).fill(byte);
}

/// Of a chunk that has room.
pub(crate) fn add_within(chunk: &mut Chunk, e: Entry)
    requires { length (entries_of chunk.old) < 64 }
    ensures { chunk.new ≡ with_entries chunk.old (entries_of chunk.old ++ e ∷ []) }
{
    match chunk.add(e) {
        Ok(()) => {}
        Err(_) => unreachable!(),
    }
}

/// Of a chunk whose entries are taken out.
pub(crate) fn take_all(chunk: &mut Chunk, to: &mut Vec<Entry>) -> Result<(), AllocError>
    ensures entries { OnOk result (to.new.items ≡ to.old.items ++ entries_of chunk.old) }
    ensures rest { OnOk result (chunk.new ≡ with_entries chunk.old []) }
{
    'takes: while let Some(e) = chunk.take_entry() {
        to.push(e)?;
    }
    Ok(())
}
