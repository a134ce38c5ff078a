//! Whether a batch is the next one that a device can accept, but for its query marks.

ghost use Rattle.std.specs.Prelude.{◌≡◌, ◌+◌, ◌++◌, ◌-◌, ◌==◌, List, ℕ, Some, cond, length, map, true};
ghost use Rattle.std.specs.List.{AllByRecursion};
ghost use Rattle.base_lemmas.specs.Lists.{Pairwise};
ghost use Rattle.buffer_blocks.specs.Block.{bytes_of};
ghost use Rattle.buffer_blocks.specs.declared.block.Block.{Block};
ghost use Rattle.call_log.specs.Grammar.{part_of};
ghost use Rattle.device_memory.specs.Held.{block_of};
ghost use Rattle.vk_device.specs.Accepting.{AreApart, Blocks, CanWrite, IsNext, LiesIn, brought, length_if, with_blocks};

use crate::check::size;
use crate::device::Device;
use buffer_blocks::Block;
use call_log::Log;
use device_memory::DeviceMemory;
use dx_types::{BlockNo, Range};
use vk_types::{HostPart, Submission};

impl Device {
    /// Whether a submission's batch has the next number, brings no two blocks of one number, and has each of its parts in the log and
    /// in a block that is held then. Each block is compared with each other, and each part looks through them all.
    pub fn is_next(&self, log: &Log<'_>, s: &Submission) -> bool
        ensures { result ≡ true → IsNext log.now.bytes s.now.batch self.now }
    {
        let blocks = &s.batch.blocks;
        let pages = &s.batch.pages;
        let writes = &s.batch.writes;
        follows(self.newest, s.batch.number)
            && each_apart(blocks, pages)
            && all_apart(pages)
            && can_write_all(&self.memory, log, blocks, pages, writes)
    }
}

fn follows(newest: u64, number: u64) -> bool
    ensures { result ≡ true → number ≡ newest + 1 }
{
    number > 0 && number - 1 == newest
}

/// Whether these blocks differ in number from each other and from the others.
fn each_apart(blocks: &[Block], others: &[Block]) -> bool
    ensures { result ≡ true → AreApart others.now → AreApart (blocks.now ++ others.now) }
{
    'each: for i in 0..blocks.len() {
        if !is_apart_from(&blocks[i], &blocks[i + 1..]) {
            return false;
        }
        if !is_apart_from(&blocks[i], others) {
            return false;
        }
    }
    true
}

fn all_apart(blocks: &[Block]) -> bool
    ensures { result ≡ true → AreApart blocks.now }
{
    'each: for i in 0..blocks.len() {
        if !is_apart_from(&blocks[i], &blocks[i + 1..]) {
            return false;
        }
    }
    true
}

fn is_apart_from(block: &Block, others: &[Block]) -> bool
    ensures { result ≡ true → AllByRecursion (λ (b : Block). block.now.number ≡ b.number → ⊥) others.now }
{
    'each: for other in others {
        if !differ(block, other) {
            return false;
        }
    }
    true
}

fn differ(a: &Block, b: &Block) -> bool
    ensures { result ≡ true → a.now.number ≡ b.now.number → ⊥ }
{
    a.number != b.number
}

fn can_write_all(
    memory: &DeviceMemory,
    log: &Log<'_>,
    blocks: &[Block],
    pages: &[Block],
    parts: &[HostPart],
) -> bool
    ensures { result ≡ true → AllByRecursion (CanWrite log.now.bytes (brought blocks.now pages.now (block_of memory.now))) parts.now }
{
    'each: for part in parts {
        if !can_write(memory, log, blocks, pages, part) {
            return false;
        }
    }
    true
}

fn can_write(
    memory: &DeviceMemory,
    log: &Log<'_>,
    blocks: &[Block],
    pages: &[Block],
    part: &HostPart,
) -> bool
    ensures { result ≡ true → CanWrite log.now.bytes (brought blocks.now pages.now (block_of memory.now)) part.now }
{
    lies_in(memory, blocks, pages, &part.range) && has_bytes(log, part)
}

/// Whether the log has as many bytes there as the range has.
fn has_bytes(log: &Log<'_>, part: &HostPart) -> bool
    ensures { result ≡ true → (bytes : List ℕ) × (part_of log.now.bytes part.now.span.start part.now.span.len ≡ Some bytes)
        × (length bytes ≡ part.now.range.to - part.now.range.from) }
{
    match log.part(part.span) {
        Some(bytes) => bytes.len() as u64 == size(&part.range),
        None => false,
    }
}

/// Whether a range lies in a block that is held once these came.
fn lies_in(memory: &DeviceMemory, blocks: &[Block], pages: &[Block], r: &Range) -> bool
    ensures { result ≡ true → LiesIn (brought blocks.now pages.now (block_of memory.now)) r.now }
{
    let held = held_length(memory, r.block);
    let brought = length_with(held, r.block, blocks);
    match length_with(brought, r.block, pages) {
        Some(len) => r.from <= r.to && r.to <= len,
        None => false,
    }
}

fn held_length(memory: &DeviceMemory, number: BlockNo) -> Option<u64>
    ensures { result ≡ length_if (block_of memory.now number) }
{
    match memory.block(number) {
        Some(block) => Some(block.len()),
        None => None,
    }
}

/// How long the block of a number is once more blocks came, if it was so long before them.
fn length_with(before: Option<u64>, number: BlockNo, blocks: &[Block]) -> Option<u64>
    ensures { (held : Blocks) → before ≡ length_if (held number) → result ≡ length_if (with_blocks blocks.now held number) }
{
    let mut found = before;
    'each: for block in blocks {
        found = length_after(found, number, block);
    }
    found
}

fn length_after(found: Option<u64>, number: BlockNo, block: &Block) -> Option<u64>
    ensures { result ≡ cond (number == block.now.number) (Some (length (bytes_of block.now))) found }
{
    if number == block.number {
        Some(block.len())
    } else {
        found
    }
}
