//! A device, used only once it is seen that it can be used so.

ghost use Rattle.std.specs.Prelude.{◌≡◌, true};
ghost use Rattle.spirv_model.specs.Meaning.ModuleDispatch.{IsDefined};

use buffer_blocks::Block;
use call_log::Log;
use dx_types::{BlockNo, ChunkNo, Range, Span};
use listing_tables::{Op, Part, listing};
use spirv_words::Module;
use std::alloc::{AllocError, Global};
use std::test::Fail;
use vk_device::Device;
use vk_types::{Batch, HostPart, Submission};

/// A log of one update, whose 16 bytes stand from byte 28 on.
pub(crate) const LOG: [u8; 52] = [
    0x44, 0x33, 0x4c, 0x31, 1, 0, 0, 0, 36, 0, 0, 0, 28, 0, 0, 0, 1, 0, 0, 0, 0, 0, 0, 0, 16, 0, 0,
    0, 0, 1, 2, 3, 4, 5, 6, 7, 8, 9, 10, 11, 12, 13, 14, 15, 0, 0, 0, 0, 0, 0, 0, 0,
];

/// A batch as plain data: its blocks and pages with their lengths, the parts of the log's 16 bytes that are written, by their place
/// among these, its operations, the blocks that it gives up, and the staging ranges that it uses.
#[derive(Clone, Copy)]
pub(crate) struct Given {
    pub(crate) number: ChunkNo,
    pub(crate) blocks: &'static [(BlockNo, u64)],
    pub(crate) pages: &'static [(BlockNo, u64)],
    pub(crate) writes: &'static [(Part, u64)],
    pub(crate) ops: &'static [Op],
    pub(crate) marks: &'static [BlockNo],
    pub(crate) staging: &'static [Part],
}

/// A batch that has nothing but its number.
pub(crate) const EMPTY: Given = Given {
    number: 1,
    blocks: &[],
    pages: &[],
    writes: &[],
    ops: &[],
    marks: &[],
    staging: &[],
};

// Blocks of these numbers and lengths.
fn blocks(alloc: Global, given: &[(BlockNo, u64)]) -> Result<Vec<Block>, AllocError> {
    let mut blocks = Vec::new(alloc);
    for (number, len) in given {
        blocks.push(Block::new(alloc, *number, *len)?)?;
    }
    Ok(blocks)
}

fn parts(alloc: Global, given: &[(Part, u64)]) -> Result<Vec<HostPart>, AllocError> {
    let mut parts = Vec::new(alloc);
    for (part, at) in given {
        let range = part.range();
        parts.push(HostPart {
            range,
            span: Span {
                start: at.saturating_add(28),
                len: range.to.saturating_sub(range.from),
            },
        })?;
    }
    Ok(parts)
}

fn ranges(alloc: Global, given: &[Part]) -> Result<Vec<Range>, AllocError> {
    let mut ranges = Vec::new(alloc);
    for part in given {
        ranges.push(part.range())?;
    }
    Ok(ranges)
}

pub(crate) fn submission(alloc: Global, given: &Given) -> Result<Submission, AllocError> {
    Ok(Submission {
        batch: Batch {
            number: given.number,
            upto: 7,
            placed: Vec::new(alloc),
            blocks: blocks(alloc, given.blocks)?,
            pages: blocks(alloc, given.pages)?,
            writes: parts(alloc, given.writes)?,
            ops: listing(alloc, given.ops)?,
            marks: given.marks.to_vec(alloc)?,
            staging: ranges(alloc, given.staging)?,
            queries: Vec::new(alloc),
        },
    })
}

/// Accepts a batch that has no query marks.
pub(crate) fn accept(device: &mut Device, log: &Log<'_>, s: Submission) -> Result<(), Fail> {
    if !device.can_accept(&s) || !device.is_next(log, &s) || !s.batch.queries.is_empty() {
        return Err("it can't be accepted".into());
    }
    device.accept(log, s)?;
    Ok(())
}

/// Runs a ready command that is no dispatch.
pub(crate) fn run(device: &mut Device, j: u32) -> Result<(), Fail> {
    if !device.can_run(j, None) {
        return Err("it can't be run".into());
    }
    device.run(j, None)?;
    Ok(())
}

/// Runs a ready dispatch by a module.
pub(crate) fn dispatch(device: &mut Device, j: u32, module: &Module) -> Result<(), Fail>
    requires { IsDefined «module».now }
{
    if !device.can_run(j, Some(module)) {
        return Err("it can't be run".into());
    }
    device.run(j, Some(module))?;
    Ok(())
}

pub(crate) fn bytes(device: &Device, number: BlockNo) -> &[u8] {
    match device.block(number) {
        Some(block) => block.part(0, block.len()),
        None => &[],
    }
}
