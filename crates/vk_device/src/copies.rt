//! Copies of staging buffers, for the recorder to read.

ghost use Rattle.std.specs.Prelude.{◌≡◌, ◌++◌, ◌==◌, IfOk, OnOk};
ghost use Rattle.std.specs.List.{filter_map, list_any};
ghost use Rattle.std.specs.Option.{option_copied, option_to_list};
ghost use Rattle.dx_types.specs.declared.range.Range.{Range};
ghost use Rattle.vk_types.specs.declared.message.HostPart.{HostPart};
ghost use Rattle.device_memory.specs.Held.{block_of};
ghost use Rattle.vk_device.specs.Completing.{copy_of, is_used, names_block, snap_of};

use crate::accepted::Accepted;
use buffer_blocks::Block;
use command_queue::CommandQueue;
use device_memory::DeviceMemory;
use dx_types::{BlockNo, ByteList, Range};
use std::alloc::{AllocError, Global};
use std::collections::VecDeque;
use vk_types::{HostPart, Snap};

/// A copy of each of these ranges that is held, if none of these later batches, with these operations, uses its block.
pub(crate) fn copies(
    alloc: Global,
    memory: &DeviceMemory,
    staging: &[Range],
    later: &VecDeque<Accepted>,
    queue: &CommandQueue,
) -> Result<Vec<Snap>, AllocError>
    ensures { IfOk result (λ snaps. snaps.items ≡ filter_map (snap_of (block_of memory.now) later.now.items queue.now) staging.now) }
{
    let mut snaps = Vec::new(alloc);
    'each: for r in staging {
        let snap = snap_of(alloc, memory, r, later, queue)?;
        push_some(&mut snaps, snap)?;
    }
    Ok(snaps)
}

/// Appends a value, if there is one.
pub(crate) fn push_some<T: Drop>(values: &mut Vec<T>, value: Option<T>) -> Result<(), AllocError>
    ensures { OnOk result (values.new.items ≡ values.old.items ++ option_to_list value) }
{
    if let Some(value) = value {
        values.push(value)?;
    }
    Ok(())
}

/// A copy of a range that is held, if no later batch uses its block.
fn snap_of(
    alloc: Global,
    memory: &DeviceMemory,
    r: &Range,
    later: &VecDeque<Accepted>,
    queue: &CommandQueue,
) -> Result<Option<Snap>, AllocError>
    ensures { IfOk result (λ snap. snap ≡ snap_of (block_of memory.now) later.now.items queue.now r.now) }
{
    if is_used(r.block, later, queue) {
        return Ok(None);
    }
    copy(alloc, memory.block(r.block), r)
}

/// A copy of a range, if the block has it.
fn copy(alloc: Global, block: Option<&Block>, r: &Range) -> Result<Option<Snap>, AllocError>
    ensures { IfOk result (λ snap. snap ≡ copy_of r.now (option_copied block.entry)) }
{
    let Some(block) = block else { return Ok(None) };
    if r.from > r.to || r.to > block.len() {
        return Ok(None);
    }
    let bytes = block.part(r.from, r.to).to_vec(alloc)?;
    Ok(Some(Snap {
        block: r.block,
        bytes: ByteList::new(bytes),
    }))
}

fn is_used(block: BlockNo, later: &VecDeque<Accepted>, queue: &CommandQueue) -> bool
    ensures { result ≡ is_used block later.now.items queue.now }
{
    any_names(block, later) || queue.touches(block)
}

fn any_names(block: BlockNo, later: &VecDeque<Accepted>) -> bool
    ensures { result ≡ list_any (names_block block) later.now.items }
{
    later.iter().any(|a| names_block(block, a))
}

fn names_block(block: BlockNo, a: &Accepted) -> bool
    ensures { result ≡ names_block block a.now }
{
    names_range(block, &a.staging) || names_part(block, &a.writes)
}

fn names_range(block: BlockNo, ranges: &[Range]) -> bool
    ensures { result ≡ list_any (λ (r : Range). r.block == block) ranges.now }
{
    ranges.iter().any(|r| r.block == block)
}

fn names_part(block: BlockNo, parts: &[HostPart]) -> bool
    ensures { result ≡ list_any (λ (h : HostPart). h.range.block == block) parts.now }
{
    parts.iter().any(|h| h.range.block == block)
}
