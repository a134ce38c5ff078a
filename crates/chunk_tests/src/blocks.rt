//! Blocks, which lend their bytes in parts.

use crate::conclusions::fill_both;
use buffer_blocks::Block;
use std::alloc::Global;
use std::process::Abort;
use std::test::Fail;

/// The bytes of a block from one place to just before another.
pub(crate) fn part(block: &Block, from: u64, to: u64) -> Result<&[u8], Fail> {
    if from > to || to > block.len() {
        return Err("the block has no such part".into());
    }
    Ok(block.part(from, to))
}

pub(crate) fn fill(block: &mut Block, from: u64, to: u64, byte: u8) -> Result<(), Fail> {
    if from > to || to > block.len() {
        return Err("the block has no such part".into());
    }
    block.part_mut(from, to).fill(byte);
    Ok(())
}

// All bytes in two parts, 1 before this place and 2 from there on.
fn fill_halves(block: &mut Block, at: u64) -> Result<(), Fail> {
    if at > block.len() {
        return Err("the block is not that long".into());
    }
    let (front, back) = block.split_parts(at);
    front.fill(1);
    back.fill(2);
    Ok(())
}

// The same of one part that is split.
fn fill_split(block: &mut Block, at: u64) -> Result<(), Fail> {
    if at > block.len() {
        return Err("the block is not that long".into());
    }
    fill_both(block, at);
    Ok(())
}

pub(crate) fn has_bytes(rt: &impl Abort, block: &Block, bytes: &[u8]) {
    assert_eq!(rt; block.part(0, block.len()), bytes);
}

fn fills_in_parts(rt: &impl Abort, block: &mut Block) -> Result<(), Fail> {
    has_bytes(rt, block, &[0, 0, 0, 0, 0, 0, 0, 0]);
    fill_halves(block, 3)?;
    has_bytes(rt, block, &[1, 1, 1, 2, 2, 2, 2, 2]);
    assert_eq!(rt; block.len(), 8);
    fill(block, 2, 4, 7)?;
    assert_eq!(rt; part(block, 1, 5)?, [1, 7, 7, 2].as_slice());
    fill_split(block, 5)?;
    has_bytes(rt, block, &[1, 1, 1, 1, 1, 2, 2, 2]);
    Ok(())
}

fn exchanges_its_bytes(rt: &impl Abort, alloc: Global, block: &mut Block) -> Result<(), Fail> {
    let bytes = block.take_bytes();
    assert_eq!(rt; bytes.as_slice(), [1, 1, 1, 1, 1, 2, 2, 2].as_slice());
    assert_eq!(rt; block.len(), 0);
    block.put_bytes([5, 6, 7].to_vec(alloc)?);
    has_bytes(rt, block, &[5, 6, 7]);
    Ok(())
}

#[test]
fn parts_of_a_block(rt: HostRuntime) -> Result<(), Fail> {
    let alloc = rt.alloc();
    let mut block = Block::new(alloc, 3, 8)?;
    assert_eq!(rt; block.number, 3);
    assert_eq!(rt; block.retired, 0);
    assert_eq!(rt; block.len(), 8);
    fills_in_parts(&rt, &mut block)?;
    exchanges_its_bytes(&rt, alloc, &mut block)?;
    assert_eq!(rt; block.number, 3);
    assert_eq!(rt; block.retired, 0);
    Ok(())
}
