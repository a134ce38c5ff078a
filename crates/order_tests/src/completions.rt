//! Completions, which come apart into a post and the blocks that go home.

use crate::batches::OPERATIONS;
use buffer_blocks::Block;
use dx_types::{ByteList, Range};
use listing_tables::listing;
use std::alloc::Global;
use std::process::Abort;
use std::test::Fail;
use submit_finish::{FinishPart, Finished};
use vk_types::{Completion, Placed, Post, QueryValue, Snap};

const STAGED: Range = Range {
    block: 512,
    from: 0,
    to: 4,
};

// Item 2 of call 8 took block 3 and retired block 2, which goes home, and staged bytes in page 512.
const PLACED: Placed = Placed {
    call: 8,
    item: 2,
    block: Some(3),
    mark: Some(2),
    staged: Some(STAGED),
};

const VALUE: QueryValue = QueryValue {
    call: 10,
    query: 1,
    value: 64,
};

fn one_block(alloc: Global, number: u32, len: u64, retired: u64) -> Result<Vec<Block>, Fail> {
    let mut block = Block::new(alloc, number, len)?;
    block.retired = retired;
    let mut blocks = Vec::new(alloc);
    blocks.push(block)?;
    Ok(blocks)
}

fn one_snap(alloc: Global) -> Result<Vec<Snap>, Fail> {
    let bytes = [4, 3, 2, 1].to_vec(alloc)?;
    let mut snaps = Vec::new(alloc);
    snaps.push(Snap {
        block: 514,
        bytes: ByteList::new(bytes),
    })?;
    Ok(snaps)
}

fn completion(alloc: Global) -> Result<Completion, Fail> {
    Ok(Completion {
        number: 3,
        upto: 11,
        placed: [PLACED].to_vec(alloc)?,
        homes: one_block(alloc, 2, 256, 3)?,
        pages: one_block(alloc, 512, 65_536, 0)?,
        snaps: one_snap(alloc)?,
        values: [VALUE].to_vec(alloc)?,
        ops: listing(alloc, &OPERATIONS)?,
    })
}

fn has_numbers_and_lengths(rt: &impl Abort, post: &Post) {
    assert_eq!(rt; post.number, 3);
    assert_eq!(rt; post.upto, 11);
    assert_eq!(rt; post.ops.len(), 16);
    assert_eq!(rt; post.placed.len(), 1);
    assert_eq!(rt; post.pages.len(), 1);
    assert_eq!(rt; post.snaps.len(), 1);
    assert_eq!(rt; post.values.len(), 1);
}

fn has_place(rt: &impl Abort, placed: &[Placed]) -> Result<(), Fail> {
    let place = placed.first().ok_or("no place")?;
    assert_eq!(rt; place.call, 8);
    assert_eq!(rt; place.item, 2);
    assert_eq!(rt; place.block, Some(3));
    assert_eq!(rt; place.mark, Some(2));
    assert_eq!(rt; place.staged, Some(STAGED));
    Ok(())
}

fn has_value(rt: &impl Abort, values: &[QueryValue]) -> Result<(), Fail> {
    let value = values.first().ok_or("no value")?;
    assert_eq!(rt; value.call, 10);
    assert_eq!(rt; value.query, 1);
    assert_eq!(rt; value.value, 64);
    Ok(())
}

fn has_page(rt: &impl Abort, pages: &[Block]) -> Result<(), Fail> {
    let page = pages.first().ok_or("no page")?;
    assert_eq!(rt; page.number, 512);
    assert_eq!(rt; page.len(), 65_536);
    Ok(())
}

fn has_snap(rt: &impl Abort, snaps: &[Snap]) -> Result<(), Fail> {
    let snap = snaps.first().ok_or("no snap")?;
    assert_eq!(rt; snap.block, 514);
    assert_eq!(rt; snap.bytes.as_slice(), [4, 3, 2, 1].as_slice());
    Ok(())
}

fn has_home(rt: &impl Abort, homes: &[Block]) -> Result<(), Fail> {
    assert_eq!(rt; homes.len(), 1);
    let home = homes.first().ok_or("no home")?;
    assert_eq!(rt; home.number, 2);
    assert_eq!(rt; home.retired, 3);
    assert_eq!(rt; home.len(), 256);
    Ok(())
}

#[test]
fn a_completion_comes_apart_into_its_post_and_its_homes(rt: HostRuntime) -> Result<(), Fail> {
    let Finished { post, homes } = FinishPart::new().step(completion(rt.alloc())?);
    has_numbers_and_lengths(&rt, &post);
    has_place(&rt, &post.placed)?;
    has_value(&rt, &post.values)?;
    has_page(&rt, &post.pages)?;
    has_snap(&rt, &post.snaps)?;
    has_home(&rt, &homes)
}
