//! Chunks: their entries and their pages, in order.

use crate::blocks::{fill, has_bytes, part};
use crate::conclusions::{add_within, take_all};
use crate::pages::{next, stage};
use buffer_blocks::Block;
use cs_chunk::{Chunk, Entry};
use dx_types::{BlockNo, CallNo, ChunkNo, Range};
use staging_pages::Pages;
use std::alloc::{AllocError, Global};
use std::process::Abort;
use std::test::Fail;

/// What an entry has, without the bytes of its block.
#[derive(Clone, Copy, Debug, PartialEq, Eq)]
struct Row {
    call: CallNo,
    item: CallNo,
    block: Option<BlockNo>,
    mark: Option<BlockNo>,
    staged: Option<Range>,
}

const CREATION: Row = Row {
    call: 3,
    item: 3,
    block: Some(40),
    mark: None,
    staged: None,
};

const DISCARD: Row = Row {
    call: 4,
    item: 4,
    block: Some(41),
    mark: Some(40),
    staged: None,
};

const UPDATE_OF_A_LIST: Row = Row {
    call: 9,
    item: 5,
    block: None,
    mark: None,
    staged: Some(Range {
        block: 700,
        from: 16,
        to: 24,
    }),
};

const DESTROY: Row = Row {
    call: 10,
    item: 10,
    block: None,
    mark: Some(41),
    staged: None,
};

const ROWS: [Row; 4] = [CREATION, DISCARD, UPDATE_OF_A_LIST, DESTROY];

fn made(alloc: Global, row: Row) -> Result<Entry, AllocError> {
    let block = match row.block {
        Some(number) => Some(Block::new(alloc, number, 8)?),
        None => None,
    };
    Ok(Entry {
        call: row.call,
        item: row.item,
        block,
        mark: row.mark,
        staged: row.staged,
    })
}

fn row_of(e: &Entry) -> Row {
    Row {
        call: e.call,
        item: e.item,
        block: e.block.as_ref().map(|b| b.number),
        mark: e.mark,
        staged: e.staged,
    }
}

// The rows in turn, without end.
fn row_in_turn(i: u32) -> Row {
    ROWS[i as usize % 4]
}

fn add(alloc: Global, chunk: &mut Chunk, row: Row) -> Result<(), Fail> {
    chunk
        .add(made(alloc, row)?)
        .ok()
        .ok_or("there are 64 entries")?;
    Ok(())
}

const LATE: Row = Row {
    call: 99,
    item: 98,
    block: Some(42),
    mark: Some(43),
    staged: None,
};

// The entry that comes too late, with bytes in its block.
fn late_entry(alloc: Global) -> Result<Entry, Fail> {
    let mut block = Block::new(alloc, 42, 8)?;
    fill(&mut block, 2, 4, 5)?;
    Ok(Entry {
        call: 99,
        item: 98,
        block: Some(block),
        mark: Some(43),
        staged: None,
    })
}

// A chunk of 64 entries gives the next one back, with its block and the bytes in it.
fn gives_back(rt: &impl Abort, alloc: Global, chunk: &mut Chunk) -> Result<(), Fail> {
    let back = chunk.add(late_entry(alloc)?).err().ok_or("65 entries")?;
    assert_eq!(rt; row_of(&back), LATE);
    let block = back.block.ok_or("its block is gone")?;
    assert_eq!(rt; block.len(), 8);
    has_bytes(rt, &block, &[0, 0, 5, 5, 0, 0, 0, 0]);
    Ok(())
}

fn fill_up(rt: &impl Abort, alloc: Global, chunk: &mut Chunk) -> Result<(), Fail> {
    for i in 0..64 {
        add(alloc, chunk, row_in_turn(i))?;
        assert_eq!(rt; chunk.count(), i + 1);
        assert_eq!(rt; chunk.entry(i).map(row_of), Some(row_in_turn(i)));
        assert!(rt; chunk.entry(i + 1).is_none(), "behind entry {i}");
    }
    Ok(())
}

fn leave_in_order(rt: &impl Abort, chunk: &mut Chunk) -> Result<(), Fail> {
    for i in 1..65 {
        assert_eq!(rt; chunk.count(), 65 - i);
        let e = chunk.take_entry().ok_or("too few entries")?;
        assert_eq!(rt; row_of(&e), row_in_turn(i), "entry {i}");
    }
    assert!(rt; chunk.take_entry().is_none());
    Ok(())
}

// The first is taken, so that another has room.
fn gives_room_for_one(rt: &impl Abort, alloc: Global, chunk: &mut Chunk) -> Result<(), Fail> {
    let first = chunk.take_entry().ok_or("no entries")?;
    assert_eq!(rt; row_of(&first), CREATION);
    assert_eq!(rt; chunk.entry(0).map(row_of), Some(DISCARD));
    add(alloc, chunk, CREATION)
}

fn has_head(rt: &impl Abort, chunk: &Chunk, number: ChunkNo, upto: CallNo) {
    assert_eq!(rt; chunk.number, number);
    assert_eq!(rt; chunk.upto, upto);
    assert_eq!(rt; chunk.count(), 0);
}

#[test]
fn entries_fill_a_chunk_and_leave_it_in_order(rt: HostRuntime) -> Result<(), Fail> {
    let alloc = rt.alloc();
    let mut chunk = Chunk::new(alloc, 7)?;
    has_head(&rt, &chunk, 7, 0);
    assert!(rt; chunk.entry(0).is_none() && chunk.take_entry().is_none());
    chunk.upto = 10;
    fill_up(&rt, alloc, &mut chunk)?;
    gives_back(&rt, alloc, &mut chunk)?;
    gives_room_for_one(&rt, alloc, &mut chunk)?;
    gives_back(&rt, alloc, &mut chunk)?;
    leave_in_order(&rt, &mut chunk)?;
    has_head(&rt, &chunk, 7, 10);
    Ok(())
}

// The number of each page, and how many of its bytes are used.
const PAGES: [(BlockNo, u64); 3] = [(700, 1), (512, 4), (701, 2)];

fn put_pages(alloc: Global, chunk: &mut Chunk) -> Result<(), Fail> {
    let mut pages = Pages::new(alloc);
    for (number, used) in PAGES {
        let mut page = next(&mut pages, number, 4)?;
        if !stage(&mut page, used, 9) {
            return Err("no bytes are left".into());
        }
        chunk.put_page(page)?;
    }
    Ok(())
}

fn take_pages(rt: &impl Abort, chunk: &mut Chunk) -> Result<(), Fail> {
    for (number, used) in PAGES {
        let page = chunk.take_page().ok_or("too few pages")?;
        assert_eq!(rt; page.number(), number);
        assert_eq!(rt; page.used(), used);
        let block = page.into_block();
        assert!(rt; block.len() > used, "page {number}");
        assert!(rt;
            part(&block, 0, used)?.iter().all(|&byte| byte == 9),
            "page {number}"
        );
    }
    assert!(rt; chunk.take_page().is_none());
    Ok(())
}

// Two entries that stay in a chunk while its pages come and go.
const STAYING: [Row; 2] = [UPDATE_OF_A_LIST, DESTROY];

fn put_entries(alloc: Global, chunk: &mut Chunk) -> Result<(), Fail> {
    for row in STAYING {
        if chunk.count() >= 64 {
            return Err("there are 64 entries".into());
        }
        add_within(chunk, made(alloc, row)?);
    }
    Ok(())
}

fn take_entries(rt: &impl Abort, alloc: Global, chunk: &mut Chunk) -> Result<(), Fail> {
    let mut taken = Vec::new(alloc);
    take_all(chunk, &mut taken)?;
    assert_eq!(rt; taken.len(), 2);
    for (e, row) in taken.iter().zip(STAYING) {
        assert_eq!(rt; row_of(e), row);
    }
    Ok(())
}

#[test]
fn pages_leave_a_chunk_in_order(rt: HostRuntime) -> Result<(), Fail> {
    let alloc = rt.alloc();
    let mut chunk = Chunk::new(alloc, 1)?;
    assert!(rt; chunk.take_page().is_none());
    put_entries(alloc, &mut chunk)?;
    put_pages(alloc, &mut chunk)?;
    take_pages(&rt, &mut chunk)?;
    take_entries(&rt, alloc, &mut chunk)
}
