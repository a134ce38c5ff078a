//! Blocks that chunks retired, released once their chunk is finished.

use dx_types::{BlockNo, ChunkNo};
use lifetime::Holds;
use std::alloc::{AllocError, Global};
use std::test::Fail;

// Block 10 of chunk 1, blocks 20 and 21 of chunk 2, block 40 of chunk 4.
fn marked(alloc: Global) -> Result<Holds, AllocError> {
    let mut holds = Holds::new(alloc);
    holds.retire(1, 10)?;
    holds.retire(2, 20)?;
    holds.retire(2, 21)?;
    holds.retire(4, 40)?;
    Ok(holds)
}

// Up to which chunk a block is asked for, and what is released in turn.
const ASKED: [(ChunkNo, Option<BlockNo>); 8] = [
    (0, None),
    (1, Some(10)),
    (1, None),
    (3, Some(20)),
    (3, Some(21)),
    (3, None),
    (u64::MAX, Some(40)),
    (u64::MAX, None),
];

#[test]
fn the_oldest_block_is_released_first(rt: HostRuntime) -> Result<(), Fail> {
    let mut holds = marked(rt.alloc())?;
    for (upto, block) in ASKED {
        assert_eq!(rt; holds.released(upto), block, "up to {upto}");
    }
    assert!(rt; Holds::new(rt.alloc()).released(u64::MAX).is_none());
    Ok(())
}
