//! Listings that cover their hazards or do not, and orders that a listing allows or does not.

use listing_tables::{ALL_TOUCHES, ALL_WRITES, ONE_GROUP, Op, Part, Task, listing, operation};
use std::alloc::{AllocError, Global};
use std::process::Abort;
use std::test::Fail;
use vk_order::{OrderEnd, Uncovered, allowed, allowed_by_index, covered, covered_by_index};
use vk_types::{Access, Barrier, Mask, SlotName, VkOp};

fn is_covered(ops: &[VkOp]) -> Result<Result<(), Uncovered>, Fail> {
    if ops.len() > 1_000_000 {
        return Err("too many operations".into());
    }
    Ok(covered(ops))
}

fn is_covered_by_index(alloc: Global, ops: &[VkOp]) -> Result<Result<(), Uncovered>, Fail> {
    if ops.len() > 1_000_000 {
        return Err("too many operations".into());
    }
    let end = covered_by_index(alloc, ops)?;
    Ok(end)
}

fn is_allowed(ops: &[VkOp], order: &[u32]) -> Result<Result<(), OrderEnd>, Fail> {
    if ops.len() > 1_000_000 {
        return Err("too many operations".into());
    }
    Ok(allowed(ops, order))
}

fn is_allowed_by_index(
    alloc: Global,
    ops: &[VkOp],
    order: &[u32],
) -> Result<Result<(), OrderEnd>, Fail> {
    if ops.len() > 1_000_000 {
        return Err("too many operations".into());
    }
    let end = allowed_by_index(alloc, ops, order)?;
    Ok(end)
}

struct Listing {
    shows: &'static str,
    ops: &'static [Op],
    len: usize,
    end: Result<(), Uncovered>,
}

const BLOCK: Part = Part(512, 0, 16);

const OTHER: Part = Part(513, 0, 16);

const CLEAR: Op = Op::Command(1, Task::Clear(BLOCK, [1, 0, 0, 0], 2));

const SHADER_READS: Op = Op::Command(
    2,
    Task::Dispatch {
        shader: 9,
        groups: ONE_GROUP,
        slots: &[(SlotName::Srv(0), BLOCK)],
    },
);

const COPY_READS: Op = Op::Command(3, Task::Copy(BLOCK, OTHER));

const TO_ALL: Op = Op::Barrier(Barrier {
    source: ALL_WRITES,
    dest: ALL_TOUCHES,
    first: 1,
    second: Some(2),
});

const COMPUTE_ALONE: Mask = Mask {
    indirect: None,
    compute: Some(Access::READ_WRITE),
    transfer: None,
    host: None,
};

const TO_COMPUTE: Op = Op::Barrier(Barrier {
    source: ALL_WRITES,
    dest: COMPUTE_ALONE,
    first: 1,
    second: Some(2),
});

// A clear, a barrier, a dispatch that reads, a copy that reads, and the submit.
const CLEAR_AND_READS: [Op; 5] = [CLEAR, TO_ALL, SHADER_READS, COPY_READS, Op::Submit(1)];

static BARRIERS: [Listing; 2] = [
    Listing {
        shows: "a barrier to all reads",
        ops: &CLEAR_AND_READS,
        len: 5,
        end: Ok(()),
    },
    Listing {
        shows: "a barrier to the shader's read alone",
        ops: &[CLEAR, TO_COMPUTE, SHADER_READS, COPY_READS, Op::Submit(1)],
        len: 5,
        end: Err(Uncovered {
            first: 0,
            second: 3,
        }),
    },
];

const FILL: Op = Op::Command(1, Task::Fill(BLOCK, 0));

const HOST: Mask = Mask {
    indirect: None,
    compute: None,
    transfer: None,
    host: Some(Access::READ),
};

const TO_HOST: Op = Op::Barrier(Barrier {
    source: ALL_WRITES,
    dest: HOST,
    first: 1,
    second: None,
});

const NOT_TO_HOST: Op = Op::Barrier(Barrier {
    source: ALL_WRITES,
    dest: COMPUTE_ALONE,
    first: 1,
    second: None,
});

const FILL_IS_READ: Result<(), Uncovered> = Err(Uncovered {
    first: 0,
    second: 4,
});

// A fill that the host reads.
static FENCES: [Listing; 4] = [
    Listing {
        shows: "without a fence",
        ops: &[
            FILL,
            TO_HOST,
            Op::Submit(7),
            Op::Fence(0),
            Op::HostRead(BLOCK),
        ],
        len: 5,
        end: FILL_IS_READ,
    },
    Listing {
        shows: "with the fence of an earlier submit",
        ops: &[
            FILL,
            TO_HOST,
            Op::Submit(7),
            Op::Fence(6),
            Op::HostRead(BLOCK),
        ],
        len: 5,
        end: FILL_IS_READ,
    },
    Listing {
        shows: "with its own fence and no barrier to the host",
        ops: &[
            FILL,
            NOT_TO_HOST,
            Op::Submit(7),
            Op::Fence(7),
            Op::HostRead(BLOCK),
        ],
        len: 5,
        end: FILL_IS_READ,
    },
    Listing {
        shows: "with its own fence and a barrier to the host",
        ops: &[
            FILL,
            TO_HOST,
            Op::Submit(7),
            Op::Fence(7),
            Op::HostRead(BLOCK),
        ],
        len: 5,
        end: Ok(()),
    },
];

static BREAKS: [Listing; 2] = [
    Listing {
        shows: "the break with the least second place is told, though its first act stands later",
        ops: &[
            Op::Command(1, Task::Fill(BLOCK, 0)),
            Op::Command(2, Task::Fill(OTHER, 0)),
            Op::Command(3, Task::Fill(OTHER, 0)),
            Op::Command(4, Task::Fill(BLOCK, 0)),
        ],
        len: 4,
        end: Err(Uncovered {
            first: 1,
            second: 2,
        }),
    },
    Listing {
        shows: "behind a barrier that serves a command the host's writes still wait for it",
        ops: &[
            Op::Command(1, Task::Fill(OTHER, 0)),
            Op::Command(2, Task::Fill(BLOCK, 0)),
            TO_ALL,
            Op::Command(3, Task::Fill(BLOCK, 0)),
            Op::HostWrite(BLOCK),
        ],
        len: 5,
        end: Err(Uncovered {
            first: 1,
            second: 4,
        }),
    },
];

fn ends(rt: &impl Abort, alloc: Global, rows: &[Listing]) -> Result<(), Fail> {
    for row in rows {
        let ops = listing(alloc, row.ops)?;
        assert_eq!(rt; ops.len(), row.len, "{}", row.shows);
        assert_eq!(rt; is_covered(&ops)?, row.end, "{}", row.shows);
        assert_eq!(rt; is_covered_by_index(alloc, &ops)?, row.end, "{}", row.shows);
    }
    Ok(())
}

#[test]
fn by_barriers(rt: HostRuntime) -> Result<(), Fail> {
    ends(&rt, rt.alloc(), &BARRIERS)
}

#[test]
fn by_fences(rt: HostRuntime) -> Result<(), Fail> {
    ends(&rt, rt.alloc(), &FENCES)
}

#[test]
fn first_breaks(rt: HostRuntime) -> Result<(), Fail> {
    ends(&rt, rt.alloc(), &BREAKS)
}

// Fills of one block with a barrier behind each, but for one of them.
fn fills_and_barriers(alloc: Global, count: u32, without: u32) -> Result<Vec<VkOp>, AllocError> {
    let mut ops = Vec::new(alloc);
    for i in 0..count {
        ops.push(operation(
            alloc,
            Op::Command(u64::from(i).wrapping_add(1), Task::Fill(BLOCK, 0)),
        )?)?;
        if i != without {
            ops.push(operation(alloc, TO_ALL)?)?;
        }
    }
    Ok(ops)
}

#[test]
fn one_barrier_of_many_is_missing(rt: HostRuntime) -> Result<(), Fail> {
    let ops = fills_and_barriers(rt.alloc(), 1_000, 700)?;
    assert_eq!(rt; ops.len(), 1_999);
    let end = Err(Uncovered {
        first: 1_400,
        second: 1_401,
    });
    assert_eq!(rt; is_covered(&ops)?, end);
    assert_eq!(rt; is_covered_by_index(rt.alloc(), &ops)?, end);
    Ok(())
}

struct Order {
    shows: &'static str,
    places: &'static [u32],
    end: Result<(), OrderEnd>,
}

static ORDERS: [Order; 8] = [
    Order {
        shows: "the two reads turned round",
        places: &[0, 3, 2],
        end: Ok(()),
    },
    Order {
        shows: "the listing's own order",
        places: &[0, 2, 3],
        end: Ok(()),
    },
    Order {
        shows: "the copy before the clear",
        places: &[3, 0, 2],
        end: Err(OrderEnd::Broken {
            first: 0,
            second: 3,
        }),
    },
    Order {
        shows: "both reads before the clear",
        places: &[2, 3, 0],
        end: Err(OrderEnd::Broken {
            first: 0,
            second: 2,
        }),
    },
    Order {
        shows: "an act is missing",
        places: &[0, 2],
        end: Err(OrderEnd::NotAll { at: 2 }),
    },
    Order {
        shows: "a barrier is no act",
        places: &[0, 1, 2],
        end: Err(OrderEnd::NotAll { at: 1 }),
    },
    Order {
        shows: "an act twice in place of another",
        places: &[0, 2, 0],
        end: Err(OrderEnd::NotAll { at: 2 }),
    },
    Order {
        shows: "an act twice behind all",
        places: &[0, 2, 3, 3],
        end: Err(OrderEnd::NotAll { at: 3 }),
    },
];

#[test]
fn orders(rt: HostRuntime) -> Result<(), Fail> {
    let ops = listing(rt.alloc(), &CLEAR_AND_READS)?;
    assert_eq!(rt; ops.len(), 5);
    for row in &ORDERS {
        assert_eq!(rt; is_allowed(&ops, row.places)?, row.end, "{}", row.shows);
        let by_index = is_allowed_by_index(rt.alloc(), &ops, row.places)?;
        assert_eq!(rt; by_index, row.end, "{}", row.shows);
    }
    Ok(())
}

// So many operations that nothing orders.
fn fills(alloc: Global, count: u32) -> Result<Vec<VkOp>, AllocError> {
    let mut ops = Vec::new(alloc);
    for i in 0..count {
        let fill = Task::Fill(Part(i, 0, 16), 0);
        ops.push(operation(alloc, Op::Command(u64::from(i).wrapping_add(1), fill))?)?;
    }
    Ok(ops)
}

// These places, and then those from one on to just before another.
fn places(alloc: Global, front: &[u32], from: u32, to: u32) -> Result<Vec<u32>, AllocError> {
    let mut order = front.to_vec(alloc)?;
    for i in from..to {
        order.push(i)?;
    }
    Ok(order)
}

fn allows(rt: &impl Abort, alloc: Global, count: u32, order: &[u32]) -> Result<(), Fail> {
    let ops = fills(alloc, count)?;
    assert_eq!(rt; ops.len(), count as usize);
    assert_eq!(rt; is_allowed(&ops, order)?, Ok(()));
    assert_eq!(rt; is_allowed_by_index(alloc, &ops, order)?, Ok(()));
    Ok(())
}

// A listing of many operations in its own order, and one with two acts turned round that nothing orders.
#[test]
fn orders_of_many_operations(rt: HostRuntime) -> Result<(), Fail> {
    let alloc = rt.alloc();
    let order = places(alloc, &[], 0, 100_000)?;
    allows(&rt, alloc, 100_000, &order)?;
    let turned = places(alloc, &[1, 0], 2, 5_000)?;
    allows(&rt, alloc, 5_000, &turned)
}
