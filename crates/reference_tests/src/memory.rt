//! The memory by its own functions: predicates and limits.

use d3d_memory::Memory;
use d3d_views::Predicate;
use std::test::Fail;

/// Words 0, 1 and 2^24.
static WORDS: [u8; 12] = [0, 0, 0, 0, 1, 0, 0, 0, 0, 0, 0, 1];

/// A predicate, whose word stands in a buffer of `WORDS`, and whether it skips what is predicated.
struct Skipping {
    shows: &'static str,
    predicate: Predicate,
    skips: bool,
}

static PREDICATES: [Skipping; 11] = [
    Skipping {
        shows: "no predicate",
        predicate: Predicate::Never,
        skips: false,
    },
    Skipping {
        shows: "a query's result is 0, the value too",
        predicate: Predicate::Query { id: 1, value: 0 },
        skips: true,
    },
    Skipping {
        shows: "a query's result is 0, the value 1",
        predicate: Predicate::Query { id: 1, value: 1 },
        skips: false,
    },
    Skipping {
        shows: "the word is 0, the value too",
        predicate: Predicate::Word {
            res: 1,
            offset: 0,
            value: 0,
        },
        skips: true,
    },
    Skipping {
        shows: "the word is 1, the value 0",
        predicate: Predicate::Word {
            res: 1,
            offset: 4,
            value: 0,
        },
        skips: false,
    },
    Skipping {
        shows: "the word is 2^24, the value 0",
        predicate: Predicate::Word {
            res: 1,
            offset: 8,
            value: 0,
        },
        skips: false,
    },
    Skipping {
        shows: "no word stands there, the value is 0",
        predicate: Predicate::Word {
            res: 1,
            offset: 12,
            value: 0,
        },
        skips: true,
    },
    Skipping {
        shows: "the word is 0, the value 1",
        predicate: Predicate::Word {
            res: 1,
            offset: 0,
            value: 1,
        },
        skips: false,
    },
    Skipping {
        shows: "the word is 1, the value too",
        predicate: Predicate::Word {
            res: 1,
            offset: 4,
            value: 1,
        },
        skips: true,
    },
    Skipping {
        shows: "the word is 2^24, the value 1",
        predicate: Predicate::Word {
            res: 1,
            offset: 8,
            value: 1,
        },
        skips: true,
    },
    Skipping {
        shows: "no word stands there, the value is 1",
        predicate: Predicate::Word {
            res: 1,
            offset: 12,
            value: 1,
        },
        skips: false,
    },
];

#[test]
fn predicates(rt: HostRuntime) -> Result<(), Fail> {
    let mut memory = Memory::new(rt.alloc());
    memory.create(1, 12, &WORDS)?;
    assert_eq!(rt; memory.counts_at(1, 0), [0, 1, 0x0100_0000]);
    for row in &PREDICATES {
        assert_eq!(rt;
            memory.is_skipped(row.predicate),
            row.skips,
            "{}",
            row.shows
        );
    }
    Ok(())
}

// A buffer of 16,777,216 bytes is within the limits, and one of 4 bytes more is not.
#[test]
fn limits(rt: HostRuntime) -> Result<(), Fail> {
    let mut memory = Memory::new(rt.alloc());
    memory.create(1, 16_777_216, &[])?;
    memory.create(2, 4, &[])?;
    assert!(rt; memory.is_in_limits());
    memory.create(2, 16_777_220, &[])?;
    assert!(rt; !memory.is_in_limits());
    Ok(())
}
