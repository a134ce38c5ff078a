//! What each act on the memory leaves of a buffer's bytes.

use d3d_memory::Memory;
use d3d_views::BoundView;
use dx_types::{Form, ViewShape};
use std::alloc::{AllocError, Global};
use std::test::Fail;

/// What is done to buffer 1, or to buffer 2 where it is the target of a copy.
enum Act {
    Write {
        offset: u32,
        bytes: &'static [u8],
    },
    Discard {
        offset: u32,
        bytes: &'static [u8],
    },
    Copy {
        target: u32,
        source: u32,
    },
    CopyRegion {
        to: u32,
        source: u32,
        from: u32,
        len: u32,
    },
    Clear {
        form: Form,
        unit: u32,
        first: u64,
        count: u64,
    },
}

/// What buffer 1 holds after an act, and `FIRST` before it.
struct Row {
    shows: &'static str,
    act: Act,
    leaves: [u8; 16],
}

/// The bytes of buffer 1 before an act.
static FIRST: [u8; 16] = [0, 1, 2, 3, 4, 5, 6, 7, 8, 9, 10, 11, 12, 13, 14, 15];

/// The bytes of buffer 2, which no act changes.
static SECOND: [u8; 8] = [0xf0, 0xf1, 0xf2, 0xf3, 0xf4, 0xf5, 0xf6, 0xf7];

/// What a view is cleared with.
static VALUES: [u32; 4] = [0x01020304, 0xff, 0x8000_0000, 7];

static ROWS: [Row; 22] = [
    Row {
        shows: "two bytes in front",
        act: Act::Write {
            offset: 0,
            bytes: &[0xaa, 0xbb],
        },
        leaves: [0xaa, 0xbb, 2, 3, 4, 5, 6, 7, 8, 9, 10, 11, 12, 13, 14, 15],
    },
    Row {
        shows: "two bytes at the end",
        act: Act::Write {
            offset: 14,
            bytes: &[0xaa, 0xbb],
        },
        leaves: [0, 1, 2, 3, 4, 5, 6, 7, 8, 9, 10, 11, 12, 13, 0xaa, 0xbb],
    },
    Row {
        shows: "two bytes past the end",
        act: Act::Write {
            offset: 15,
            bytes: &[0xaa, 0xbb],
        },
        leaves: [0, 1, 2, 3, 4, 5, 6, 7, 8, 9, 10, 11, 12, 13, 14, 15],
    },
    Row {
        shows: "no byte at the end",
        act: Act::Write {
            offset: 16,
            bytes: &[],
        },
        leaves: [0, 1, 2, 3, 4, 5, 6, 7, 8, 9, 10, 11, 12, 13, 14, 15],
    },
    Row {
        shows: "zeros around what a discard writes",
        act: Act::Discard {
            offset: 3,
            bytes: &[0xaa, 0xbb],
        },
        leaves: [0, 0, 0, 0xaa, 0xbb, 0, 0, 0, 0, 0, 0, 0, 0, 0, 0, 0],
    },
    Row {
        shows: "zeros alone, where a discard writes nothing",
        act: Act::Discard {
            offset: 0,
            bytes: &[],
        },
        leaves: [0, 0, 0, 0, 0, 0, 0, 0, 0, 0, 0, 0, 0, 0, 0, 0],
    },
    Row {
        shows: "a shorter buffer over the front",
        act: Act::Copy {
            target: 1,
            source: 2,
        },
        leaves: [
            0xf0, 0xf1, 0xf2, 0xf3, 0xf4, 0xf5, 0xf6, 0xf7, 8, 9, 10, 11, 12, 13, 14, 15,
        ],
    },
    Row {
        shows: "a buffer that isn't live",
        act: Act::Copy {
            target: 1,
            source: 3,
        },
        leaves: [0, 1, 2, 3, 4, 5, 6, 7, 8, 9, 10, 11, 12, 13, 14, 15],
    },
    Row {
        shows: "a longer buffer over a shorter one",
        act: Act::Copy {
            target: 2,
            source: 1,
        },
        leaves: [0, 1, 2, 3, 4, 5, 6, 7, 8, 9, 10, 11, 12, 13, 14, 15],
    },
    Row {
        shows: "the last bytes of another buffer",
        act: Act::CopyRegion {
            to: 10,
            source: 2,
            from: 5,
            len: 3,
        },
        leaves: [0, 1, 2, 3, 4, 5, 6, 7, 8, 9, 0xf5, 0xf6, 0xf7, 13, 14, 15],
    },
    Row {
        shows: "no more bytes than the source has",
        act: Act::CopyRegion {
            to: 10,
            source: 2,
            from: 6,
            len: 9,
        },
        leaves: [0, 1, 2, 3, 4, 5, 6, 7, 8, 9, 0xf6, 0xf7, 12, 13, 14, 15],
    },
    Row {
        shows: "no byte past the target's end",
        act: Act::CopyRegion {
            to: 14,
            source: 2,
            from: 0,
            len: 3,
        },
        leaves: [0, 1, 2, 3, 4, 5, 6, 7, 8, 9, 10, 11, 12, 13, 14, 15],
    },
    Row {
        shows: "a buffer's own bytes, moved back",
        act: Act::CopyRegion {
            to: 2,
            source: 1,
            from: 0,
            len: 6,
        },
        leaves: [0, 1, 0, 1, 2, 3, 4, 5, 8, 9, 10, 11, 12, 13, 14, 15],
    },
    Row {
        shows: "a buffer's own bytes, moved to the front",
        act: Act::CopyRegion {
            to: 0,
            source: 1,
            from: 2,
            len: 6,
        },
        leaves: [2, 3, 4, 5, 6, 7, 6, 7, 8, 9, 10, 11, 12, 13, 14, 15],
    },
    Row {
        shows: "words of a raw view",
        act: Act::Clear {
            form: Form::Raw,
            unit: 4,
            first: 1,
            count: 2,
        },
        leaves: [0, 1, 2, 3, 4, 3, 2, 1, 4, 3, 2, 1, 12, 13, 14, 15],
    },
    Row {
        shows: "an element of a structured view",
        act: Act::Clear {
            form: Form::Structured,
            unit: 8,
            first: 1,
            count: 1,
        },
        leaves: [0, 1, 2, 3, 4, 5, 6, 7, 4, 3, 2, 1, 4, 3, 2, 1],
    },
    Row {
        shows: "an element of one component",
        act: Act::Clear {
            form: Form::Typed,
            unit: 4,
            first: 3,
            count: 1,
        },
        leaves: [0, 1, 2, 3, 4, 5, 6, 7, 8, 9, 10, 11, 4, 3, 2, 1],
    },
    Row {
        shows: "an element of two components",
        act: Act::Clear {
            form: Form::Typed,
            unit: 8,
            first: 0,
            count: 1,
        },
        leaves: [4, 3, 2, 1, 0xff, 0, 0, 0, 8, 9, 10, 11, 12, 13, 14, 15],
    },
    Row {
        shows: "two elements of two components",
        act: Act::Clear {
            form: Form::Typed,
            unit: 8,
            first: 0,
            count: 2,
        },
        leaves: [4, 3, 2, 1, 0xff, 0, 0, 0, 4, 3, 2, 1, 0xff, 0, 0, 0],
    },
    Row {
        shows: "an element of four components",
        act: Act::Clear {
            form: Form::Typed,
            unit: 16,
            first: 0,
            count: 1,
        },
        leaves: [4, 3, 2, 1, 0xff, 0, 0, 0, 0, 0, 0, 0x80, 7, 0, 0, 0],
    },
    Row {
        shows: "a view past the end",
        act: Act::Clear {
            form: Form::Raw,
            unit: 4,
            first: 3,
            count: 2,
        },
        leaves: [0, 1, 2, 3, 4, 5, 6, 7, 8, 9, 10, 11, 12, 13, 14, 15],
    },
    Row {
        shows: "a view of 2^64 - 1 words",
        act: Act::Clear {
            form: Form::Raw,
            unit: 4,
            first: 0,
            count: 18_446_744_073_709_551_615,
        },
        leaves: [0, 1, 2, 3, 4, 5, 6, 7, 8, 9, 10, 11, 12, 13, 14, 15],
    },
];

fn filled(alloc: Global) -> Result<Memory, AllocError> {
    let mut memory = Memory::new(alloc);
    memory.create(1, 16, &FIRST)?;
    memory.create(2, 8, &SECOND)?;
    Ok(memory)
}

fn view(form: Form, unit: u32, first: u64, count: u64) -> BoundView {
    BoundView {
        view: 1,
        shape: ViewShape {
            res: 1,
            writable: true,
            form,
            unit,
            first,
            count,
        },
    }
}

fn play(memory: &mut Memory, act: &Act) {
    match act {
        Act::Write { offset, bytes } => memory.write(1, *offset, bytes),
        Act::Discard { offset, bytes } => memory.discard(1, *offset, bytes),
        Act::Copy { target, source } => memory.copy(*target, *source),
        Act::CopyRegion {
            to,
            source,
            from,
            len,
        } => memory.copy_region(1, *to, *source, *from, *len),
        Act::Clear {
            form,
            unit,
            first,
            count,
        } => memory.clear(Some(view(*form, *unit, *first, *count)), &VALUES),
    }
}

#[test]
fn bytes_after_each_act(rt: HostRuntime) -> Result<(), Fail> {
    for row in &ROWS {
        let mut memory = filled(rt.alloc())?;
        play(&mut memory, &row.act);
        assert_eq!(rt; memory.bytes(1), row.leaves.as_slice(), "{}", row.shows);
        assert_eq!(rt; memory.bytes(2), SECOND.as_slice(), "{}", row.shows);
        let last = memory.read(rt.alloc(), 1, 14, 4)?;
        assert_eq!(rt;
            Some(last.as_slice()),
            row.leaves.get(14..),
            "{}",
            row.shows
        );
        memory.destroy(1);
        assert!(rt; memory.bytes(1).is_empty(), "{}", row.shows);
    }
    Ok(())
}
