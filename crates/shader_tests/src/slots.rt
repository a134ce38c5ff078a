// The words of slots: of what is bound, and of what is set.

use crate::building::part;
use shader_slots::{Slots, Whole};
use std::alloc::Global;
use std::process::Abort;
use std::test::Fail;

/// Ten words, of which each has its bytes' places as its bytes.
pub static BYTES: [u8; 40] = [
    0, 1, 2, 3, 4, 5, 6, 7, 8, 9, 10, 11, 12, 13, 14, 15, 16, 17, 18, 19, 20, 21, 22, 23, 24, 25,
    26, 27, 28, 29, 30, 31, 32, 33, 34, 35, 36, 37, 38, 39,
];

/// The same bytes once words 2 and 4 were set.
static CHANGED: [u8; 40] = [
    0, 1, 2, 3, 4, 5, 6, 7, 252, 253, 254, 255, 12, 13, 14, 15, 1, 0, 0, 128, 20, 21, 22, 23, 24,
    25, 26, 27, 28, 29, 30, 31, 32, 33, 34, 35, 36, 37, 38, 39,
];

#[derive(Clone, Copy, Debug)]
enum Kind {
    Constant,
    Read,
    Write,
}

/// Words of a slot by their places, where it has them.
struct Words {
    kind: Kind,
    slot: usize,
    words: &'static [(usize, Option<u32>)],
}

/// What is bound.
static BOUND: [Words; 11] = [
    Words {
        kind: Kind::Constant,
        slot: 0,
        words: &[(0, Some(0x03020100)), (1, Some(0x07060504)), (2, None)],
    },
    Words {
        kind: Kind::Constant,
        slot: 1,
        words: &[(0, None)],
    },
    Words {
        kind: Kind::Constant,
        slot: 13,
        words: &[(0, Some(0x0b0a0908)), (3, Some(0x17161514)), (4, None)],
    },
    Words {
        kind: Kind::Constant,
        slot: 14,
        words: &[(0, None)],
    },
    Words {
        kind: Kind::Read,
        slot: 0,
        words: &[(0, None)],
    },
    Words {
        kind: Kind::Read,
        slot: 15,
        words: &[
            (0, Some(0x03020100)),
            (9, Some(0x27262524)),
            (0x4000_0000, None),
        ],
    },
    Words {
        kind: Kind::Read,
        slot: 16,
        words: &[(0, None)],
    },
    Words {
        kind: Kind::Read,
        slot: usize::MAX,
        words: &[(0, None)],
    },
    Words {
        kind: Kind::Write,
        slot: 0,
        words: &[(9, Some(0x27262524)), (10, None)],
    },
    Words {
        kind: Kind::Write,
        slot: 7,
        words: &[(0, Some(0x0b0a0908)), (2, Some(0x13121110)), (3, None)],
    },
    Words {
        kind: Kind::Write,
        slot: 8,
        words: &[(0, None)],
    },
];

/// What of that is otherwise once slot 7's part was written.
static WRITTEN: [Words; 2] = [
    Words {
        kind: Kind::Write,
        slot: 7,
        words: &[
            (0, Some(0xfffefdfc)),
            (1, Some(0x0f0e0d0c)),
            (2, Some(0x80000001)),
        ],
    },
    Words {
        kind: Kind::Write,
        slot: 0,
        words: &[(2, Some(0x0b0a0908))],
    },
];

/// Places of unordered access views, each with a word to set, and whether it is set.
static SET: [(usize, usize, u32, bool); 4] = [
    (7, 0, 0xfffefdfc, true),
    (7, 2, 0x80000001, true),
    (7, 3, 1, false),
    (8, 0, 1, false),
];

/// A word of a slot, None where it has none.
fn bound_word(slots: &Slots<'_>, kind: Kind, slot: usize, place: usize) -> Option<u32> {
    match kind {
        Kind::Constant if place < slots.constant_len(slot) => {
            Some(slots.constant_word(slot, place))
        }
        Kind::Read if place < slots.read_len(slot) => Some(slots.read_word(slot, place)),
        Kind::Write if place < slots.write_len(slot) => Some(slots.write_word(slot, place)),
        _ => None,
    }
}

/// Whether a word was set.
fn set(slots: &mut Slots<'_>, slot: usize, place: usize, value: u32) -> bool {
    let is_in = place < slots.write_len(slot);
    if is_in {
        slots.set_word(slot, place, value);
    }
    is_in
}

fn have_words(rt: &impl Abort, slots: &Slots<'_>, rows: &[Words]) {
    for row in rows {
        for (place, word) in row.words {
            has_word(rt, slots, row, *place, *word);
        }
    }
}

fn has_word(rt: &impl Abort, slots: &Slots<'_>, row: &Words, place: usize, want: Option<u32>) {
    let word = bound_word(slots, row.kind, row.slot, place);
    assert_eq!(rt; word, want, "{:?} {}, word {place}", row.kind, row.slot);
}

/// Constant buffers and resources: by slot, from which byte to before which. Slot 0 of the resources is bound twice, and
/// has nothing then.
static CONSTANTS: [(usize, usize, usize); 2] = [(0, 0, 8), (13, 8, 24)];

static READS: [(usize, usize, usize); 3] = [(0, 0, 40), (0, 0, 0), (15, 0, 40)];

/// All bytes in slot 0 of the unordered access views, and three words of them in slot 7, with how many words they are.
static WRITES: [(usize, usize, usize, usize); 2] = [(0, 0, 40, 10), (7, 8, 20, 3)];

fn bind_constant(
    slots: &mut Slots<'static>,
    slot: usize,
    bytes: &'static [u8],
) -> Result<(), Fail> {
    if slot >= 14 || bytes.len() % 4 != 0 || bytes.len() > 40 {
        return Err("no constant buffer".into());
    }
    slots.bind_constant(slot, bytes);
    Ok(())
}

fn bind_read(slots: &mut Slots<'static>, slot: usize, bytes: &'static [u8]) -> Result<(), Fail> {
    if slot >= 16 || bytes.len() % 4 != 0 || bytes.len() > 40 {
        return Err("no resource".into());
    }
    slots.bind_read(slot, bytes);
    Ok(())
}

fn bind_write(slots: &mut Slots<'static>, slot: usize, part: Whole) -> Result<(), Fail> {
    if slot >= 8 {
        return Err("no unordered access view".into());
    }
    slots.bind_write(slot, part);
    Ok(())
}

fn all_bound(rt: &impl Abort, alloc: Global) -> Result<Slots<'static>, Fail> {
    let mut slots = Slots::new();
    for (slot, from, to) in CONSTANTS {
        bind_constant(
            &mut slots,
            slot,
            BYTES.get(from..to).ok_or("behind the end")?,
        )?;
    }
    for (slot, from, to) in READS {
        bind_read(
            &mut slots,
            slot,
            BYTES.get(from..to).ok_or("behind the end")?,
        )?;
    }
    for (slot, from, to, words) in WRITES {
        let part = part(alloc, &BYTES, from, to)?;
        assert_eq!(rt; part.len(), words);
        bind_write(&mut slots, slot, part)?;
    }
    Ok(slots)
}

fn has_bytes(rt: &impl Abort, part: Option<Whole>, bytes: &[u8]) -> Result<(), Fail> {
    let part = part.ok_or("no part")?;
    assert_eq!(rt; part.into_bytes().as_slice(), bytes);
    Ok(())
}

#[test]
fn parts_of_buffers(rt: HostRuntime) -> Result<(), Fail> {
    let mut slots = all_bound(&rt, rt.alloc())?;
    have_words(&rt, &slots, &BOUND);
    for (slot, place, value, is_in) in SET {
        assert_eq!(rt;
            set(&mut slots, slot, place, value),
            is_in,
            "{slot} {place}"
        );
    }
    have_words(&rt, &slots, &WRITTEN);
    has_bytes(&rt, slots.take_write(7), &CHANGED)?;
    assert!(rt; slots.take_write(7).is_none());
    assert_eq!(rt; slots.write_len(7), 0);
    let mut parts = slots.into_writes();
    assert!(rt; parts[7].is_none());
    has_bytes(&rt, parts[0].take(), &BYTES)
}
