// Where an access through a view finds its word, and what a load gives.

use crate::building::part;
use crate::slots::BYTES;
use dx_types::Form;
use shader_model::{Declared, SlotUse};
use shader_slots::{Slots, loaded, place};
use std::process::Abort;
use std::test::Fail;

/// Components of accesses, each by a, o and c: component c of an access at a and o. With the place of its word in a view
/// of so many words, where it has one.
struct ViewPlaces {
    form: Form,
    parameter: u32,
    len: usize,
    places: &'static [([u32; 3], Option<usize>)],
}

static PLACES: [ViewPlaces; 13] = [
    ViewPlaces {
        form: Form::Raw,
        parameter: 0,
        len: 4,
        places: &[
            ([0, 0, 0], Some(0)),
            ([3, 0, 0], Some(0)),
            ([4, 0, 1], Some(2)),
            ([12, 0xffffffff, 0], Some(3)),
            ([12, 0, 1], None),
            ([16, 0, 0], None),
            ([0, 0, 0xffffffff], None),
            ([0xfffffffc, 0, 0], None),
            ([0xfffffffc, 0, 1], None),
        ],
    },
    ViewPlaces {
        form: Form::Raw,
        parameter: 0,
        len: 0x40000000,
        places: &[
            ([0xffffffff, 0, 0], Some(0x3fffffff)),
            ([0xffffffff, 0, 1], None),
        ],
    },
    ViewPlaces {
        form: Form::Raw,
        parameter: 0,
        len: 0,
        places: &[([0, 0, 0], None)],
    },
    ViewPlaces {
        form: Form::Structured,
        parameter: 12,
        len: 10,
        places: &[
            ([0, 0, 0], Some(0)),
            ([1, 5, 0], Some(4)),
            ([2, 8, 0], Some(8)),
            ([1, 8, 1], None),
            ([1, 12, 0], None),
            ([3, 0, 0], None),
            ([0, 0xfffffffc, 1], None),
            ([0, 4, 0xffffffff], None),
            ([0xffffffff, 0, 0], None),
            ([0x55555556, 0, 0], None),
        ],
    },
    ViewPlaces {
        form: Form::Structured,
        parameter: 4,
        len: 10,
        places: &[([9, 3, 0], Some(9))],
    },
    ViewPlaces {
        form: Form::Structured,
        parameter: 2048,
        len: 1024,
        places: &[([1, 2044, 0], Some(1023))],
    },
    ViewPlaces {
        form: Form::Structured,
        parameter: 2048,
        len: 1023,
        places: &[([1, 0, 0], None)],
    },
    ViewPlaces {
        form: Form::Structured,
        parameter: 2,
        len: 10,
        places: &[([0, 0, 0], None)],
    },
    ViewPlaces {
        form: Form::Structured,
        parameter: 0,
        len: 10,
        places: &[([0, 0, 0], None)],
    },
    ViewPlaces {
        form: Form::Typed,
        parameter: 4,
        len: 10,
        places: &[
            ([0, 0, 3], Some(3)),
            ([1, 0xffffffff, 3], Some(7)),
            ([2, 0, 0], None),
            ([0, 0, 4], None),
            ([0x40000000, 0, 0], None),
        ],
    },
    ViewPlaces {
        form: Form::Typed,
        parameter: 2,
        len: 10,
        places: &[([4, 0, 1], Some(9)), ([5, 0, 0], None), ([4, 0, 2], None)],
    },
    ViewPlaces {
        form: Form::Typed,
        parameter: 1,
        len: 10,
        places: &[
            ([9, 0, 0], Some(9)),
            ([9, 0, 1], None),
            ([10, 0, 0], None),
            ([0xffffffff, 0, 0], None),
        ],
    },
    ViewPlaces {
        form: Form::Typed,
        parameter: 0,
        len: 10,
        places: &[([0, 0, 0], None)],
    },
];

/// Components of loads, each by a, o and c, through a view of five words: of a resource, or of an unordered access view.
struct ViewLoads {
    writable: bool,
    slot: u8,
    form: Form,
    parameter: u32,
    words: &'static [([u32; 3], u32)],
}

static LOADS: [ViewLoads; 10] = [
    ViewLoads {
        writable: false,
        slot: 2,
        form: Form::Raw,
        parameter: 0,
        words: &[
            ([4, 0, 1], 0x0b0a0908),
            ([16, 0, 0], 0x13121110),
            ([16, 0, 1], 0),
            ([0xfffffffc, 0, 1], 0),
        ],
    },
    ViewLoads {
        writable: true,
        slot: 2,
        form: Form::Raw,
        parameter: 0,
        words: &[([16, 0, 0], 0x27262524)],
    },
    ViewLoads {
        writable: true,
        slot: 3,
        form: Form::Raw,
        parameter: 0,
        words: &[([0, 0, 0], 0)],
    },
    ViewLoads {
        writable: true,
        slot: 255,
        form: Form::Raw,
        parameter: 0,
        words: &[([0, 0, 0], 0)],
    },
    ViewLoads {
        writable: false,
        slot: 2,
        form: Form::Structured,
        parameter: 8,
        words: &[([1, 4, 0], 0x0f0e0d0c), ([1, 4, 1], 0), ([2, 0, 0], 0)],
    },
    ViewLoads {
        writable: true,
        slot: 2,
        form: Form::Structured,
        parameter: 8,
        words: &[([1, 4, 0], 0x23222120)],
    },
    ViewLoads {
        writable: false,
        slot: 2,
        form: Form::Typed,
        parameter: 4,
        words: &[([0, 0, 3], 0x0f0e0d0c), ([1, 0, 3], 0)],
    },
    ViewLoads {
        writable: false,
        slot: 2,
        form: Form::Typed,
        parameter: 2,
        words: &[
            ([1, 0, 1], 0x0f0e0d0c),
            ([1, 0, 2], 0),
            ([1, 0, 3], 1),
            ([2, 0, 3], 0),
        ],
    },
    ViewLoads {
        writable: true,
        slot: 2,
        form: Form::Typed,
        parameter: 1,
        words: &[([4, 0, 0], 0x27262524), ([4, 0, 3], 1)],
    },
    ViewLoads {
        writable: true,
        slot: 3,
        form: Form::Typed,
        parameter: 1,
        words: &[([0, 0, 3], 0)],
    },
];

fn declared(form: Form, parameter: u32) -> Declared {
    Declared {
        opcode: 4,
        slot: 0,
        form,
        parameter,
    }
}

fn has_places(rt: &impl Abort, row: &ViewPlaces) {
    let declared = declared(row.form, row.parameter);
    for ([a, o, c], want) in row.places {
        let at = place(&declared, row.len, *a, *o, *c);
        assert_eq!(rt;
            &at,
            want,
            "of {declared:?}, {} words, at {a} {o} {c}",
            row.len
        );
    }
}

#[test]
fn places(rt: HostRuntime) {
    for row in &PLACES {
        has_places(&rt, row);
    }
}

fn gives_words(rt: &impl Abort, slots: &Slots<'_>, row: &ViewLoads) {
    let name = SlotUse {
        slot: row.slot,
        writable: row.writable,
    };
    let declared = declared(row.form, row.parameter);
    for ([a, o, c], want) in row.words {
        let got = loaded(slots, &name, &declared, *a, *o, *c);
        assert_eq!(rt; &got, want, "of {name:?}, {declared:?}, at {a} {o} {c}");
    }
}

#[test]
fn loads(rt: HostRuntime) -> Result<(), Fail> {
    let mut slots = Slots::new();
    slots.bind_read(2, &BYTES[..20]);
    slots.bind_write(2, part(rt.alloc(), &BYTES, 20, 40)?);
    for row in &LOADS {
        gives_words(&rt, &slots, row);
    }
    Ok(())
}
