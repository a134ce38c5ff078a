// The table of live buffers: which shapes go, and the limits on what is live.
use crate::same::same;
use d3d_resources::{Table, TableEnd};
use dx_types::{Refusal, Shape, Usage};
use std::alloc::Global;
use std::process::Abort;
use std::test::Fail;

// A buffer's size, usage, bind bits, misc bits and stride.
struct Described(u64, Usage, u32, u32, u32);

fn shape_of(described: &Described) -> Shape {
    let Described(size, usage, bind, misc, stride) = *described;
    Shape {
        size,
        usage,
        bind,
        misc,
        stride,
    }
}

static SHAPES_THAT_GO: [Described; 8] = [
    Described(4, Usage::Default, 0, 0, 0),
    Described(16_777_216, Usage::Default, 6, 4, 0),
    Described(4_194_304, Usage::Dynamic, 2, 0, 0),
    Described(65_536, Usage::Dynamic, 1, 0, 0),
    Described(8, Usage::Immutable, 2, 2, 4),
    Described(2_048, Usage::Default, 4, 6, 2_048),
    Described(16, Usage::Staging, 0, 4, 0),
    Described(4, Usage::Default, 4, 1, 0),
];

static BAD_SIZES: [Described; 10] = [
    Described(0, Usage::Default, 8, 0, 0),
    Described(3, Usage::Default, 0, 0, 0),
    Described(16_777_220, Usage::Default, 0, 0, 0),
    Described(4_194_308, Usage::Dynamic, 2, 0, 0),
    Described(8, Usage::Default, 1, 0, 0),
    Described(65_552, Usage::Default, 1, 0, 0),
    Described(8, Usage::Default, 2, 2, 0),
    Described(4_104, Usage::Default, 2, 2, 2_052),
    Described(12, Usage::Default, 2, 2, 8),
    Described(16, Usage::Default, 2, 0, 4),
];

static BAD_BITS: [Described; 9] = [
    Described(16, Usage::Default, 8, 0, 0),
    Described(16, Usage::Default, 2, 8, 0),
    Described(16, Usage::Default, 3, 0, 0),
    Described(16, Usage::Staging, 2, 0, 0),
    Described(16, Usage::Dynamic, 0, 0, 0),
    Described(16, Usage::Dynamic, 6, 0, 0),
    Described(16, Usage::Immutable, 4, 0, 0),
    Described(16, Usage::Default, 2, 3, 4),
    Described(16, Usage::Default, 1, 1, 0),
];

// What a table with no live buffer answers to each shape.
fn expect(
    rt: &impl Abort,
    alloc: Global,
    id: u32,
    rows: &[Described],
    answer: Result<(), TableEnd>,
) {
    for described in rows {
        let shape = shape_of(described);
        assert_eq!(rt; Table::new(alloc).create(id, shape), answer, "{shape:?}");
    }
}

#[test]
fn shapes_that_go(rt: HostRuntime) -> Result<(), Fail> {
    expect(&rt, rt.alloc(), 65_535, &SHAPES_THAT_GO, Ok(()));
    Ok(())
}

#[test]
fn shapes_that_do_not_go(rt: HostRuntime) -> Result<(), Fail> {
    let bad_size = Err(TableEnd::Refused(Refusal::BadSize));
    expect(&rt, rt.alloc(), 1, &BAD_SIZES, bad_size);
    let bad_bind = Err(TableEnd::Refused(Refusal::BadBind));
    expect(&rt, rt.alloc(), 1, &BAD_BITS, bad_bind);
    Ok(())
}

// What is done to a table, or asked of it, and the answer. Those of many go for all ids from 1 to the last.
enum Step {
    CreateMany {
        last: u32,
        shape: Shape,
    },
    RemoveMany {
        last: u32,
        shape: Shape,
    },
    Create {
        id: u32,
        shape: Shape,
        answer: Result<(), TableEnd>,
    },
    Remove {
        id: u32,
        answer: Result<Shape, Refusal>,
    },
    Shape {
        id: u32,
        answer: Option<Shape>,
    },
    Total {
        answer: u64,
    },
}

struct Row {
    shows: &'static str,
    step: Step,
}

fn take(rt: &impl Abort, table: &mut Table, row: &Row) {
    let shows = row.shows;
    match &row.step {
        Step::CreateMany { last, shape } => {
            for id in 1..=*last {
                same(rt, &table.create(id, *shape), &Ok(()), shows);
            }
        }
        Step::RemoveMany { last, shape } => {
            for id in 1..=*last {
                same(rt, &table.remove(id), &Ok(*shape), shows);
            }
        }
        Step::Create { id, shape, answer } => same(rt, &table.create(*id, *shape), answer, shows),
        Step::Remove { id, answer } => same(rt, &table.remove(*id), answer, shows),
        Step::Shape { id, answer } => same(rt, &table.shape(*id), answer, shows),
        Step::Total { answer } => same(rt, &table.total(), answer, shows),
    }
}

fn play(rt: &impl Abort, alloc: Global, rows: &[Row]) {
    let mut table = Table::new(alloc);
    for row in rows {
        take(rt, &mut table, row);
    }
}

const LARGE: Shape = Shape {
    size: 16_777_216,
    usage: Usage::Default,
    bind: 2,
    misc: 0,
    stride: 0,
};

const WORD: Shape = Shape {
    size: 4,
    usage: Usage::Default,
    bind: 0,
    misc: 0,
    stride: 0,
};

static LIMITS: [Row; 12] = [
    Row {
        shows: "large buffers up to the limit",
        step: Step::CreateMany {
            last: 16,
            shape: LARGE,
        },
    },
    Row {
        shows: "the limit",
        step: Step::Total {
            answer: 268_435_456,
        },
    },
    Row {
        shows: "one word more",
        step: Step::Create {
            id: 17,
            shape: WORD,
            answer: Err(TableEnd::Refused(Refusal::TooMuchMemory)),
        },
    },
    Row {
        shows: "the id is asked before the limit",
        step: Step::Create {
            id: 16,
            shape: WORD,
            answer: Err(TableEnd::Refused(Refusal::IdInUse)),
        },
    },
    Row {
        shows: "all are removed",
        step: Step::RemoveMany {
            last: 16,
            shape: LARGE,
        },
    },
    Row {
        shows: "removed twice",
        step: Step::Remove {
            id: 16,
            answer: Err(Refusal::UnknownId),
        },
    },
    Row {
        shows: "room again",
        step: Step::Create {
            id: 16,
            shape: WORD,
            answer: Ok(()),
        },
    },
    Row {
        shows: "the shape of the new one",
        step: Step::Shape {
            id: 16,
            answer: Some(WORD),
        },
    },
    Row {
        shows: "no shape of one that is removed",
        step: Step::Shape {
            id: 1,
            answer: None,
        },
    },
    Row {
        shows: "one word",
        step: Step::Total { answer: 4 },
    },
    Row {
        shows: "the id 0",
        step: Step::Create {
            id: 0,
            shape: WORD,
            answer: Err(TableEnd::Refused(Refusal::OutOfRange)),
        },
    },
    Row {
        shows: "an id too large",
        step: Step::Create {
            id: 65_536,
            shape: WORD,
            answer: Err(TableEnd::Refused(Refusal::OutOfRange)),
        },
    },
];

// The last of each limit goes and one more does not; a buffer that is removed makes room again.
#[test]
fn limits(rt: HostRuntime) -> Result<(), Fail> {
    play(&rt, rt.alloc(), &LIMITS);
    Ok(())
}

const SMALL: Shape = Shape {
    size: 256,
    usage: Usage::Dynamic,
    bind: 2,
    misc: 0,
    stride: 0,
};

const NEXT_CLASS: Shape = Shape {
    size: 260,
    usage: Usage::Dynamic,
    bind: 2,
    misc: 0,
    stride: 0,
};

static DYNAMIC_LIMITS: [Row; 6] = [
    Row {
        shows: "as many of a class as may be",
        step: Step::CreateMany {
            last: 32,
            shape: SMALL,
        },
    },
    Row {
        shows: "one more of the class",
        step: Step::Create {
            id: 33,
            shape: SMALL,
            answer: Err(TableEnd::Refused(Refusal::TooManyDynamic)),
        },
    },
    Row {
        shows: "one of the next class",
        step: Step::Create {
            id: 33,
            shape: NEXT_CLASS,
            answer: Ok(()),
        },
    },
    Row {
        shows: "one of the class is removed",
        step: Step::Remove {
            id: 7,
            answer: Ok(SMALL),
        },
    },
    Row {
        shows: "room for one of the class",
        step: Step::Create {
            id: 34,
            shape: SMALL,
            answer: Ok(()),
        },
    },
    Row {
        shows: "and for no other",
        step: Step::Create {
            id: 7,
            shape: SMALL,
            answer: Err(TableEnd::Refused(Refusal::TooManyDynamic)),
        },
    },
];

// 32 dynamic buffers of each class.
#[test]
fn dynamic_limits(rt: HostRuntime) -> Result<(), Fail> {
    play(&rt, rt.alloc(), &DYNAMIC_LIMITS);
    Ok(())
}
