// What is set on a context: hazards, and what a dispatch binds.
use crate::same::same;
use d3d_views::{Bindings, BoundView, Predicate};
use dx_types::{Form, ResRange, ViewShape};
use std::alloc::Global;
use std::process::Abort;
use std::test::Fail;

// What is set on a context: a view in a slot is given by its id and its buffer.
enum Setting {
    Shader(u32),
    Constant(usize, u32),
    Srv(usize, u32, u32),
    Uav(usize, u32, u32),
    NoUav(usize),
    Predicate(Predicate),
    Default,
}

// What is asked of a context, and the answer.
enum Ask {
    Shader(u32),
    Constant(usize, Option<ResRange>),
    Srv(usize, Option<(u32, u32)>),
    Uav(usize, Option<(u32, u32)>),
    Predicate(Predicate),
    Holds(u32, bool),
    HoldsView(u32, bool),
    HoldsShader(u32, bool),
    HoldsQuery(u32, bool),
    Footprint(&'static [ResRange]),
}

// What is set in order, and what is asked then.
struct Row {
    shows: &'static str,
    sets: &'static [Setting],
    asks: &'static [Ask],
}

// A view of words 1 and 2 of a buffer.
fn view(id: u32, res: u32, writable: bool) -> BoundView {
    BoundView {
        view: id,
        shape: ViewShape {
            res,
            writable,
            form: Form::Raw,
            unit: 4,
            first: 1,
            count: 2,
        },
    }
}

fn wanted(want: &Option<(u32, u32)>, writable: bool) -> Option<BoundView> {
    match want {
        Some((id, res)) => Some(view(*id, *res, writable)),
        None => None,
    }
}

fn set_constant(bindings: &mut Bindings, slot: usize, res: u32) -> Result<(), Fail> {
    if slot >= 14 {
        return Err(Fail::from("no constant slot"));
    }
    bindings.set_constant(slot, res);
    Ok(())
}

// A call asks that the view ends before the last place, so its size is tested.
fn set_srv(bindings: &mut Bindings, slot: usize, v: BoundView) -> Result<(), Fail> {
    if slot >= 16 || v.shape.unit != 4 || v.shape.first != 1 || v.shape.count != 2 {
        return Err(Fail::from("no shader resource slot, or another view"));
    }
    bindings.set_srv(slot, Some(v));
    Ok(())
}

fn set_uav(bindings: &mut Bindings, slot: usize, v: BoundView) -> Result<(), Fail> {
    if slot >= 8 || v.shape.unit != 4 || v.shape.first != 1 || v.shape.count != 2 {
        return Err(Fail::from("no unordered access slot, or another view"));
    }
    bindings.set_uav(slot, Some(v));
    Ok(())
}

fn empty_uav(bindings: &mut Bindings, slot: usize) -> Result<(), Fail> {
    if slot >= 8 {
        return Err(Fail::from("no unordered access slot"));
    }
    bindings.set_uav(slot, None);
    Ok(())
}

fn set_predicate(bindings: &mut Bindings, predicate: Predicate) -> Result<(), Fail> {
    if matches!(predicate, Predicate::Word { offset, .. } if offset > 99) {
        return Err(Fail::from("a far word"));
    }
    bindings.set_predicate(predicate);
    Ok(())
}

fn set(bindings: &mut Bindings, what: &Setting) -> Result<(), Fail> {
    match what {
        Setting::Shader(id) => bindings.set_shader(*id),
        Setting::Constant(slot, res) => set_constant(bindings, *slot, *res)?,
        Setting::Srv(slot, id, res) => set_srv(bindings, *slot, view(*id, *res, false))?,
        Setting::Uav(slot, id, res) => set_uav(bindings, *slot, view(*id, *res, true))?,
        Setting::NoUav(slot) => empty_uav(bindings, *slot)?,
        Setting::Predicate(predicate) => set_predicate(bindings, *predicate)?,
        Setting::Default => bindings.clear(),
    }
    Ok(())
}

fn expect_constant(
    rt: &impl Abort,
    bindings: &Bindings,
    shows: &str,
    slot: usize,
    want: &Option<ResRange>,
) -> Result<(), Fail> {
    if slot >= 14 {
        return Err(Fail::from("no constant slot"));
    }
    same(rt, &bindings.constant(slot), want, shows);
    Ok(())
}

fn expect_srv(
    rt: &impl Abort,
    bindings: &Bindings,
    shows: &str,
    slot: usize,
    want: &Option<(u32, u32)>,
) -> Result<(), Fail> {
    if slot >= 16 {
        return Err(Fail::from("no shader resource slot"));
    }
    same(rt, &bindings.srv(slot), &wanted(want, false), shows);
    Ok(())
}

fn expect_uav(
    rt: &impl Abort,
    bindings: &Bindings,
    shows: &str,
    slot: usize,
    want: &Option<(u32, u32)>,
) -> Result<(), Fail> {
    if slot >= 8 {
        return Err(Fail::from("no unordered access slot"));
    }
    same(rt, &bindings.uav(slot), &wanted(want, true), shows);
    Ok(())
}

fn expect(
    rt: &impl Abort,
    alloc: Global,
    bindings: &Bindings,
    shows: &str,
    ask: &Ask,
) -> Result<(), Fail> {
    match ask {
        Ask::Shader(id) => same(rt, &bindings.shader(), id, shows),
        Ask::Constant(slot, want) => expect_constant(rt, bindings, shows, *slot, want)?,
        Ask::Srv(slot, want) => expect_srv(rt, bindings, shows, *slot, want)?,
        Ask::Uav(slot, want) => expect_uav(rt, bindings, shows, *slot, want)?,
        Ask::Predicate(want) => same(rt, &bindings.predicate(), want, shows),
        Ask::Holds(res, want) => same(rt, &bindings.holds(*res), want, shows),
        Ask::HoldsView(view, want) => same(rt, &bindings.holds_view(*view), want, shows),
        Ask::HoldsShader(id, want) => same(rt, &bindings.holds_shader(*id), want, shows),
        Ask::HoldsQuery(id, want) => same(rt, &bindings.holds_query(*id), want, shows),
        Ask::Footprint(want) => {
            let footprint = bindings.footprint(alloc)?;
            same(rt, &footprint.as_slice(), want, shows);
        }
    }
    Ok(())
}

fn play(rt: &impl Abort, alloc: Global, bindings: &mut Bindings, rows: &[Row]) -> Result<(), Fail> {
    for row in rows {
        for what in row.sets {
            set(bindings, what)?;
        }
        for ask in row.asks {
            expect(rt, alloc, bindings, row.shows, ask)?;
        }
    }
    Ok(())
}

static HAZARDS: [Row; 4] = [
    Row {
        shows: "set for writes, and no more for reads",
        sets: &[
            Setting::Srv(0, 1, 7),
            Setting::Srv(15, 1, 7),
            Setting::Srv(3, 2, 8),
            Setting::Uav(1, 3, 7),
        ],
        asks: &[
            Ask::Srv(0, None),
            Ask::Srv(15, None),
            Ask::Srv(3, Some((2, 8))),
        ],
    },
    Row {
        shows: "set for writes in another slot",
        sets: &[Setting::Uav(7, 4, 7)],
        asks: &[Ask::Uav(1, None), Ask::Uav(7, Some((4, 7)))],
    },
    Row {
        shows: "set for reads while it is set for writes",
        sets: &[Setting::Srv(3, 1, 7)],
        asks: &[Ask::Srv(3, None), Ask::Uav(7, Some((4, 7)))],
    },
    Row {
        shows: "set for reads once it isn't set for writes",
        sets: &[Setting::NoUav(7), Setting::Srv(3, 1, 7)],
        asks: &[
            Ask::Srv(3, Some((1, 7))),
            Ask::Uav(7, None),
            Ask::Holds(7, true),
            Ask::Holds(8, false),
            Ask::HoldsView(1, true),
            Ask::HoldsView(2, false),
        ],
    },
];

// A buffer that is set for writes is set nowhere else.
#[test]
fn hazards(rt: HostRuntime) -> Result<(), Fail> {
    play(&rt, rt.alloc(), &mut Bindings::new(), &HAZARDS)
}

static FILLED: [Row; 2] = [
    Row {
        shows: "nothing set",
        sets: &[],
        asks: &[Ask::Footprint(&[])],
    },
    Row {
        shows: "the slots in their order",
        sets: &[
            Setting::Predicate(Predicate::Word {
                res: 9,
                offset: 8,
                value: 0,
            }),
            Setting::Uav(0, 1, 6),
            Setting::Srv(5, 2, 5),
            Setting::Srv(4, 3, 4),
            Setting::Constant(13, 3),
            Setting::Constant(2, 2),
            Setting::Constant(1, 1),
            Setting::Constant(1, 0),
            Setting::Shader(11),
        ],
        asks: &[
            Ask::Constant(
                2,
                Some(ResRange {
                    res: 2,
                    from: 0,
                    to: 65_536,
                }),
            ),
            Ask::Constant(1, None),
            Ask::Shader(11),
            Ask::Holds(9, true),
            Ask::Holds(3, true),
        ],
    },
];

static CLEARED: [Row; 2] = [
    Row {
        shows: "the default state",
        sets: &[Setting::Default],
        asks: &[
            Ask::Shader(0),
            Ask::Holds(9, false),
            Ask::Holds(3, false),
            Ask::Predicate(Predicate::Never),
        ],
    },
    Row {
        shows: "a query as the predicate",
        sets: &[Setting::Predicate(Predicate::Query { id: 4, value: 1 })],
        asks: &[
            Ask::HoldsQuery(4, true),
            Ask::HoldsQuery(1, false),
            Ask::Holds(4, false),
            Ask::Footprint(&[]),
        ],
    },
];

static SAVED: [Row; 1] = [Row {
    shows: "saved before",
    sets: &[],
    asks: &[
        Ask::Footprint(&[
            ResRange {
                res: 2,
                from: 0,
                to: 65_536,
            },
            ResRange {
                res: 3,
                from: 0,
                to: 65_536,
            },
            ResRange {
                res: 4,
                from: 4,
                to: 12,
            },
            ResRange {
                res: 5,
                from: 4,
                to: 12,
            },
            ResRange {
                res: 6,
                from: 4,
                to: 12,
            },
            ResRange {
                res: 9,
                from: 8,
                to: 12,
            },
        ]),
        Ask::Shader(11),
        Ask::HoldsShader(11, true),
    ],
}];

// What is saved stays as it was.
#[test]
fn footprints(rt: HostRuntime) -> Result<(), Fail> {
    let mut bindings = Bindings::new();
    play(&rt, rt.alloc(), &mut bindings, &FILLED)?;
    let mut saved = bindings;
    play(&rt, rt.alloc(), &mut bindings, &CLEARED)?;
    play(&rt, rt.alloc(), &mut saved, &SAVED)
}
