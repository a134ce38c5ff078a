// What is kept of the calls so far: which bytes of a buffer are bound, and the last call that binds some of it.
use crate::same::same;
use d3d_uses::{Ranges, Uses};
use dx_types::ResRange;
use std::alloc::{AllocError, Global};
use std::process::Abort;
use std::test::Fail;

// What a row shows, what is added in order, what is asked, and whether some of it is there. A range ends before its second
// place.
struct Meeting(&'static str, &'static [(u64, u64)], (u64, u64), bool);

const MAX: u64 = u64::MAX;

static MEETINGS: [Meeting; 23] = [
    // the bytes at each end, and those between
    Meeting("apart", &[(4, 8), (12, 16), (0, 0)], (7, 8), true),
    Meeting("apart", &[(4, 8), (12, 16), (0, 0)], (8, 12), false),
    Meeting("apart", &[(4, 8), (12, 16), (0, 0)], (8, 13), true),
    Meeting("apart", &[(4, 8), (12, 16), (0, 0)], (16, 20), false),
    Meeting("apart", &[(4, 8), (12, 16), (0, 0)], (0, 4), false),
    Meeting("apart", &[(4, 8), (12, 16), (0, 0)], (0, 100), true),
    Meeting("touching", &[(4, 8), (8, 12), (0, 0)], (7, 9), true),
    Meeting("touching", &[(8, 12), (4, 8), (0, 0)], (12, 13), false),
    Meeting("touching", &[(8, 12), (4, 8), (0, 0)], (4, 5), true),
    // one that joins two, one that covers two, one inside another
    Meeting("joined", &[(4, 8), (12, 16), (6, 14)], (9, 10), true),
    Meeting("joined", &[(4, 8), (12, 16), (6, 14)], (15, 16), true),
    Meeting("joined", &[(4, 8), (12, 16), (6, 14)], (16, 17), false),
    Meeting("joined", &[(4, 8), (12, 16), (0, 20)], (19, 20), true),
    Meeting("joined", &[(4, 8), (12, 16), (0, 20)], (20, 21), false),
    Meeting("joined", &[(0, 20), (4, 8), (2, 3)], (19, 20), true),
    Meeting("joined", &[(4, 8), (4, 6), (4, 10)], (9, 10), true),
    Meeting(
        "the earlier ones stay",
        &[(30, 40), (10, 20), (50, 60)],
        (15, 16),
        true,
    ),
    Meeting(
        "the earlier ones stay",
        &[(30, 40), (10, 20), (50, 60)],
        (25, 26),
        false,
    ),
    Meeting("without a byte", &[(5, 5), (9, 3), (0, 0)], (0, 100), false),
    Meeting("without a byte", &[(4, 8), (0, 0), (0, 0)], (6, 6), false),
    Meeting("without a byte", &[(4, 8), (0, 0), (0, 0)], (7, 5), false),
    Meeting(
        "the last places",
        &[(0, MAX), (0, 0), (0, 0)],
        (18_446_744_073_709_551_614, MAX),
        true,
    ),
    Meeting(
        "the last places",
        &[(5, MAX), (0, 0), (0, 0)],
        (0, 5),
        false,
    ),
];

#[test]
fn ranges_meet(rt: HostRuntime) -> Result<(), Fail> {
    for Meeting(shows, adds, (from, to), met) in &MEETINGS {
        let mut ranges = Ranges::new(rt.alloc());
        for (from, to) in *adds {
            same(&rt, &ranges.add(*from, *to), &Ok(()), shows);
        }
        let answer = ranges.meets(*from, *to);
        assert_eq!(rt; answer, *met, "{shows}: {adds:?} {from} {to}");
        ranges.clear();
        same(&rt, &ranges.meets(0, MAX), &false, shows);
    }
    Ok(())
}

// The place of a byte of a twenty: of each twenty the first ten bytes are added.
fn place(twenty: u64, byte: u64) -> u64 {
    twenty.saturating_mul(20).saturating_add(byte)
}

// Whether the ranges have some of these bytes of a twenty, for each of so many twenties: from one on they have.
fn expect_twenties(rt: &impl Abort, ranges: &Ranges, count: u64, bytes: (u64, u64), first: u64) {
    let (from, to) = bytes;
    for i in 0..count {
        let met = ranges.meets(place(i, from), place(i, to));
        assert_eq!(rt; met, first <= i, "{i}: {from} {to}");
    }
}

// Many ranges; then one that fills what is between them from the third on.
#[test]
fn many_ranges(rt: HostRuntime) -> Result<(), Fail> {
    let mut ranges = Ranges::new(rt.alloc());
    for i in 0u64..1_000 {
        ranges.add(place(i, 0), place(i, 10))?;
    }
    expect_twenties(&rt, &ranges, 1_000, (9, 10), 0);
    expect_twenties(&rt, &ranges, 1_000, (10, 20), 1_000);
    ranges.add(65, 19_985)?;
    expect_twenties(&rt, &ranges, 999, (10, 20), 3);
    Ok(())
}

// What a call does: its number, where a range is bound, comes first, and the range is a buffer with its first byte and the
// one behind the last.
enum Event {
    Made(u32),
    Removed(u32),
    Discarded(u32),
    Bound(u32, u32, u64, u64),
    BoundAll(u32, &'static [ResRange]),
}

// What is asked of the calls so far, and the answer: whether some of a range is bound, a buffer's last use, and whether a
// buffer was discarded.
enum Ask {
    IsBound(u32, u64, u64, bool),
    LastBinding(u32, Option<u32>),
    WasDiscarded(u32, bool),
}

// What happens, and what is asked then.
struct Row {
    shows: &'static str,
    event: Event,
    asks: &'static [Ask],
}

const fn bytes(res: u32, from: u64, to: u64) -> ResRange {
    ResRange { res, from, to }
}

fn happen(uses: &mut Uses, event: &Event) -> Result<(), AllocError> {
    match event {
        Event::Made(res) => uses.made(*res),
        Event::Removed(res) => uses.removed(*res),
        Event::Discarded(res) => uses.discarded(*res)?,
        Event::Bound(call, res, from, to) => uses.bound(*call, &bytes(*res, *from, *to))?,
        Event::BoundAll(call, ranges) => uses.bound_all(*call, ranges)?,
    }
    Ok(())
}

fn expect(rt: &impl Abort, uses: &Uses, shows: &str, ask: &Ask) {
    match ask {
        Ask::IsBound(res, from, to, want) => {
            same(rt, &uses.is_bound(&bytes(*res, *from, *to)), want, shows);
        }
        Ask::LastBinding(res, want) => same(rt, &uses.last_binding(*res), want, shows),
        Ask::WasDiscarded(res, want) => same(rt, &uses.was_discarded(*res), want, shows),
    }
}

fn play(rt: &impl Abort, alloc: Global, rows: &[Row]) {
    let mut uses = Uses::new(alloc);
    for row in rows {
        same(rt, &happen(&mut uses, &row.event), &Ok(()), row.shows);
        for ask in row.asks {
            expect(rt, &uses, row.shows, ask);
        }
    }
}

static TURNS: [Row; 15] = [
    Row {
        shows: "made",
        event: Event::Made(1),
        asks: &[Ask::IsBound(1, 0, 64, false), Ask::LastBinding(1, None)],
    },
    Row {
        shows: "the last byte that is bound",
        event: Event::Bound(3, 1, 0, 16),
        asks: &[Ask::IsBound(1, 15, 30, true), Ask::LastBinding(1, Some(3))],
    },
    Row {
        shows: "behind it, and another buffer is made",
        event: Event::Made(2),
        asks: &[Ask::IsBound(1, 16, 32, false), Ask::LastBinding(1, Some(3))],
    },
    Row {
        shows: "another buffer's bytes",
        event: Event::Bound(4, 2, 16, 20),
        asks: &[Ask::IsBound(1, 16, 32, false), Ask::LastBinding(1, Some(3))],
    },
    Row {
        shows: "another buffer's bytes, the other way round",
        event: Event::Bound(5, 1, 40, 44),
        asks: &[Ask::IsBound(2, 40, 44, false), Ask::LastBinding(2, Some(4))],
    },
    Row {
        shows: "its own bytes, whatever binds another's",
        event: Event::Bound(6, 2, 20, 24),
        asks: &[Ask::IsBound(1, 40, 41, true), Ask::LastBinding(1, Some(5))],
    },
    Row {
        shows: "a discard keeps the last use",
        event: Event::Discarded(1),
        asks: &[Ask::IsBound(1, 0, 64, false), Ask::LastBinding(1, Some(5))],
    },
    Row {
        shows: "a discard keeps the other buffer's bytes",
        event: Event::Discarded(1),
        asks: &[Ask::IsBound(2, 16, 17, true), Ask::LastBinding(2, Some(6))],
    },
    Row {
        shows: "what is bound before the bytes asked",
        event: Event::Bound(9, 1, 4, 8),
        asks: &[Ask::IsBound(1, 0, 4, false), Ask::LastBinding(1, Some(9))],
    },
    Row {
        shows: "a call binds two ranges",
        event: Event::Bound(9, 1, 0, 1),
        asks: &[Ask::IsBound(1, 7, 8, true), Ask::LastBinding(1, Some(9))],
    },
    Row {
        shows: "a removal keeps the other buffer's bytes",
        event: Event::Removed(1),
        asks: &[Ask::IsBound(2, 23, 24, true), Ask::LastBinding(2, Some(6))],
    },
    Row {
        shows: "another buffer under the same id",
        event: Event::Made(1),
        asks: &[Ask::IsBound(1, 0, 64, false), Ask::LastBinding(1, None)],
    },
    Row {
        shows: "a range without a byte is a use",
        event: Event::Bound(12, 1, 8, 8),
        asks: &[Ask::IsBound(1, 0, 64, false), Ask::LastBinding(1, Some(12))],
    },
    Row {
        shows: "another buffer in place of a live one",
        event: Event::Made(2),
        asks: &[Ask::IsBound(2, 0, 64, false), Ask::LastBinding(2, None)],
    },
    Row {
        shows: "a discard before any use",
        event: Event::Discarded(65_535),
        asks: &[
            Ask::IsBound(65_535, 0, 64, false),
            Ask::LastBinding(65_535, None),
        ],
    },
];

#[test]
fn buffers_by_turns(rt: HostRuntime) -> Result<(), Fail> {
    play(&rt, rt.alloc(), &TURNS);
    Ok(())
}

static LIST: [Row; 4] = [
    Row {
        shows: "before the discard",
        event: Event::BoundAll(
            1,
            &[
                ResRange {
                    res: 1,
                    from: 0,
                    to: 8,
                },
                ResRange {
                    res: 2,
                    from: 0,
                    to: 4,
                },
                ResRange {
                    res: 1,
                    from: 8,
                    to: 12,
                },
            ],
        ),
        asks: &[Ask::IsBound(1, 7, 9, true), Ask::WasDiscarded(1, false)],
    },
    Row {
        shows: "the discard",
        event: Event::Discarded(1),
        asks: &[],
    },
    Row {
        shows: "after the discard",
        event: Event::BoundAll(
            2,
            &[ResRange {
                res: 1,
                from: 0,
                to: 4,
            }],
        ),
        asks: &[],
    },
    Row {
        shows: "a call that binds nothing",
        event: Event::BoundAll(3, &[]),
        asks: &[
            Ask::IsBound(1, 4, 8, false),
            Ask::IsBound(1, 3, 4, true),
            Ask::IsBound(2, 0, 1, true),
            Ask::WasDiscarded(1, true),
            Ask::WasDiscarded(2, false),
            Ask::LastBinding(1, Some(2)),
            Ask::LastBinding(2, Some(1)),
        ],
    },
];

// Of a list: what its calls bind after its own discard, and which buffers it discards.
#[test]
fn calls_of_a_list(rt: HostRuntime) -> Result<(), Fail> {
    play(&rt, rt.alloc(), &LIST);
    Ok(())
}
