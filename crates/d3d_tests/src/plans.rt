// Plans of logs: of each call why it is refused, which call it waits for, which bytes it binds, and where token words stand.
use crate::same::same;
use call_log::{put_end, put_header, read_log};
use d3d_plan::{Plan, PlanEnd, Verdict, make_plan};
use dx_types::{CallNo, Refusal, ResRange, Span};
use std::alloc::Global;
use std::process::Abort;
use std::test::Fail;

// A record: its kind, its context, the words of its body, and the bytes that end it, if its kind has some.
struct Record(u16, u16, &'static [u32], Option<&'static [u8]>);

fn body_of(alloc: Global, record: &Record) -> Result<Vec<u8>, Fail> {
    let Record(_, _, words, bytes) = record;
    let mut body = Vec::new(alloc);
    for word in *words {
        body.extend_from_slice(&word.to_le_bytes())?;
    }
    if let Some(bytes) = bytes {
        let len = u32::try_from(bytes.len()).ok().ok_or("too long")?;
        body.extend_from_slice(&len.to_le_bytes())?;
        body.extend_from_slice(bytes)?;
    }
    Ok(body)
}

fn put_record(alloc: Global, buf: &mut Vec<u8>, record: &Record) -> Result<(), Fail> {
    let Record(kind, context, ..) = record;
    let body = body_of(alloc, record)?;
    let len = u32::try_from(body.len()).ok().ok_or("too long")?;
    buf.extend_from_slice(&kind.to_le_bytes())?;
    buf.extend_from_slice(&context.to_le_bytes())?;
    buf.extend_from_slice(&len.to_le_bytes())?;
    buf.extend_from_slice(&body)?;
    Ok(())
}

fn log_bytes(alloc: Global, records: &[Record]) -> Result<Vec<u8>, Fail> {
    let mut buf = Vec::new(alloc);
    put_header(&mut buf)?;
    for record in records {
        put_record(alloc, &mut buf, record)?;
    }
    put_end(&mut buf)?;
    Ok(buf)
}

// The plan of a log with these records, or why there is none.
fn plan_of(alloc: Global, records: &[Record]) -> Result<Result<Plan, PlanEnd>, Fail> {
    let buf = log_bytes(alloc, records)?;
    if buf.len() > 67_108_864 {
        return Err(Fail::from("too long"));
    }
    let log = read_log(alloc, &buf)?;
    Ok(make_plan(alloc, &log))
}

// What a plan says of a call: of one that goes the call that it waits for and the ranges that it binds, or why it is refused.
// It says nothing of a call that the log doesn't have.
enum Says {
    Goes(CallNo, Option<CallNo>, &'static [ResRange]),
    Refused(CallNo, Refusal),
    Nothing(CallNo),
}

fn said(plan: &Plan, n: CallNo) -> Option<(Verdict, Option<CallNo>, &[ResRange])> {
    if plan.has(n) {
        return Some((plan.verdict(n), plan.last_use(n), plan.bound(n)));
    }
    None
}

fn expect_said(
    rt: &impl Abort,
    plan: &Plan,
    n: CallNo,
    want: Option<(Verdict, Option<CallNo>, &[ResRange])>,
) {
    assert_eq!(rt; said(plan, n), want, "call {n}");
}

fn expect(rt: &impl Abort, plan: &Plan, says: &Says) {
    match says {
        Says::Goes(n, last_use, bound) => {
            expect_said(rt, plan, *n, Some((Verdict::Go, *last_use, *bound)));
        }
        Says::Refused(n, why) => {
            expect_said(rt, plan, *n, Some((Verdict::Refused(*why), None, &[])));
        }
        Says::Nothing(n) => expect_said(rt, plan, *n, None),
    }
}

fn play(rt: &impl Abort, alloc: Global, records: &[Record], rows: &[Says]) -> Result<(), Fail> {
    let plan = plan_of(alloc, records)?.ok().ok_or("planned")?;
    for says in rows {
        expect(rt, &plan, says);
    }
    Ok(())
}

static NO_OVERWRITE: [Record; 6] = [
    Record(1, 0, &[1, 32, 2, 2, 0, 0], Some(b"")),
    Record(1, 0, &[2, 32, 3, 0, 0, 0], Some(b"")),
    Record(34, 0, &[2, 0, 1, 0, 16], None),
    Record(48, 0, &[1, 1, 16], Some(&[1])),
    Record(48, 0, &[1, 1, 15], Some(&[0xaa, 0xbb])),
    Record(49, 0, &[2, 0, 0, 4], None),
];

static NO_OVERWRITE_SAYS: [Says; 6] = [
    Says::Goes(
        3,
        None,
        &[
            ResRange {
                res: 1,
                from: 0,
                to: 16,
            },
            ResRange {
                res: 2,
                from: 0,
                to: 16,
            },
        ],
    ),
    Says::Goes(4, None, &[]),
    Says::Refused(5, Refusal::InUse),
    Says::Goes(6, Some(3), &[]),
    Says::Nothing(7),
    Says::Nothing(0),
];

// A map that overwrites nothing in use meets a copy by one byte.
#[test]
fn no_overwrite_meets_a_copy(rt: HostRuntime) -> Result<(), Fail> {
    play(&rt, rt.alloc(), &NO_OVERWRITE, &NO_OVERWRITE_SAYS)
}

static IDS: [Record; 12] = [
    Record(1, 0, &[1, 16, 0, 0, 4, 0], Some(b"")),
    Record(1, 0, &[2, 16, 3, 0, 0, 0], Some(b"")),
    Record(38, 0, &[2, 1, 4, 0], None),
    Record(34, 0, &[2, 0, 1, 0, 0], None),
    Record(34, 0, &[2, 8, 1, 0, 4], None),
    Record(49, 0, &[2, 1, 0, 4], None),
    Record(5, 0, &[1, 2], None),
    Record(1, 0, &[2, 16, 3, 0, 0, 0], Some(b"")),
    Record(49, 0, &[2, 1, 0, 4], None),
    Record(5, 0, &[1, 1], None),
    Record(53, 0, &[1, 0], None),
    Record(51, 17, &[], None),
];

static IDS_SAYS: [Says; 8] = [
    Says::Goes(4, None, &[]),
    Says::Goes(
        5,
        None,
        &[
            ResRange {
                res: 1,
                from: 0,
                to: 4,
            },
            ResRange {
                res: 2,
                from: 8,
                to: 12,
            },
            ResRange {
                res: 1,
                from: 4,
                to: 8,
            },
        ],
    ),
    Says::Goes(6, Some(5), &[]),
    Says::Goes(7, None, &[]),
    Says::Goes(9, None, &[]),
    Says::Refused(10, Refusal::IdInUse),
    Says::Refused(11, Refusal::UnknownList),
    Says::Refused(12, Refusal::WrongContext),
];

// A buffer under a destroyed id is another one; a predicated copy counts, with its predicate's word, and an empty one doesn't.
#[test]
fn uses_and_ids(rt: HostRuntime) -> Result<(), Fail> {
    play(&rt, rt.alloc(), &IDS, &IDS_SAYS)
}

// A creation of a shader of one thread that does nothing, under the id 1.
const SHADER: Record = Record(3, 0, &[1, 1, 6, 0x401, 1, 1, 1], None);

static DISPATCHES: [Record; 13] = [
    Record(1, 0, &[1, 32, 0, 1, 0, 0], Some(b"")),
    Record(1, 0, &[2, 64, 0, 2, 1, 0], Some(b"")),
    Record(1, 0, &[3, 64, 0, 4, 5, 0], Some(b"")),
    Record(2, 0, &[1, 2, 0, 0, 0, 4, 4], None),
    Record(2, 0, &[2, 3, 1, 0, 0, 0, 2], None),
    SHADER,
    Record(16, 0, &[1], None),
    Record(17, 0, &[3, 1], None),
    Record(18, 0, &[15, 1], None),
    Record(19, 0, &[7, 2], None),
    Record(38, 0, &[2, 3, 60, 1], None),
    Record(33, 0, &[3, 52], None),
    Record(32, 0, &[1, 1, 1], None),
];

static DISPATCHES_SAY: [Says; 2] = [
    Says::Goes(
        12,
        None,
        &[
            ResRange {
                res: 3,
                from: 52,
                to: 64,
            },
            ResRange {
                res: 1,
                from: 0,
                to: 32,
            },
            ResRange {
                res: 2,
                from: 16,
                to: 32,
            },
            ResRange {
                res: 3,
                from: 0,
                to: 8,
            },
            ResRange {
                res: 3,
                from: 60,
                to: 64,
            },
        ],
    ),
    Says::Goes(
        13,
        None,
        &[
            ResRange {
                res: 1,
                from: 0,
                to: 32,
            },
            ResRange {
                res: 2,
                from: 16,
                to: 32,
            },
            ResRange {
                res: 3,
                from: 0,
                to: 8,
            },
            ResRange {
                res: 3,
                from: 60,
                to: 64,
            },
        ],
    ),
];

// A dispatch binds no more of a constant than its buffer has, then the views, and the predicate's word; an indirect one binds
// its counts before them.
#[test]
fn dispatches(rt: HostRuntime) -> Result<(), Fail> {
    play(&rt, rt.alloc(), &DISPATCHES, &DISPATCHES_SAY)
}

static SHADERS: [Record; 11] = [
    Record(51, 0, &[], None),
    SHADER,
    SHADER,
    Record(3, 0, &[2, 1], None),
    Record(16, 0, &[1], None),
    Record(5, 0, &[3, 1], None),
    Record(32, 0, &[1, 1, 1], None),
    Record(16, 0, &[0], None),
    Record(5, 0, &[3, 1], None),
    SHADER,
    Record(32, 0, &[1, 1, 1], None),
];

// Why a call is refused, and where the token words of the shader stand that it creates.
static MAKES: [(CallNo, Verdict, Option<Span>); 11] = [
    (1, Verdict::Go, None),
    (2, Verdict::Go, Some(Span { start: 28, len: 24 })),
    (3, Verdict::Refused(Refusal::IdInUse), None),
    (4, Verdict::Refused(Refusal::BadShader), None),
    (5, Verdict::Go, None),
    (6, Verdict::Refused(Refusal::IdInUse), None),
    (7, Verdict::Go, None),
    (8, Verdict::Go, None),
    (9, Verdict::Go, None),
    (
        10,
        Verdict::Go,
        Some(Span {
            start: 192,
            len: 24,
        }),
    ),
    (11, Verdict::Refused(Refusal::BadShader), None),
];

fn made(plan: &Plan, n: CallNo) -> Option<(Verdict, Option<Span>)> {
    if plan.has(n) {
        return Some((plan.verdict(n), plan.shader_words(n)));
    }
    None
}

// The token words of a creation that goes stand behind its record's head and the id; a shader that is set is in use.
#[test]
fn shaders(rt: HostRuntime) -> Result<(), Fail> {
    let plan = plan_of(rt.alloc(), &SHADERS)?.ok().ok_or("planned")?;
    for (n, verdict, words) in &MAKES {
        assert_eq!(rt; made(&plan, *n), Some((*verdict, *words)), "call {n}");
    }
    Ok(())
}

// A shader's words are none; a draw is refused by no check; the contexts from 1 to 16 record.
const BAD_SHADER: Record = Record(3, 0, &[1, 1], None);

const DRAW: Record = Record(70, 5, &[9], None);

const FLUSH: Record = Record(51, 0, &[], None);

const RECORDED: Record = Record(20, 16, &[], None);

const FINISH: Record = Record(52, 1, &[1], None);

// On a context that there isn't.
const WRONG: Record = Record(20, 17, &[], None);

struct Ending {
    shows: &'static str,
    records: &'static [Record],
    end: Option<PlanEnd>,
}

static ENDINGS: [Ending; 7] = [
    Ending {
        shows: "a draw behind all others",
        records: &[FLUSH, BAD_SHADER, DRAW],
        end: Some(PlanEnd::Unsupported { n: 3, kind: 70 }),
    },
    Ending {
        shows: "the first of two draws",
        records: &[DRAW, BAD_SHADER, DRAW],
        end: Some(PlanEnd::Unsupported { n: 1, kind: 70 }),
    },
    Ending {
        shows: "a recorded call in the middle",
        records: &[FLUSH, RECORDED, BAD_SHADER],
        end: None,
    },
    Ending {
        shows: "a recorded call behind all others",
        records: &[FLUSH, BAD_SHADER, RECORDED],
        end: None,
    },
    Ending {
        shows: "a list that is finished before a recorded call",
        records: &[BAD_SHADER, FINISH, RECORDED],
        end: None,
    },
    Ending {
        shows: "refused creations of shaders",
        records: &[BAD_SHADER, BAD_SHADER, FLUSH],
        end: None,
    },
    Ending {
        shows: "a call on a context that there isn't",
        records: &[FLUSH, WRONG, FLUSH],
        end: None,
    },
];

// The first draw is named, wherever it stands; a log without one is planned.
#[test]
fn ends(rt: HostRuntime) -> Result<(), Fail> {
    for row in &ENDINGS {
        let end = plan_of(rt.alloc(), row.records)?.err();
        same(&rt, &end, &row.end, row.shows);
    }
    Ok(())
}
