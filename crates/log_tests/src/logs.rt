// A log of five calls: its bytes, its first fault where they are changed, and parts of it.
use crate::calls::put;
use crate::short::short;
use call_log::{Call, Log, LogEnd, LogFault, LogKind, put_end, put_header, read_log};
use dx_types::Span;
use std::alloc::{AllocError, Global};
use std::process::Abort;
use std::test::Fail;

// Two buffers, an update, a copy and a readback.
const LOG: &[u8; 164] =
    b"D3L1\x01\0\0\0\x01\0\0\0\x1c\0\0\0\x01\0\0\0\x10\0\0\0\0\0\0\0\0\0\0\0\0\0\0\0\0\0\0\0\0\0\0\0\x01\0\0\0\x1c\0\0\0\x02\0\0\0\x10\0\0\0\x03\0\0\0\0\0\0\0\0\0\0\0\0\0\0\0\0\0\0\0$\0\0\0\x1c\0\0\0\x01\0\0\0\0\0\0\0\x10\0\0\0\0\x01\x02\x03\x04\x05\x06\x07\x08\x09\x0a\x0b\x0c\x0d\x0e\x0f#\0\0\0\x08\0\0\0\x02\0\0\0\x01\0\0\01\0\0\0\x10\0\0\0\x02\0\0\0\0\0\0\0\0\0\0\0\x10\0\0\0\0\0\0\0\0\0\0\0";

static CALLS: [Call<'static>; 5] = [
    Call::Buffer {
        id: 1,
        size: 16,
        usage: 0,
        bind: 0,
        misc: 0,
        stride: 0,
        bytes: &[],
    },
    Call::Buffer {
        id: 2,
        size: 16,
        usage: 3,
        bind: 0,
        misc: 0,
        stride: 0,
        bytes: &[],
    },
    Call::Update {
        res: 1,
        offset: 0,
        bytes: &[0, 1, 2, 3, 4, 5, 6, 7, 8, 9, 10, 11, 12, 13, 14, 15],
    },
    Call::Copy {
        target: 2,
        source: 1,
    },
    Call::MapRead {
        res: 2,
        flag: 0,
        offset: 0,
        length: 16,
    },
];

#[test]
fn five_calls(rt: HostRuntime) -> Result<(), Fail> {
    let mut buf = Vec::new(rt.alloc());
    put_header(&mut buf)?;
    for call in &CALLS {
        put(&mut buf, 0, call)?;
    }
    put_end(&mut buf)?;
    assert_eq!(rt; buf.as_slice(), LOG.as_slice());
    Ok(())
}

// The five calls and a zero byte are cut to a length, then some bytes are set from a place on, and this is the first
// fault.
struct Change {
    shows: &'static str,
    len: usize,
    place: usize,
    bytes: &'static [u8],
    fault: LogFault,
}

static CHANGES: [Change; 10] = [
    Change {
        shows: "the end record is cut",
        len: 163,
        place: 0,
        bytes: b"D",
        fault: LogFault {
            at: 156,
            kind: LogKind::Truncated,
        },
    },
    Change {
        shows: "a byte behind the end record",
        len: 165,
        place: 0,
        bytes: b"D",
        fault: LogFault {
            at: 164,
            kind: LogKind::Trailing,
        },
    },
    Change {
        shows: "a body longer than the log",
        len: 164,
        place: 12,
        bytes: b"\xff\xff\xff\xff",
        fault: LogFault {
            at: 8,
            kind: LogKind::Truncated,
        },
    },
    Change {
        shows: "a body shorter than its kind's",
        len: 164,
        place: 12,
        bytes: b"\x1b",
        fault: LogFault {
            at: 8,
            kind: LogKind::BodyLength,
        },
    },
    Change {
        shows: "no record is of kind 9",
        len: 164,
        place: 8,
        bytes: b"\x09",
        fault: LogFault {
            at: 8,
            kind: LogKind::UnknownKind,
        },
    },
    Change {
        shows: "an empty input",
        len: 0,
        place: 0,
        bytes: b"",
        fault: LogFault {
            at: 0,
            kind: LogKind::Magic,
        },
    },
    Change {
        shows: "cut behind the magic",
        len: 4,
        place: 0,
        bytes: b"D",
        fault: LogFault {
            at: 4,
            kind: LogKind::Truncated,
        },
    },
    Change {
        shows: "version 2",
        len: 164,
        place: 4,
        bytes: b"\x02",
        fault: LogFault {
            at: 4,
            kind: LogKind::Version,
        },
    },
    Change {
        shows: "no end record",
        len: 8,
        place: 0,
        bytes: b"D",
        fault: LogFault {
            at: 8,
            kind: LogKind::NoEnd,
        },
    },
    Change {
        shows: "an end record with a body",
        len: 164,
        place: 158,
        bytes: b"\x01",
        fault: LogFault {
            at: 156,
            kind: LogKind::BodyLength,
        },
    },
];

fn changed(alloc: Global, change: &Change) -> Result<Vec<u8>, AllocError> {
    let mut bytes = LOG.to_vec(alloc)?;
    bytes.push(0)?;
    bytes.truncate(change.len);
    for (old, new) in bytes.iter_mut().skip(change.place).zip(change.bytes) {
        *old = *new;
    }
    Ok(bytes)
}

fn fault_of(alloc: Global, bytes: &[u8]) -> Result<Option<LogFault>, Fail> {
    match read_log(alloc, short(bytes)?) {
        Err(LogEnd::Bad(fault)) => Ok(Some(fault)),
        _ => Ok(None),
    }
}

#[test]
fn faults(rt: HostRuntime) -> Result<(), Fail> {
    for change in &CHANGES {
        let bytes = changed(rt.alloc(), change)?;
        let fault = fault_of(rt.alloc(), &bytes)?;
        assert_eq!(rt; fault, Some(change.fault), "{}", change.shows);
    }
    Ok(())
}

// A span of the five calls' log, and its bytes: none where it passes the log's end.
struct Part {
    start: u64,
    len: u64,
    bytes: Option<&'static [u8]>,
}

static PARTS: [Part; 8] = [
    Part {
        start: 0,
        len: 4,
        bytes: Some(b"D3L1"),
    },
    Part {
        start: 102,
        len: 3,
        bytes: Some(b"\x02\x03\x04"),
    },
    Part {
        start: 163,
        len: 1,
        bytes: Some(b"\0"),
    },
    Part {
        start: 164,
        len: 0,
        bytes: Some(b""),
    },
    Part {
        start: 163,
        len: 2,
        bytes: None,
    },
    Part {
        start: 164,
        len: 1,
        bytes: None,
    },
    Part {
        start: 165,
        len: 0,
        bytes: None,
    },
    Part {
        start: 1,
        len: u64::MAX,
        bytes: None,
    },
];

fn has(rt: &impl Abort, log: &Log<'_>, part: &Part) {
    let span = Span {
        start: part.start,
        len: part.len,
    };
    assert_eq!(rt; log.part(span), part.bytes, "from {}", part.start);
}

#[test]
fn parts(rt: HostRuntime) -> Result<(), Fail> {
    let log = read_log(rt.alloc(), short(LOG)?).ok().ok_or("a fault")?;
    for part in &PARTS {
        has(&rt, &log, part);
    }
    Ok(())
}
