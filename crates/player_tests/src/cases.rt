// One run of the top call, and what it must come to.
use call_log::{LogFault, LogKind};
use dx_io::{MemSink, MemSource};
use player::{Status, replay};
use std::alloc::Global;
use std::process::Abort;
use std::test::Fail;

// Two buffers, an update, a copy and a readback: 164 bytes.
pub(crate) const UPDATE_COPY_MAP: &str =
    "44334c3101000000010000001c00000001000000100000000000000000000000000000000000000000000000010000001c00000002000000100000000300000000000000000000000000000000000000240000001c000000010000000000000010000000000102030405060708090a0b0c0d0e0f230000000800000002000000010000003100000010000000020000000000000000000000100000000000000000000000";

pub(crate) const UPDATE_COPY_MAP_OUTPUT: &[u8] =
    b"5 bytes 000102030405060708090a0b0c0d0e0f\nend 5\n";

pub(crate) const EMPTY: &str = "44334c31010000000000000000000000";

// What a run is made on: the input, how many bytes a read or a write moves, and which of them fail.
#[derive(Clone, Copy, Debug)]
pub(crate) struct Case<'a> {
    pub(crate) word: &'a str,
    pub(crate) input: &'a [u8],
    pub(crate) most: usize,
    pub(crate) failing_read: u64,
    pub(crate) failing_write: u64,
    pub(crate) status: Status,
    pub(crate) output: &'a [u8],
}

pub(crate) fn expect(rt: &impl Abort, alloc: Global, case: &Case<'_>) -> Result<(), Fail> {
    let mut words = Vec::new(alloc);
    words.push(String::from_str(alloc, case.word)?)?;
    let input = case.input.to_vec(alloc)?;
    assert!(rt; case.most > 0);
    let mut source = MemSource::new(input, case.most, [case.failing_read].to_vec(alloc)?);
    let mut sink = MemSink::new(alloc, case.most, [case.failing_write].to_vec(alloc)?);
    let status = replay(alloc, &words, &mut source, &mut sink);
    assert_eq!(rt; status, case.status);
    assert_eq!(rt; sink.as_slice(), case.output);
    Ok(())
}

// A log that is played to its end.
pub(crate) fn replayed<'a>(input: &'a [u8], output: &'a [u8]) -> Case<'a> {
    Case {
        word: "replay",
        input,
        most: 100,
        failing_read: 0,
        failing_write: 0,
        status: Status::Done,
        output,
    }
}

// An input of which nothing is written.
pub(crate) fn refused(input: &[u8], status: Status) -> Case<'_> {
    Case {
        status,
        ..replayed(input, b"")
    }
}

pub(crate) fn bad(at: u64, kind: LogKind) -> Status {
    Status::BadLog {
        fault: LogFault { at, kind },
    }
}

pub(crate) fn unhex(alloc: Global, text: &str) -> Result<Vec<u8>, Fail> {
    Ok(hex::decode(alloc, text).ok().ok_or("hexadecimal")?)
}
