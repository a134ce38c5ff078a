// Sources and sinks: those in memory fail where they are told to, and those of std are read and written through.
use dx_io::{
    Failed, MemSink, MemSource, ReadEnd, Sink, Source, StdSink, StdSource, SureSink, SureSource,
    read_all, write_all,
};
use std::alloc::{AllocError, Global};
use std::process::Abort;
use std::test::Fail;

const BYTES: [u8; 3] = [1, 2, 3];

// A source of the three bytes. A read moves at most so many, and at least one.
fn source(alloc: Global, most: usize, fails: &[u64]) -> Result<MemSource, AllocError> {
    let most = most.max(1);
    Ok(MemSource::new(BYTES.to_vec(alloc)?, most, fails.to_vec(alloc)?))
}

// The three bytes are read whole, or the end that is wanted comes.
fn expect_read<S: Source>(
    rt: &impl Abort,
    alloc: Global,
    from: &mut S,
    limit: u64,
    wanted: Result<&[u8], ReadEnd>,
    shows: &str,
) {
    let read = read_all(alloc, from, limit);
    let found = match &read {
        Ok(bytes) => Ok(bytes.as_slice()),
        Err(end) => Err(*end),
    };
    assert_eq!(rt; found, wanted, "{shows}");
}

// How much a read moves at most, which reads fail, how much may be read, and what reading answers.
struct Read {
    shows: &'static str,
    most: usize,
    fails: &'static [u64],
    limit: u64,
    wanted: Result<&'static [u8], ReadEnd>,
}

static READS: [Read; 7] = [
    Read {
        shows: "a byte at a time",
        most: 1,
        fails: &[],
        limit: 3,
        wanted: Ok(&BYTES),
    },
    Read {
        shows: "all at once",
        most: 100,
        fails: &[],
        limit: 3,
        wanted: Ok(&BYTES),
    },
    Read {
        shows: "longer than the limit, all at once",
        most: 100,
        fails: &[],
        limit: 2,
        wanted: Err(ReadEnd::TooLong),
    },
    Read {
        shows: "longer than the limit, a byte at a time",
        most: 1,
        fails: &[],
        limit: 2,
        wanted: Err(ReadEnd::TooLong),
    },
    Read {
        shows: "the first read fails",
        most: 100,
        fails: &[1],
        limit: 3,
        wanted: Err(ReadEnd::Fault),
    },
    Read {
        shows: "the read fails that would have seen the end",
        most: 1,
        fails: &[4],
        limit: 3,
        wanted: Err(ReadEnd::Fault),
    },
    Read {
        shows: "no read has the number 0 or 5",
        most: 1,
        fails: &[0, 5],
        limit: 3,
        wanted: Ok(&BYTES),
    },
];

#[test]
fn reads_whole(rt: HostRuntime) -> Result<(), Fail> {
    let alloc = rt.alloc();
    for row in &READS {
        let mut from = source(alloc, row.most, row.fails)?;
        expect_read(&rt, alloc, &mut from, row.limit, row.wanted, row.shows);
    }
    let mut sure = SureSource::new(BYTES.to_vec(alloc)?);
    expect_read(
        &rt,
        alloc,
        &mut sure,
        3,
        Ok(&BYTES),
        "a source that never fails",
    );
    let mut standard = StdSource::new(BYTES.as_slice());
    expect_read(&rt, alloc, &mut standard, 3, Ok(&BYTES), "a reader of std");
    Ok(())
}

// How much a write takes at most, which writes fail, whether the three bytes are written whole, and what is held in
// the end.
struct Written {
    shows: &'static str,
    most: usize,
    fails: &'static [u64],
    done: bool,
    held: &'static [u8],
}

static WRITES: [Written; 5] = [
    Written {
        shows: "a byte at a time",
        most: 1,
        fails: &[],
        done: true,
        held: &BYTES,
    },
    Written {
        shows: "all at once, and no second write",
        most: 100,
        fails: &[2],
        done: true,
        held: &BYTES,
    },
    Written {
        shows: "the first write fails",
        most: 100,
        fails: &[1],
        done: false,
        held: &[],
    },
    Written {
        shows: "the third write fails",
        most: 1,
        fails: &[3],
        done: false,
        held: &[1, 2],
    },
    Written {
        shows: "a sink that takes nothing",
        most: 0,
        fails: &[],
        done: false,
        held: &[],
    },
];

fn expect_written(rt: &impl Abort, alloc: Global, row: &Written) -> Result<(), AllocError> {
    let mut sink = MemSink::new(alloc, row.most, row.fails.to_vec(alloc)?);
    let done = write_all(&mut sink, &BYTES).is_ok();
    assert_eq!(rt;
        (done, sink.as_slice(), sink.starved()),
        (row.done, row.held, 0),
        "{}",
        row.shows
    );
    Ok(())
}

#[test]
fn writes_whole(rt: HostRuntime) -> Result<(), Fail> {
    for row in &WRITES {
        expect_written(&rt, rt.alloc(), row)?;
    }
    let sure = write_all(&mut SureSink::new(), &BYTES);
    assert!(rt; sure.is_ok());
    Ok(())
}

// The first read fails, and those behind it move two bytes, one and none.
fn reads_go_on(rt: &impl Abort, alloc: Global) -> Result<(), AllocError> {
    let mut source = source(alloc, 2, &[1])?;
    for (wanted, bytes) in [
        (Err(Failed), [0, 0, 0]),
        (Ok(2), [1, 2, 0]),
        (Ok(1), [3, 0, 0]),
        (Ok(0), [0, 0, 0]),
    ] {
        let mut piece = [0; 3];
        let read = source.read(&mut piece);
        assert_eq!(rt; (read, piece), (wanted, bytes));
    }
    Ok(())
}

// The first write fails, and those behind it take two bytes, and none of none.
fn writes_go_on(rt: &impl Abort, alloc: Global) -> Result<(), AllocError> {
    let mut sink = MemSink::new(alloc, 2, [1].to_vec(alloc)?);
    for (bytes, wanted) in [
        (BYTES.as_slice(), Err(Failed)),
        (BYTES.as_slice(), Ok(2)),
        (&[], Ok(0)),
    ] {
        assert_eq!(rt; sink.write(bytes), wanted);
    }
    Ok(())
}

#[test]
fn fails_and_goes_on(rt: HostRuntime) -> Result<(), Fail> {
    reads_go_on(&rt, rt.alloc())?;
    writes_go_on(&rt, rt.alloc())?;
    Ok(())
}

#[test]
fn writes_to_std(rt: HostRuntime) -> Result<(), Fail> {
    let mut held = Vec::new(rt.alloc());
    let done = write_all(&mut StdSink::new(&mut held), &BYTES);
    assert!(rt; done.is_ok());
    assert_eq!(rt; held.as_slice(), BYTES.as_slice());
    // A writer that takes no third byte.
    let mut room = [0; 2];
    let full = write_all(&mut StdSink::new(room.as_mut_slice()), &BYTES);
    assert!(rt; full.is_err());
    Ok(())
}
