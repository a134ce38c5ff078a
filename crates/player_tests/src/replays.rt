use crate::cases::{
    Case, EMPTY, UPDATE_COPY_MAP, UPDATE_COPY_MAP_OUTPUT, bad, expect, refused, replayed, unhex,
};
use call_log::{Call, LogKind, put_call, put_end, put_header};
use dx_io::{MemSink, SureSource};
use player::{Status, replay, status_number, status_text};
use std::alloc::{AllocError, Global};
use std::test::Fail;

#[test]
fn worked_logs(rt: HostRuntime) -> Result<(), Fail> {
    let alloc = rt.alloc();
    let empty = unhex(alloc, EMPTY)?;
    let mut log = unhex(alloc, UPDATE_COPY_MAP)?;
    expect(&rt, alloc, &replayed(&empty, b"end 0\n"))?;
    let whole = replayed(&log, UPDATE_COPY_MAP_OUTPUT);
    expect(&rt, alloc, &whole)?;
    expect(&rt, alloc, &Case { most: 1, ..whole })?;
    expect(
        &rt,
        alloc,
        &Case {
            word: "ref",
            ..whole
        },
    )?;
    let cut = log.get(..163).ok_or("the log has 164 bytes")?;
    expect(&rt, alloc, &refused(cut, bad(156, LogKind::Truncated)))?;
    log.push(0)?;
    expect(&rt, alloc, &refused(&log, bad(164, LogKind::Trailing)))?;
    Ok(())
}

#[test]
fn failing_surroundings(rt: HostRuntime) -> Result<(), Fail> {
    let alloc = rt.alloc();
    let log = unhex(alloc, UPDATE_COPY_MAP)?;
    let read_fault = refused(&log, Status::ReadFault);
    expect(
        &rt,
        alloc,
        &Case {
            failing_read: 1,
            ..read_fault
        },
    )?;
    let first_line = &UPDATE_COPY_MAP_OUTPUT[..41];
    for (failing_write, output) in [(1, &b""[..]), (2, first_line)] {
        let case = Case {
            status: Status::WriteFault,
            failing_write,
            ..replayed(&log, output)
        };
        expect(&rt, alloc, &case)?;
    }
    let usage = refused(&log, Status::Usage);
    expect(
        &rt,
        alloc,
        &Case {
            word: "play",
            ..usage
        },
    )?;
    Ok(())
}

fn shader_log(alloc: Global) -> Result<Vec<u8>, AllocError> {
    let mut log = Vec::new(alloc);
    put_header(&mut log)?;
    let minimal = [
        1, 0, 0, 0, 6, 0, 0, 0, 1, 4, 0, 0, 1, 0, 0, 0, 1, 0, 0, 0, 1, 0, 0, 0,
    ];
    put_call(
        &mut log,
        0,
        &Call::CreateShader {
            id: 1,
            words: &minimal,
        },
    )?;
    put_end(&mut log)?;
    Ok(log)
}

#[test]
fn not_built_and_too_long(rt: HostRuntime) -> Result<(), Fail> {
    let alloc = rt.alloc();
    let log = shader_log(alloc)?;
    expect(
        &rt,
        alloc,
        &refused(&log, Status::NotBuilt { n: 1, kind: 3 }),
    )?;
    let mut source = SureSource::new(vec![in alloc; 0u8; 67_108_865]?);
    let mut sink = MemSink::new(alloc, 100, Vec::new(alloc));
    let mut words = Vec::new(alloc);
    words.push(String::from_str(alloc, "replay")?)?;
    let status = replay(alloc, &words, &mut source, &mut sink);
    assert_eq!(rt; status, Status::TooLong);
    assert!(rt; sink.as_slice().is_empty());
    Ok(())
}

// The most calls that a log of 67,108,864 bytes can have: a header of 8 bytes, and 8 for each call and the end.
#[test]
fn longest_log(rt: HostRuntime) -> Result<(), Fail> {
    let alloc = rt.alloc();
    let mut log = Vec::new(alloc);
    put_header(&mut log)?;
    for _ in 0..8_388_606 {
        put_call(&mut log, 0, &Call::Flush)?;
    }
    put_end(&mut log)?;
    assert_eq!(rt; log.len(), 67_108_864);
    let whole = Case {
        most: 1 << 20,
        ..replayed(&log, b"end 8388606\n")
    };
    for word in ["replay", "ref"] {
        expect(&rt, alloc, &Case { word, ..whole })?;
    }
    Ok(())
}

#[test]
fn texts(rt: HostRuntime) -> Result<(), Fail> {
    let alloc = rt.alloc();
    let table = [
        (Status::Done, 0, ""),
        (Status::Usage, 1, "usage"),
        (Status::ReadFault, 2, "read fault"),
        (Status::WriteFault, 3, "write fault"),
        (Status::Unsupported { n: 3 }, 4, "call 3 is a draw"),
        (bad(156, LogKind::Truncated), 5, "Truncated at 156"),
        (Status::TooLong, 6, "longer than 67108864 bytes"),
        (Status::NoMemory, 7, "no memory"),
        (Status::BadText { line: 3 }, 8, "line 3"),
        (
            Status::NotBuilt { n: 1, kind: 3 },
            9,
            "call 1 of kind 3 is not built",
        ),
    ];
    for (status, number, text) in table {
        assert_eq!(rt; status_number(&status), number);
        let said = status_text(alloc, &status)?;
        assert_eq!(rt; said.as_str(), text);
    }
    Ok(())
}
