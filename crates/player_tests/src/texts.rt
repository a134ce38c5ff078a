use crate::cases::{Case, UPDATE_COPY_MAP, bad, expect, refused, replayed, unhex};
use call_log::LogKind;
use player::Status;
use std::test::Fail;

const TEXT: &[u8] =
    b"d3l1 1\n0 buffer 1 16 0 0 0 0 -\n0 buffer 2 16 3 0 0 0 -\n0 update 1 0 000102030405060708090a0b0c0d0e0f\n0 copy 2 1\n0 map-read 2 0 0 16\nend\n";

const SECOND_BLANK: &[u8] = b"d3l1 1\n0 buffer 1 16 0 0 0 0 -\n0  buffer 2 16 3 0 0 0 -\nend\n";

#[test]
fn asm_and_list(rt: HostRuntime) -> Result<(), Fail> {
    let alloc = rt.alloc();
    let log = unhex(alloc, UPDATE_COPY_MAP)?;
    let asm = replayed(TEXT, &log);
    expect(&rt, alloc, &Case { word: "asm", ..asm })?;
    let list = replayed(&log, TEXT);
    expect(
        &rt,
        alloc,
        &Case {
            word: "list",
            ..list
        },
    )?;
    let front = log.get(..163).ok_or("the log has 164 bytes")?;
    let cut = refused(front, bad(156, LogKind::Truncated));
    expect(
        &rt,
        alloc,
        &Case {
            word: "list",
            ..cut
        },
    )?;
    let blank = refused(SECOND_BLANK, Status::BadText { line: 3 });
    expect(
        &rt,
        alloc,
        &Case {
            word: "asm",
            ..blank
        },
    )?;
    Ok(())
}
