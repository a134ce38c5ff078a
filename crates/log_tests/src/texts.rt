// Texts of logs: each log has one, and what is no text is refused with its first bad line.
use crate::short::short;
use call_log::read_log;
use log_text::{TextEnd, asm, list};
use std::alloc::Global;
use std::process::Abort;
use std::test::Fail;

// Five calls, as text and as bytes.
const FIVE_CALLS: &str =
    "d3l1 1\n0 buffer 1 16 0 0 0 0 -\n0 buffer 2 16 3 0 0 0 -\n0 update 1 0 000102030405060708090a0b0c0d0e0f\n0 copy 2 1\n0 map-read 2 0 0 16\nend\n";

const FIVE_CALLS_LOG: &str =
    "44334c3101000000010000001c00000001000000100000000000000000000000000000000000000000000000010000001c00000002000000100000000300000000000000000000000000000000000000240000001c000000010000000000000010000000000102030405060708090a0b0c0d0e0f230000000800000002000000010000003100000010000000020000000000000000000000100000000000000000000000";

// Every kind, and the ends of the ranges.
const EVERY_KIND: &str =
    "d3l1 1\n0 buffer 65535 4294967295 0 10 99 100 00ff\n1 view 1 2 3 4 5 6 7\n0 shader 9 0100000002000000\n0 shader 9 -\n16 query 1 2\n17 destroy 5 4\n65535 set-shader 1\n0 set-constant 1 2\n0 set-srv 1 2\n0 set-uav 1 2\n0 clear-state\n0 dispatch 1 2 3\n0 dispatch-indirect 1 2\n0 copy-region 1 2 3 4 5\n0 copy 1 2\n0 update 1 2 -\n0 clear-uav 1 2 3 4 5\n0 set-predication 1 2 3 4\n0 begin 1\n0 end-query 1\n0 map-write 1 2 3 abcdef\n0 map-read 1 2 3 4\n0 get-data 1 2\n0 flush\n1 finish-list 1\n0 execute-list 1 2\n0 draw-64 -\n0 draw-79 0123456789\nend\n";

// Texts, by their first bad line.
const BAD_FIRST_LINE: [&str; 5] = [
    "",
    "d3l1 1",
    "d3l1 2\nend\n",
    "d3l1 1\r\nend\n",
    " d3l1 1\nend\n",
];

const BAD_SECOND_LINE: [&str; 4] = [
    "d3l1 1\n",
    "d3l1 1\nend",
    "d3l1 1\n0 flush\r\nend\n",
    "d3l1 1\n0 flush \nend\n",
];

const BAD_THIRD_LINE: [&str; 30] = [
    "d3l1 1\n0 flush\n",
    "d3l1 1\nend\nx",
    "d3l1 1\nend\n\n",
    "d3l1 1\n0 flush\n0  flush\nend\n",
    "d3l1 1\n0 flush\n\nend\n",
    "d3l1 1\n0 flush\n00 flush\nend\n",
    "d3l1 1\n0 flush\n65536 flush\nend\n",
    "d3l1 1\n0 flush\n+0 flush\nend\n",
    "d3l1 1\n0 flush\n0 Flush\nend\n",
    "d3l1 1\n0 flush\n0 fly\nend\n",
    "d3l1 1\n0 flush\n0 draw-80 -\nend\n",
    "d3l1 1\n0 flush\n0 copy 1\nend\n",
    "d3l1 1\n0 flush\n0 copy 1 2 3\nend\n",
    "d3l1 1\n0 flush\n0 copy 01 2\nend\n",
    "d3l1 1\n0 flush\n0 copy 1 4294967296\nend\n",
    "d3l1 1\n0 flush\n0 copy 1 99999999999999999999\nend\n",
    "d3l1 1\n0 flush\n0 copy 1 -\nend\n",
    "d3l1 1\n0 flush\n0 update 1 0 \nend\n",
    "d3l1 1\n0 flush\n0 update 1 0 AB\nend\n",
    "d3l1 1\n0 flush\n0 update 1 0 abc\nend\n",
    "d3l1 1\n0 flush\n0 update 1 0 --\nend\n",
    "d3l1 1\n0 flush\n0 update 1 0 ab -\nend\n",
    "d3l1 1\n0 flush\n0 update 1 0 0x\nend\n",
    "d3l1 1\n0 flush\n0 shader 1 0102\nend\n",
    "d3l1 1\n0 flush\n0 flush -\nend\n",
    "d3l1 1\n0 flush\n0\nend\n",
    "d3l1 1\n0 flush\n0 \nend\n",
    "d3l1 1\n0 flush\n flush\nend\n",
    "d3l1 1\n0 flush\n0\tflush\nend\n",
    "d3l1 1\n0 flush\n0 copy  1 2\nend\n",
];

fn listed(alloc: Global, log: &[u8]) -> Result<String, Fail> {
    Ok(list(alloc, &read_log(alloc, short(log)?)?)?)
}

// The log of a text, whose own text is that one.
fn reads_back(rt: &impl Abort, alloc: Global, text: &str) -> Result<Vec<u8>, Fail> {
    let log = asm(alloc, short(text.as_bytes())?)?;
    assert_eq!(rt; listed(alloc, &log)?.as_str(), text);
    Ok(log)
}

#[test]
fn both_ways(rt: HostRuntime) -> Result<(), Fail> {
    let log = reads_back(&rt, rt.alloc(), FIVE_CALLS)?;
    assert_eq!(rt; hex::encode(rt.alloc(), &log)?.as_str(), FIVE_CALLS_LOG);
    reads_back(&rt, rt.alloc(), EVERY_KIND)?;
    Ok(())
}

// The number of the first bad line, if there is one.
fn bad_line(alloc: Global, text: &str) -> Result<Option<u64>, Fail> {
    match asm(alloc, short(text.as_bytes())?) {
        Err(TextEnd::Bad { line }) => Ok(Some(line)),
        _ => Ok(None),
    }
}

fn are_bad(rt: &impl Abort, alloc: Global, texts: &[&str], line: u64) -> Result<(), Fail> {
    for text in texts {
        assert_eq!(rt; bad_line(alloc, text)?, Some(line), "at {text}");
    }
    Ok(())
}

#[test]
fn bad_lines(rt: HostRuntime) -> Result<(), Fail> {
    are_bad(&rt, rt.alloc(), &BAD_FIRST_LINE, 1)?;
    are_bad(&rt, rt.alloc(), &BAD_SECOND_LINE, 2)?;
    are_bad(&rt, rt.alloc(), &BAD_THIRD_LINE, 3)
}
