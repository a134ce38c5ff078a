// The command `gen`: the lines on generated logs, and the words that are no such command.
use crate::cases::unhex;
use dx_io::{MemSink, MemSource};
use dx_types::limits::MAX_ROUNDS;
use player::{Status, gen_log, replay};
use std::alloc::Global;
use std::process::Abort;
use std::test::Fail;

// Rounds, their number as a word, the line that `gen` writes, the line that ends the run of the log, and the sum of the
// words of its last readback.
const LINES: [(u32, &str, &str, &str, u64); 4] = [
    (1, "1", "gen 1 calls 15 polls 0 sum 64\n", "end 15\n", 64),
    (
        10,
        "10",
        "gen 10 calls 31 polls 1 sum 640\n",
        "end 31\n",
        640,
    ),
    (
        40,
        "40",
        "gen 40 calls 84 polls 4 sum 2560\n",
        "end 84\n",
        2560,
    ),
    (
        1000,
        "1000",
        "gen 1000 calls 1796 polls 100 sum 64000\n",
        "end 1796\n",
        64000,
    ),
];

// What stands behind `gen` in words that are no command.
const NUMBERS: [&str; 13] = [
    "",
    "0",
    "01",
    "100001",
    "4294967297",
    "18446744073709551617",
    "+1",
    "-1",
    "1 ",
    " 1",
    "1k",
    "0x1",
    "--steps",
];

// The text of the log of one round.
const ONE_ROUND: &str = "\
     d3l1 1\n\
     0 buffer 1 1024 0 4 1 0 -\n\
     0 buffer 2 256 2 2 1 0 -\n\
     0 buffer 3 1024 3 0 0 0 -\n\
     0 buffer 4 16 0 1 0 0 -\n\
     0 view 1 1 1 0 0 0 256\n\
     0 view 2 2 0 0 0 0 64\n\
     0 shader 1 01000000410000000104000040000000010000000100000002020000010000000302000000000000040400000000000000000000000000000504000000000000000000000000000020080000100000000300000001000000020000000000000000000000000000003004000010000000000000000000000012050000100000000000000002000000000000001c080000100000000000000001000000ff0000000000000000000000000000002008000010000000000000000100000002000000000000000000000000000000380e000007000000000100000000000001000000000000000000000000000000000000000100000001000000000000000000000000000000\n\
     0 set-shader 1\n\
     0 set-constant 0 4\n\
     0 set-srv 0 2\n\
     0 set-uav 0 1\n\
     0 map-write 2 0 0 b179379ee817389e1fb6389e5654399e8df2399ec4903a9efb2e3b9e32cd3b9e696b3c9ea0093d9ed7a73d9e0e463e9e45e43e9e7c823f9eb320409eeabe409e215d419e58fb419e8f99429ec637439efdd5439e3474449e6b12459ea2b0459ed94e469e10ed469e478b479e7e29489eb5c7489eec65499e23044a9e5aa24a9e91404b9ec8de4b9eff7c4c9e361b4d9e6db94d9ea4574e9edbf54e9e12944f9e4932509e80d0509eb76e519eee0c529e25ab529e5c49539e93e7539eca85549e0124559e38c2559e6f60569ea6fe569edd9c579e143b589e4bd9589e8277599eb9155a9ef0b35a9e27525b9e5ef05b9e958e5c9ecc2c5d9e03cb5d9e3a695e9e\n\
     0 dispatch 1 1 1\n\
     0 copy 3 1\n\
     0 map-read 3 0 0 1024\n\
     end\n\
     ";

const PIECE: usize = 65_536;

// How the top call comes out, and what it writes.
#[derive(Drop)]
struct Ran {
    status: Status,
    output: MemSink,
}

fn run(alloc: Global, words: &[&str], input: &[u8], failing: u64) -> Result<Ran, Fail> {
    let mut owned = Vec::new(alloc);
    for word in words {
        owned.push(String::from_str(alloc, word)?)?;
    }
    let mut source = MemSource::new(input.to_vec(alloc)?, PIECE, [failing].to_vec(alloc)?);
    let mut output = MemSink::new(alloc, PIECE, [failing].to_vec(alloc)?);
    let status = replay(alloc, &owned, &mut source, &mut output);
    Ok(Ran { status, output })
}

fn log_of(rt: &impl Abort, alloc: Global, rounds: u32) -> Result<Vec<u8>, Fail> {
    assert!(rt; rounds >= 1);
    assert!(rt; rounds <= MAX_ROUNDS);
    Ok(gen_log(alloc, rounds)?)
}

// The digits of 1,024 bytes, which stand at the end of the line before the last.
fn last_digits<'a>(output: &'a [u8], end: &str) -> Option<&'a [u8]> {
    let behind = output.len().checked_sub(end.len())?.checked_sub(1)?;
    output.get(behind.checked_sub(2_048)?..behind)
}

fn sum_of(bytes: &[u8]) -> u64 {
    let mut sum: u64 = 0;
    for i in 0..bytes.len() / 4 {
        let at = 4 * i;
        let word = u32::from_le_bytes([bytes[at], bytes[at + 1], bytes[at + 2], bytes[at + 3]]);
        sum = sum.saturating_add(u64::from(word));
    }
    sum
}

// The lines, of an input that is no log; and the sums in them, by the lines of `ref`.
#[test]
fn summaries(rt: HostRuntime) -> Result<(), Fail> {
    let alloc = rt.alloc();
    for (rounds, number, line, end, sum) in LINES {
        let ran = run(alloc, &["gen", number], b"no log", 0)?;
        assert_eq!(rt; ran.status, Status::Done);
        assert_eq!(rt; ran.output.as_slice(), line.as_bytes());
        let played = run(alloc, &["ref"], &log_of(&rt, alloc, rounds)?, 0)?;
        assert_eq!(rt; played.status, Status::Done);
        let digits = last_digits(played.output.as_slice(), end).ok_or("a line of a readback")?;
        assert_eq!(rt; sum_of(&unhex(alloc, str::from_utf8(digits)?)?), sum);
    }
    Ok(())
}

#[test]
fn one_round(rt: HostRuntime) -> Result<(), Fail> {
    let alloc = rt.alloc();
    let ran = run(alloc, &["list"], &log_of(&rt, alloc, 1)?, 0)?;
    assert_eq!(rt; ran.status, Status::Done);
    assert_eq!(rt; ran.output.as_slice(), ONE_ROUND.as_bytes());
    Ok(())
}

#[test]
fn other_words(rt: HostRuntime) -> Result<(), Fail> {
    let alloc = rt.alloc();
    for number in NUMBERS {
        let ran = run(alloc, &["gen", number], b"", 0)?;
        assert_eq!(rt; ran.status, Status::Usage, "{number}");
        assert!(rt; ran.output.as_slice().is_empty());
    }
    for words in [
        &["gen"][..],
        &["gen", "1", "1"][..],
        &["Gen", "1"][..],
        &["ref", "1"][..],
    ] {
        assert_eq!(rt; run(alloc, words, b"", 0)?.status, Status::Usage);
    }
    let failing = run(alloc, &["gen", "1"], b"", 1)?;
    assert_eq!(rt; failing.status, Status::WriteFault);
    assert!(rt; failing.output.as_slice().is_empty());
    Ok(())
}
