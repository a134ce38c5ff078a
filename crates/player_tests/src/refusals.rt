//! Logs of refused calls: each check of each kind of call, at its edge and against the check behind it.

mod buffers;
mod commands;
mod contexts;
mod destroying;
mod maps;
mod queries;
mod setting;
mod shaders;
mod views;

use dx_io::{MemSink, MemSource};
use player::{Status, replay};
use std::alloc::{AllocError, Global};
use std::fmt::Write;
use std::process::Abort;
use std::test::Fail;

/// A log's lines without the first and the last, what they show, and what a run says of them.
pub(crate) struct Row {
    pub(crate) shows: &'static str,
    pub(crate) log: &'static str,
    pub(crate) says: &'static str,
}

const PIECE: usize = 65_536;

// How the top call comes out, and what it writes.
#[derive(Drop)]
struct Ran {
    status: Status,
    output: MemSink,
}

fn run(alloc: Global, word: &str, input: &[u8]) -> Result<Ran, AllocError> {
    let mut words = Vec::new(alloc);
    words.push(String::from_str(alloc, word)?)?;
    let mut source = MemSource::new(input.to_vec(alloc)?, PIECE, Vec::new(alloc));
    let mut output = MemSink::new(alloc, PIECE, Vec::new(alloc));
    let status = replay(alloc, &words, &mut source, &mut output);
    Ok(Ran { status, output })
}

fn log_of(alloc: Global, lines: &str) -> Result<Ran, AllocError> {
    let text = format!(in alloc; "d3l1 1\n{lines}end\n")?;
    run(alloc, "asm", text.as_str().as_bytes())
}

// A log of these lines is played in order with these lines of output.
pub(crate) fn says(
    rt: &impl Abort,
    alloc: Global,
    shows: &str,
    lines: &str,
    output: &str,
) -> Result<(), Fail> {
    let log = log_of(alloc, lines)?;
    assert_eq!(rt; log.status, Status::Done, "{shows}");
    let ran = run(alloc, "ref", log.output.as_slice())?;
    assert_eq!(rt; ran.status, Status::Done, "{shows}");
    assert_eq!(rt; ran.output.as_slice(), output.as_bytes(), "{shows}");
    Ok(())
}

// A row under `ref`, and whether `replay` plays it too, with the same output.
fn plays(rt: &impl Abort, alloc: Global, row: &Row) -> Result<bool, Fail> {
    let log = log_of(alloc, row.log)?;
    assert_eq!(rt; log.status, Status::Done, "{}", row.shows);
    let mut replayed = true;
    for word in ["ref", "replay"] {
        let ran = run(alloc, word, log.output.as_slice())?;
        if word == "replay" && matches!(ran.status, Status::NotBuilt { .. }) {
            replayed = false;
        } else {
            assert_eq!(rt; ran.status, Status::Done, "{}", row.shows);
            assert_eq!(rt; ran.output.as_slice(), row.says.as_bytes(), "{}", row.shows);
        }
    }
    Ok(replayed)
}

// All rows of the tables under `ref`, and at least so many of them under `replay`: the others create a query, a dynamic
// buffer or a predicate in a buffer, or read without waiting.
pub(crate) fn play(
    rt: &impl Abort,
    alloc: Global,
    tables: &[&[Row]],
    least: usize,
) -> Result<(), Fail> {
    let mut replayed: usize = 0;
    for rows in tables {
        for row in *rows {
            if plays(rt, alloc, row)? {
                replayed = replayed.saturating_add(1);
            }
        }
    }
    assert!(rt; replayed >= least, "{replayed} were replayed");
    Ok(())
}

#[test]
fn refused_creations(rt: HostRuntime) -> Result<(), Fail> {
    let tables = [
        &contexts::ROWS[..],
        &buffers::ROWS[..],
        &views::ROWS[..],
        &queries::ROWS[..],
        &destroying::ROWS[..],
    ];
    play(&rt, rt.alloc(), &tables, 25)
}

#[test]
fn refused_commands(rt: HostRuntime) -> Result<(), Fail> {
    let tables = [&setting::ROWS[..], &commands::ROWS[..], &maps::ROWS[..]];
    play(&rt, rt.alloc(), &tables, 10)
}

#[test]
fn refused_with_shaders(rt: HostRuntime) -> Result<(), Fail> {
    for row in &shaders::ROWS {
        says(&rt, rt.alloc(), row.shows, row.log, row.says)?;
    }
    Ok(())
}

#[test]
fn draws(rt: HostRuntime) -> Result<(), Fail> {
    let alloc = rt.alloc();
    for (lines, n) in [
        (
            "0 buffer 1 16 0 0 0 0 -\n0 buffer 2 16 3 0 0 0 -\n0 draw-64 -\n",
            3,
        ),
        ("0 flush\n16 draw-79 00\n0 draw-64 -\n", 2),
    ] {
        let log = log_of(alloc, lines)?;
        for word in ["replay", "ref"] {
            let ran = run(alloc, word, log.output.as_slice())?;
            assert_eq!(rt; ran.status, Status::Unsupported { n });
            assert!(rt; ran.output.as_slice().is_empty());
        }
    }
    Ok(())
}

// Appends creations of buffers with the ids from `first` to `last`, each with the same fields behind the id.
fn push_buffers(lines: &mut String, first: u32, last: u32, fields: &str) -> Result<(), AllocError> {
    for id in first..=last {
        writeln!(lines, "0 buffer {id} {fields} 0 0 -")?;
    }
    Ok(())
}

// Of each class of sizes 32 dynamic buffers are live, and no more. A class goes by the least block that holds the buffer.
#[test]
fn too_many_dynamic(rt: HostRuntime) -> Result<(), Fail> {
    let mut lines = String::new(rt.alloc());
    push_buffers(&mut lines, 1, 31, "256 2 2")?;
    push_buffers(&mut lines, 32, 32, "4 2 2")?;
    lines.push_str(
        "0 buffer 33 4 2 2 0 0 -\n0 buffer 33 256 2 2 0 0 -\n0 buffer 33 260 2 2 0 0 -\n0 buffer 34 256 0 2 0 0 -\n0 destroy 1 5\n0 buffer 5 128 2 2 0 0 -\n0 buffer 35 16 2 1 0 0 -\n",
    )?;
    says(
        &rt,
        rt.alloc(),
        "32 dynamic buffers of a class",
        lines.as_str(),
        "33 refused TooManyDynamic\n34 refused TooManyDynamic\n39 refused TooManyDynamic\nend 39\n",
    )
}

// All live buffers together have 268435456 bytes at most, and what is destroyed is free at once. The bind bits are asked
// before it, and the number of dynamic buffers behind it.
#[test]
fn too_much_memory(rt: HostRuntime) -> Result<(), Fail> {
    let mut lines = String::new(rt.alloc());
    push_buffers(&mut lines, 1, 32, "4194304 2 2")?;
    push_buffers(&mut lines, 33, 40, "16777216 0 0")?;
    lines.push_str(
        "0 buffer 41 4 0 8 0 0 -\n0 buffer 41 4 0 0 0 0 -\n0 buffer 41 4194304 2 2 0 0 -\n0 destroy 1 40\n0 buffer 41 16777216 0 0 0 0 -\n0 destroy 1 41\n0 buffer 41 4194304 2 2 0 0 -\n",
    )?;
    says(
        &rt,
        rt.alloc(),
        "268435456 live bytes",
        lines.as_str(),
        "41 refused BadBind\n42 refused TooMuchMemory\n43 refused TooMuchMemory\n47 refused TooManyDynamic\nend 47\n",
    )
}
