//! Runs of logs that are given as their lines.

use crate::objects::set;
use call_log::{Call, Log, read_log};
use d3d_memory::{accept, answer};
use d3d_plan::PlanEnd;
use d3d_ref::{Machine, reference};
use dx_types::{CallNo, Reply, reply_line};
use log_text::asm;
use std::alloc::{AllocError, Global};
use std::process::Abort;
use std::test::Fail;

/// A log's lines without the first and the last, in parts, what they show, and what a run says of them.
pub(crate) struct Row {
    pub(crate) shows: &'static str,
    pub(crate) log: &'static [&'static str],
    pub(crate) says: &'static str,
}

/// The longest text and the longest log that are read, in bytes.
const LONGEST: usize = 65_536;

// A log's text of lines that stand in parts.
fn text_of(alloc: Global, lines: &[&str]) -> Result<String, AllocError> {
    let mut text = String::from_str(alloc, "d3l1 1\n")?;
    for part in lines {
        text.push_str(part)?;
    }
    text.push_str("end\n")?;
    Ok(text)
}

fn assembled(alloc: Global, text: &[u8]) -> Result<Vec<u8>, Fail> {
    if text.len() > LONGEST {
        return Err(Fail::from("a long text"));
    }
    Ok(asm(alloc, text).ok().ok_or("no log's text")?)
}

// The bytes of the log of these lines.
fn log_of(alloc: Global, lines: &[&str]) -> Result<Vec<u8>, Fail> {
    let text = text_of(alloc, lines)?;
    assembled(alloc, text.as_str().as_bytes())
}

fn opened(alloc: Global, bytes: &[u8]) -> Result<Log<'_>, Fail> {
    if bytes.len() > LONGEST {
        return Err(Fail::from("a long log"));
    }
    Ok(read_log(alloc, bytes).ok().ok_or("no log")?)
}

/// What a run of a log of these lines in order answers, or why it isn't run.
pub(crate) fn answers(alloc: Global, lines: &[&str]) -> Result<Result<Vec<Reply>, PlanEnd>, Fail> {
    let bytes = log_of(alloc, lines)?;
    let log = opened(alloc, &bytes)?;
    Ok(reference(alloc, &log))
}

// Plays a call by the memory's own functions.
fn accepted(
    alloc: Global,
    machine: &mut Machine,
    n: CallNo,
    context: u16,
    call: &Call<'_>,
) -> Result<Option<Reply>, Fail> {
    let reply = answer(alloc, n, &machine.memory, &machine.objects, call)?;
    if !machine.memory.is_in_limits() {
        return Err(Fail::from("a buffer is too long"));
    }
    accept(&mut machine.memory, &machine.objects, context, call)?;
    set(alloc, &mut machine.objects, n, call)?;
    Ok(reply)
}

// The answers to the calls of these lines where each is accepted: none is checked, and nothing stands behind the last.
fn unchecked(alloc: Global, lines: &[&str]) -> Result<Vec<Reply>, Fail> {
    let bytes = log_of(alloc, lines)?;
    let log = opened(alloc, &bytes)?;
    let mut machine = Machine::new(alloc)?;
    let mut replies = Vec::new(alloc);
    for n in 1..=log.count() {
        let item = log.item(n).ok_or("no call")?;
        if let Some(reply) = accepted(alloc, &mut machine, n, item.context, &item.call())? {
            replies.push(reply)?;
        }
    }
    Ok(replies)
}

fn says(rt: &impl Abort, alloc: Global, replies: &[Reply], row: &Row) -> Result<(), Fail> {
    let mut text = String::new(alloc);
    for reply in replies {
        text.push_str(&reply_line(alloc, reply)?)?;
    }
    assert_eq!(rt; text.as_str(), row.says, "{}", row.shows);
    Ok(())
}

/// Runs each log in order.
pub(crate) fn run(rt: &impl Abort, alloc: Global, rows: &[Row]) -> Result<(), Fail> {
    for row in rows {
        let replies = answers(alloc, row.log)?.ok().ok_or("no plan")?;
        says(rt, alloc, &replies, row)?;
    }
    Ok(())
}

/// Plays each log with no checks.
pub(crate) fn play(rt: &impl Abort, alloc: Global, rows: &[Row]) -> Result<(), Fail> {
    for row in rows {
        let replies = unchecked(alloc, row.log)?;
        says(rt, alloc, &replies, row)?;
    }
    Ok(())
}
