//! A listing, as it is read.

ghost use Rattle.std.specs.Prelude.{◌≡◌, ◌≤◌, ◌^◌, ◌/◌, ℕ, List, [], ◌∷◌, ◌++◌, length, IfOk, IfErr, MatchOption, codes};
ghost use Rattle.vk_types.specs.declared.command.Cond.{Cond};
ghost use Rattle.vk_types.specs.declared.command.Command.{Command};
ghost use Rattle.vk_types.specs.declared.op.VkOp.{VkOp};
ghost use Rattle.vk_trace.specs.ListText.{BadOnly, IsOp, IsSmall, IsWide, ListText, barrier_words, call_words, join, op_words};
ghost use Rattle.vk_trace.specs.Reading.{BadCond, Ends, IsBarrier, IsCondRead, IsHost, IsOpOf, IsTail, NoCommand, NoLine, ReadsCommand, ReadsLine, WhenBad, fields, line_kind_name, number_words, pair_words, tail_words, work_kind_name};
ghost use Rattle.text_words.specs.Words.{Cut};

use crate::kind::{LineKind, WorkKind, line_kind, work_kind};
use crate::trace_end::{Stop, TraceEnd};
use crate::words::Words;
use crate::work::work;
use dx_types::Range;
use std::alloc::Global;
use text_words::next_line;
use vk_types::{Barrier, Command, Cond, VkOp};

// The bytes of `fence 0` and its line feed: no line is shorter.
const SHORTEST_LINE: usize = 8;

// The call that a line ends in.
fn call(words: &mut Words<'_>) -> Option<u32>
    ensures { Ends IsSmall call_words words.old result }
{
    words.key(b"call")?;
    let call = words.small()?;
    words.end()?;
    Some(call)
}

// A command's condition, if it has one.
fn condition(words: &mut Words<'_>) -> Option<Option<Cond>>
    ensures { MatchOption result (BadCond words.old) (IsCondRead words.old words.new) }
{
    if !words.skip(b"if") {
        return Some(None);
    }
    let at = words.range()?;
    let value = words.small()?;
    if at.to - at.from != 4 {
        return None;
    }
    Some(Some(Cond { at, value }))
}

// The condition and the call that a command's line ends in.
fn tail(words: &mut Words<'_>) -> Option<(Option<Cond>, u32)>
    ensures { Ends IsTail tail_words words.old result }
{
    let cond = condition(words)?;
    Some((cond, call(words)?))
}

// A command of this kind.
fn command(alloc: Global, kind: WorkKind, words: &mut Words<'_>) -> Result<Command, Stop>
    ensures found { IfOk result (ReadsCommand (work_kind_name kind) words.old) }
    ensures bad { IfErr result (λ e. WhenBad e (NoCommand (work_kind_name kind) words.old)) }
{
    let Some(number) = words.wide() else {
        return Err(Stop::Bad);
    };
    let work = work(alloc, kind, words)?;
    let Some((cond, call)) = tail(words) else {
        return Err(Stop::Bad);
    };
    Ok(Command {
        number,
        call,
        work,
        cond,
    })
}

// What the host writes or reads, and by which call.
fn host(words: &mut Words<'_>) -> Option<(Range, u32)>
    ensures { Ends IsHost pair_words words.old result }
{
    let range = Range {
        block: words.block()?,
        from: words.wide()?,
        to: words.wide()?,
    };
    if range.from >= range.to {
        return None;
    }
    Some((range, call(words)?))
}

// A barrier.
fn barrier(words: &mut Words<'_>) -> Option<Barrier>
    ensures { Ends IsBarrier barrier_words words.old result }
{
    let source = words.mask()?;
    let dest = words.mask()?;
    words.key(b"cause")?;
    let first = words.wide()?;
    let second = words.second()?;
    words.end()?;
    Some(Barrier {
        source,
        dest,
        first,
        second,
    })
}

// A number below 2^64 that ends a line.
fn last_wide(words: &mut Words<'_>) -> Option<u64>
    ensures { Ends IsWide number_words words.old result }
{
    let number = words.wide()?;
    words.end()?;
    Some(number)
}

// A number below 2^32 that ends a line.
fn last_small(words: &mut Words<'_>) -> Option<u32>
    ensures { Ends IsSmall number_words words.old result }
{
    let number = words.small()?;
    words.end()?;
    Some(number)
}

// A host write.
fn host_write(words: &mut Words<'_>) -> Option<VkOp>
    ensures { Ends (IsOpOf LineKind.HostWrite) fields words.old result }
{
    let (range, call) = host(words)?;
    Some(VkOp::HostWrite { range, call })
}

// A host read.
fn host_read(words: &mut Words<'_>) -> Option<VkOp>
    ensures { Ends (IsOpOf LineKind.HostRead) fields words.old result }
{
    let (range, call) = host(words)?;
    Some(VkOp::HostRead { range, call })
}

// The operation of a barrier's line.
fn barrier_op(words: &mut Words<'_>) -> Option<VkOp>
    ensures { Ends (IsOpOf LineKind.Barrier) fields words.old result }
{
    Some(VkOp::Barrier(barrier(words)?))
}

// The operation of a line of this kind, behind the line's first word.
fn operation(kind: LineKind, words: &mut Words<'_>) -> Option<VkOp>
    ensures { Ends (IsOpOf kind) fields words.old result }
{
    match kind {
        LineKind::HostWrite => host_write(words),
        LineKind::HostRead => host_read(words),
        LineKind::Pipeline => last_small(words).map(|shader| VkOp::Pipeline { shader }),
        LineKind::Barrier => barrier_op(words),
        LineKind::Submit => last_wide(words).map(VkOp::Submit),
        LineKind::Fence => last_wide(words).map(VkOp::Fence),
    }
}

/// The operation of a line, which stands without its line feed.
pub fn read_op(alloc: Global, text: &[u8]) -> Result<VkOp, Stop>
    ensures found { IfOk result (ReadsLine text.now) }
    ensures bad { IfErr result (λ e. WhenBad e (NoLine text.now)) }
{
    let mut words = Words::new(text, b' ');
    let Some(name) = words.next() else {
        return Err(Stop::Bad);
    };
    if let Some(kind) = work_kind(name) {
        return Ok(VkOp::Command(command(alloc, kind, &mut words)?));
    }
    let Some(kind) = line_kind(name) else {
        return Err(Stop::Bad);
    };
    let Some(op) = operation(kind, &mut words) else {
        return Err(Stop::Bad);
    };
    Ok(op)
}

/// As many operations as the text can have: one a line, and none in fewer bytes than `fence 0` takes. An operation takes more
/// room than its line, so a reader makes room once, and for no more lines than can be good.
pub fn most_operations(text: &[u8]) -> usize
    ensures { result ≤ length text.now / SHORTEST_LINE }
{
    let lines = text.iter().filter(|byte| **byte == b'\n').count();
    lines.min(text.len() / SHORTEST_LINE)
}

/// The operations of a listing's text; or the first line that is no operation's, from 1. What stands behind the last
/// line feed is a line too, and a bad one.
pub fn read_ops(alloc: Global, text: &[u8]) -> Result<Vec<VkOp>, TraceEnd>
    ensures listing { IfOk result (λ ops. ListText text.now ops.items) }
    ensures bad { IfErr result (λ e. BadOnly text.now e) }
{
    let mut ops = Vec::with_capacity(alloc, most_operations(text))?;
    let mut rest = text;
    let mut number = 1;
    'lines: while !rest.is_empty() {
        let Some((bare, after)) = next_line(rest) else {
            return Err(TraceEnd::Bad { line: number });
        };
        let op = match read_op(alloc, bare) {
            Ok(op) => op,
            Err(Stop::Bad) => return Err(TraceEnd::Bad { line: number }),
            Err(Stop::NoMemory) => return Err(TraceEnd::NoMemory),
        };
        ops.push(op)?;
        rest = after;
        number += 1;
    }
    Ok(ops)
}
