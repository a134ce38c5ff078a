ghost use Rattle.std.specs.Prelude.{◌≡◌, ◌≤◌, ◌⊎◌, ℕ, List, false, length, Some};
ghost use Rattle.dx_io.specs.Faults.{Rose, IsSteady};
ghost use Rattle.call_log.specs.Grammar.{IsLog};
ghost use Rattle.d3d_plan.specs.Ends.{EndsAt};
ghost use Rattle.player.specs.declared.task.Task as tasks;
ghost use Rattle.player.specs.Tasks.{InRange, task_of, reads_input};
ghost use Rattle.player.specs.Outcome.{OutcomeOf, Outcome, CameOf, IsGood, IsNotBuilt, UnplannedStatus, Writes};

use crate::audit::audit_bytes;
use crate::command::Command;
use crate::generate::generate;
use crate::run::{play, say_all};
use crate::status::Status;
use crate::task::{Task, task_of};
use call_log::{Log, LogEnd, read_log};
use core_machine::first_unbuilt;
use d3d_plan::{PlanEnd, make_plan};
use d3d_ref::reference;
use dx_io::{ReadEnd, Sink, Source, read_all, write_all};
use dx_types::CallNo;
use dx_types::limits::MAX_INPUT;
use log_text::{TextEnd, asm, list};
use std::alloc::Global;

/// Does what the words of a command line ask for, which stand here without the program's name. `replay`
/// reads a log from the source to its end, plays it and writes the line of each reply as it comes; `ref` writes the same
/// lines by a plain machine that takes one call after the other; `list` writes the text of a log, and `asm` the log of a text;
/// `audit` reads the text of a listing, and writes whether it covers its hazards and allows the order behind it. The input is
/// at most 67,108,864 bytes. `gen` reads none: it plays a generated log on that machine, and writes one line on it.
pub fn replay<S: Source, K: Sink>(
    alloc: Global,
    words: &[String],
    log: &mut S,
    out: &mut K,
) -> Status
    ensures outcome { OutcomeOf (task_of words.now) (S.left log.old) (K.held out.old) result (K.held out.new) }
    ensures read_fault { result ≡ Status.ReadFault → Rose (S.faults log.old) (S.faults log.new) }
    ensures write_fault { result ≡ Status.WriteFault → Rose (K.faults out.old) (K.faults out.new) }
    ensures read_later { S.faults log.old ≤ S.faults log.new }
    ensures write_later { K.faults out.old ≤ K.faults out.new }

    // `gen` reads nothing, nor do words that are no task.
    ensures unread { reads_input (task_of words.now) ≡ false → log.new ≡ log.old }

    // Each good input is answered.
    ensures complete { (t : tasks.Task) → task_of words.now ≡ Some t → IsGood t (S.left log.old)
        → IsSteady (S.faults log.old) (S.faults log.new) → IsSteady (K.faults out.old) (K.faults out.new)
        → (result ≡ Status.Done) ⊎ (result ≡ Status.NoMemory) }
{
    run_words(alloc, words, log, out)
}

fn run_words<S: Source, K: Sink>(
    alloc: Global,
    words: &[String],
    log: &mut S,
    out: &mut K,
) -> Status
    ensures outcome { OutcomeOf (task_of words.now) (S.left log.old) (K.held out.old) result (K.held out.new) }
    ensures read_fault { result ≡ Status.ReadFault → Rose (S.faults log.old) (S.faults log.new) }
    ensures write_fault { result ≡ Status.WriteFault → Rose (K.faults out.old) (K.faults out.new) }
    ensures read_later { S.faults log.old ≤ S.faults log.new }
    ensures write_later { K.faults out.old ≤ K.faults out.new }
    ensures unread { reads_input (task_of words.now) ≡ false → log.new ≡ log.old }
{
    match task_of(words) {
        None => Status::Usage,
        Some(task) => run_task(alloc, task, log, out),
    }
}

fn run_task<S: Source, K: Sink>(alloc: Global, task: Task, log: &mut S, out: &mut K) -> Status
    requires { InRange task }
    ensures outcome { OutcomeOf (Some task) (S.left log.old) (K.held out.old) result (K.held out.new) }
    ensures read_fault { result ≡ Status.ReadFault → Rose (S.faults log.old) (S.faults log.new) }
    ensures write_fault { result ≡ Status.WriteFault → Rose (K.faults out.old) (K.faults out.new) }
    ensures read_later { S.faults log.old ≤ S.faults log.new }
    ensures write_later { K.faults out.old ≤ K.faults out.new }
    ensures unread { reads_input (Some task) ≡ false → log.new ≡ log.old }
{
    match task {
        Task::Answer(command) => run_command(alloc, command, log, out),
        Task::Generate { rounds } => generate(alloc, rounds, out),
    }
}

fn run_command<S: Source, K: Sink>(
    alloc: Global,
    command: Command,
    log: &mut S,
    out: &mut K,
) -> Status
    ensures outcome { Outcome command (S.left log.old) (K.held out.old) result (K.held out.new) }
    ensures read_fault { result ≡ Status.ReadFault → Rose (S.faults log.old) (S.faults log.new) }
    ensures write_fault { result ≡ Status.WriteFault → Rose (K.faults out.old) (K.faults out.new) }
    ensures read_later { S.faults log.old ≤ S.faults log.new }
    ensures write_later { K.faults out.old ≤ K.faults out.new }
{
    match read_all(alloc, log, MAX_INPUT) {
        Ok(bytes) => answer(alloc, command, &bytes, out),
        Err(ReadEnd::Fault) => Status::ReadFault,
        Err(ReadEnd::TooLong) => Status::TooLong,
        Err(ReadEnd::NoMemory) => Status::NoMemory,
    }
}

// Writes what a command makes of an input.
fn answer<K: Sink>(alloc: Global, command: Command, bytes: &[u8], out: &mut K) -> Status
    requires { length bytes.now ≤ MAX_INPUT }
    ensures outcome { CameOf command bytes.now (K.held out.old) result (K.held out.new) }
    ensures write_fault { result ≡ Status.WriteFault → Rose (K.faults out.old) (K.faults out.new) }
    ensures write_later { K.faults out.old ≤ K.faults out.new }
{
    match command {
        Command::Replay => replay_bytes(alloc, bytes, out),
        Command::Ref => ref_bytes(alloc, bytes, out),
        Command::List => list_bytes(alloc, bytes, out),
        Command::Asm => asm_bytes(alloc, bytes, out),
        Command::Audit => audit_bytes(alloc, bytes, out),
    }
}

fn replay_bytes<K: Sink>(alloc: Global, bytes: &[u8], out: &mut K) -> Status
    requires { length bytes.now ≤ MAX_INPUT }
    ensures outcome { CameOf Command.Replay bytes.now (K.held out.old) result (K.held out.new) }
    ensures write_fault { result ≡ Status.WriteFault → Rose (K.faults out.old) (K.faults out.new) }
    ensures write_later { K.faults out.old ≤ K.faults out.new }
{
    match read_log(alloc, bytes) {
        Ok(log) => replay_log(alloc, &log, out),
        Err(LogEnd::Bad(fault)) => Status::BadLog { fault },
        Err(LogEnd::NoMemory) => Status::NoMemory,
    }
}

fn replay_log<K: Sink>(alloc: Global, log: &Log<'_>, out: &mut K) -> Status
    ensures outcome { (bytes : List ℕ) → IsLog bytes log.now.frames → CameOf Command.Replay bytes (K.held out.old) result (K.held out.new) }
    ensures write_fault { result ≡ Status.WriteFault → Rose (K.faults out.old) (K.faults out.new) }
    ensures write_later { K.faults out.old ≤ K.faults out.new }
{
    match make_plan(alloc, log) {
        Ok(plan) => match first_unbuilt(log) {
            None => play(alloc, log, &plan, out),
            Some(n) => not_built(log, n),
        },
        Err(end) => not_replayed(log, end),
    }
}

// Why a log without a plan is not replayed.
fn not_replayed(log: &Log<'_>, end: PlanEnd) -> Status
    requires { EndsAt log.now.frames end }
    ensures { UnplannedStatus log.now.frames result }
{
    match end {
        PlanEnd::NoMemory => Status::NoMemory,
        PlanEnd::Unsupported { n, .. } => Status::Unsupported { n },
    }
}

fn not_built(log: &Log<'_>, n: CallNo) -> Status
    ensures { IsNotBuilt log.now.frames n result }
{
    match log.item(n) {
        Some(item) => Status::NotBuilt { n, kind: item.kind },
        None => Status::NotBuilt { n, kind: 0 },
    }
}

fn ref_bytes<K: Sink>(alloc: Global, bytes: &[u8], out: &mut K) -> Status
    requires { length bytes.now ≤ MAX_INPUT }
    ensures outcome { CameOf Command.Ref bytes.now (K.held out.old) result (K.held out.new) }
    ensures write_fault { result ≡ Status.WriteFault → Rose (K.faults out.old) (K.faults out.new) }
    ensures write_later { K.faults out.old ≤ K.faults out.new }
{
    match read_log(alloc, bytes) {
        Ok(log) => ref_log(alloc, &log, out),
        Err(LogEnd::Bad(fault)) => Status::BadLog { fault },
        Err(LogEnd::NoMemory) => Status::NoMemory,
    }
}

fn ref_log<K: Sink>(alloc: Global, log: &Log<'_>, out: &mut K) -> Status
    ensures outcome { (bytes : List ℕ) → IsLog bytes log.now.frames → CameOf Command.Ref bytes (K.held out.old) result (K.held out.new) }
    ensures write_fault { result ≡ Status.WriteFault → Rose (K.faults out.old) (K.faults out.new) }
    ensures write_later { K.faults out.old ≤ K.faults out.new }
{
    match reference(alloc, log) {
        Ok(replies) => say_all(alloc, &replies, out),
        Err(PlanEnd::Unsupported { n, .. }) => Status::Unsupported { n },
        Err(PlanEnd::NoMemory) => Status::NoMemory,
    }
}

fn list_bytes<K: Sink>(alloc: Global, bytes: &[u8], out: &mut K) -> Status
    requires { length bytes.now ≤ MAX_INPUT }
    ensures outcome { CameOf Command.List bytes.now (K.held out.old) result (K.held out.new) }
    ensures write_fault { result ≡ Status.WriteFault → Rose (K.faults out.old) (K.faults out.new) }
    ensures write_later { K.faults out.old ≤ K.faults out.new }
{
    match read_log(alloc, bytes) {
        Ok(log) => list_log(alloc, &log, out),
        Err(LogEnd::Bad(fault)) => Status::BadLog { fault },
        Err(LogEnd::NoMemory) => Status::NoMemory,
    }
}

fn list_log<K: Sink>(alloc: Global, log: &Log<'_>, out: &mut K) -> Status
    ensures outcome { (bytes : List ℕ) → IsLog bytes log.now.frames → CameOf Command.List bytes (K.held out.old) result (K.held out.new) }
    ensures write_fault { result ≡ Status.WriteFault → Rose (K.faults out.old) (K.faults out.new) }
    ensures write_later { K.faults out.old ≤ K.faults out.new }
{
    match list(alloc, log) {
        Ok(text) => write(out, text.as_bytes()),
        Err(_) => Status::NoMemory,
    }
}

fn asm_bytes<K: Sink>(alloc: Global, text: &[u8], out: &mut K) -> Status
    requires { length text.now ≤ MAX_INPUT }
    ensures outcome { CameOf Command.Asm text.now (K.held out.old) result (K.held out.new) }
    ensures write_fault { result ≡ Status.WriteFault → Rose (K.faults out.old) (K.faults out.new) }
    ensures write_later { K.faults out.old ≤ K.faults out.new }
{
    match asm(alloc, text) {
        Ok(log) => write(out, &log),
        Err(TextEnd::Bad { line }) => Status::BadText { line },
        Err(TextEnd::NoMemory) => Status::NoMemory,
    }
}

/// Writes bytes, or some front of them.
pub(crate) fn write<K: Sink>(out: &mut K, bytes: &[u8]) -> Status
    ensures written { Writes bytes.now (K.held out.old) result (K.held out.new) }
    ensures write_fault { result ≡ Status.WriteFault → Rose (K.faults out.old) (K.faults out.new) }
    ensures write_later { K.faults out.old ≤ K.faults out.new }
{
    match write_all(out, bytes) {
        Ok(()) => Status::Done,
        Err(_) => Status::WriteFault,
    }
}
