//! The command `gen`.

ghost use Rattle.std.specs.Prelude.{◌≡◌, ◌≤◌, ◌+◌, ◌*◌, length, drop, sum, IfOk};
ghost use Rattle.std.specs.String.{string_bytes};
ghost use Rattle.byteorder.specs.Endian.{little_number};
ghost use Rattle.call_log.specs.Grammar.{calls_of};
ghost use Rattle.d3d_model.specs.Regions.{words_of};
ghost use Rattle.d3d_plan.specs.Verdicts.{refusal_of};
ghost use Rattle.core_machine.specs.Keeping.{IsPlanned};
ghost use Rattle.dx_io.specs.Faults.{Rose};
ghost use Rattle.dx_types.specs.declared.limits.TheConstants.{MAX_ROUNDS};
ghost use Rattle.histogram_log.specs.Histogram.{histogram};
ghost use Rattle.histogram_log.specs.Logged.{frames};
ghost use Rattle.player.specs.Generated.{IsGenerated, last_reply, last_sum, read_back, summary, summary_line};

use crate::status::Status;
use crate::top::write;
use byteorder::{ByteOrder, LittleEndian};
use call_log::{Log, LogEnd, read_log};
use d3d_plan::{Plan, PlanEnd, Verdict, make_plan};
use d3d_ref::Machine;
use dx_io::Sink;
use dx_types::{CallNo, Refusal, Reply};
use histogram_log::{gen_log, polls};
use std::alloc::{AllocError, Global};

/// Plays the generated log of so many rounds in order, and writes a line on it: its calls, those that read back without
/// waiting, and the sum of the words that the last call reads back.
pub(crate) fn generate<K: Sink>(alloc: Global, rounds: u32, out: &mut K) -> Status
    requires least { 1 ≤ rounds }
    requires most { rounds ≤ MAX_ROUNDS }
    ensures generated { IsGenerated rounds (K.held out.old) result (K.held out.new) }
    ensures write_fault { result ≡ Status.WriteFault → Rose (K.faults out.old) (K.faults out.new) }
    ensures write_later { K.faults out.old ≤ K.faults out.new }
{
    match summary(alloc, rounds) {
        Ok(line) => write(out, line.as_bytes()),
        Err(_) => Status::NoMemory,
    }
}

fn summary(alloc: Global, rounds: u32) -> Result<String, AllocError>
    requires least { 1 ≤ rounds }
    requires most { rounds ≤ MAX_ROUNDS }
    ensures { IfOk result (λ line. string_bytes line ≡ summary rounds) }
{
    let bytes = gen_log(alloc, rounds)?;
    match read_log(alloc, &bytes) {
        Ok(log) => summary_of(alloc, rounds, &log),
        Err(LogEnd::NoMemory) => Err(AllocError),
        // What was made is a log.
        Err(LogEnd::Bad(_)) => unreachable!(),
    }
}

fn summary_of(alloc: Global, rounds: u32, log: &Log<'_>) -> Result<String, AllocError>
    requires { log.now.frames ≡ frames (histogram rounds) }
    ensures { IfOk result (λ line. string_bytes line ≡ summary rounds) }
{
    let sum = last_sum(alloc, rounds, log)?;
    summary_line(alloc, rounds, log.count(), polls(rounds), sum)
}

fn summary_line(
    alloc: Global,
    rounds: u32,
    calls: CallNo,
    polls: u32,
    sum: u64,
) -> Result<String, AllocError>
    ensures { IfOk result (λ line. string_bytes line ≡ summary_line rounds calls polls sum) }
{
    format!(in alloc; "gen {rounds} calls {calls} polls {polls} sum {sum}\n")
}

// The sum of the words that the last call of the generated log reads back.
fn last_sum(alloc: Global, rounds: u32, log: &Log<'_>) -> Result<u64, AllocError>
    requires { log.now.frames ≡ frames (histogram rounds) }
    ensures { IfOk result (λ sum. sum ≡ last_sum (calls_of log.now.frames)) }
{
    // The number names the log in what is proved of it.
    let _rounds = rounds;
    match make_plan(alloc, log) {
        Ok(plan) => {
            let reply = last_reply(alloc, log, &plan)?;
            Ok(sum_of_words(read_back(&reply)))
        }
        Err(PlanEnd::NoMemory) => Err(AllocError),
        // It has no draw.
        Err(PlanEnd::Unsupported { .. }) => unreachable!(),
    }
}

// What in-order Direct3D says of the last call of a log.
fn last_reply(alloc: Global, log: &Log<'_>, plan: &Plan) -> Result<Option<Reply>, AllocError>
    requires { IsPlanned log.now.frames plan.now }
    ensures { IfOk result (λ reply. reply ≡ last_reply (calls_of log.now.frames)) }
{
    let mut machine = Machine::new(alloc)?;
    let mut last = None;
    'calls: for i in 0..log.count() {
        let n = i + 1;
        last = machine.play(alloc, log, n, refusal(plan.verdict(n)), plan.shader(n))?;
    }
    Ok(last)
}

fn refusal(verdict: Verdict) -> Option<Refusal>
    ensures { result ≡ refusal_of verdict }
{
    match verdict {
        Verdict::Go => None,
        Verdict::Refused(why) => Some(why),
    }
}

// The bytes that a reply reads back.
fn read_back(reply: &Option<Reply>) -> &[u8]
    ensures { result.now ≡ read_back reply.now }
{
    match reply {
        Some(Reply::Bytes { bytes, .. }) => bytes.as_slice(),
        Some(Reply::Value { .. }) => &[],
        Some(Reply::Still { .. }) => &[],
        Some(Reply::Refused { .. }) => &[],
        Some(Reply::Finished { .. }) => &[],
        None => &[],
    }
}

fn sum_of_words(bytes: &[u8]) -> u64
    requires { length bytes.now ≤ 1024 }
    ensures { result ≡ sum (words_of bytes.now) }
{
    let mut sum = 0;
    'words: for i in 0..bytes.len() / 4 {
        sum += u64::from(word_at(bytes, i));
    }
    sum
}

fn word_at(bytes: &[u8], i: usize) -> u32
    requires { 4 * i + 4 ≤ length bytes.now }
    ensures { result ≡ little_number 4 (drop (4 * i) bytes.now) }
{
    LittleEndian::read_u32(&bytes[4 * i..])
}
