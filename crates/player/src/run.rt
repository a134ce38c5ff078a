ghost use Rattle.std.specs.Prelude.{◌≡◌, ◌≤◌, OnOk, OnErr, IsErrOf};
ghost use Rattle.dx_io.specs.Faults.{Rose};
ghost use Rattle.dx_io.specs.Told.{Appends, AppendsFront};
ghost use Rattle.dx_types.specs.Line.{line};
ghost use Rattle.call_log.specs.Grammar.{calls_of};
ghost use Rattle.core_machine.specs.Keeping.{IsPlanned};
ghost use Rattle.d3d_model.specs.ReplyText.{lines};
ghost use Rattle.player.specs.Outcome.{Plays, Tells, status_for};

use crate::status::Status;
use call_log::Log;
use core_machine::{Core, Stepped};
use d3d_plan::Plan;
use dx_io::{Sink, write_all};
use dx_types::{Reply, reply_line};
use std::alloc::Global;

/// Why a line was not written.
#[derive(Clone, Copy, Debug, PartialEq, Eq)]
pub(crate) enum Unsaid {
    Fault,
    NoMemory,
}

/// Plays a log by its plan to the end, and writes the line of each reply as it comes.
pub(crate) fn play<K: Sink>(alloc: Global, log: &Log<'_>, plan: &Plan, out: &mut K) -> Status
    requires { IsPlanned log.now.frames plan.now }
    ensures later { K.faults out.old ≤ K.faults out.new }
    ensures plays { Plays (calls_of log.now.frames) (K.held out.old) result (K.held out.new) }
    ensures fault { result ≡ Status.WriteFault → Rose (K.faults out.old) (K.faults out.new) }
{
    let mut core = match Core::new(alloc, log, plan) {
        Ok(core) => core,
        Err(_) => return Status::NoMemory,
    };
    'events: while let Some(event) = core.next_settling() {
        match core.step(event) {
            Stepped::Done => (),
            Stepped::Line(reply) => match say(alloc, out, &reply) {
                Ok(()) => (),
                Err(end) => return status_of(end),
            },
            Stepped::Ended(reply) => match say(alloc, out, &reply) {
                Ok(()) => (),
                Err(end) => return status_of(end),
            },
            Stepped::NotEnabled => unreachable!(),
            Stepped::NoMemory => return Status::NoMemory,
        }
    }
    Status::Done
}

/// Writes the line of each reply.
pub(crate) fn say_all<K: Sink>(alloc: Global, replies: &[Reply], out: &mut K) -> Status
    ensures later { K.faults out.old ≤ K.faults out.new }
    ensures tells { Tells (lines replies.now) (K.held out.old) result (K.held out.new) }
    ensures fault { result ≡ Status.WriteFault → Rose (K.faults out.old) (K.faults out.new) }
{
    'replies: for reply in replies {
        match say(alloc, out, reply) {
            Ok(()) => (),
            Err(end) => return status_of(end),
        }
    }
    Status::Done
}

fn status_of(end: Unsaid) -> Status
    ensures { result ≡ status_for end }
{
    match end {
        Unsaid::Fault => Status::WriteFault,
        Unsaid::NoMemory => Status::NoMemory,
    }
}

// Writes a reply's line, or some front of it.
fn say<K: Sink>(alloc: Global, out: &mut K, reply: &Reply) -> Result<(), Unsaid>
    ensures later { K.faults out.old ≤ K.faults out.new }
    ensures ok { OnOk result (Appends (K.held out.old) (line reply.now) (K.held out.new)) }
    ensures front { OnErr result (AppendsFront (K.held out.old) (line reply.now) (K.held out.new)) }
    ensures fault { IsErrOf result Unsaid.Fault → Rose (K.faults out.old) (K.faults out.new) }
{
    match reply_line(alloc, reply) {
        Err(_) => Err(Unsaid::NoMemory),
        Ok(text) => match write_all(out, text.as_bytes()) {
            Ok(()) => Ok(()),
            Err(_) => Err(Unsaid::Fault),
        },
    }
}
