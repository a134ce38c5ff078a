ghost use Rattle.std.specs.Prelude.{◌≡◌, ◌↔◌, IfOk, IfSome, IfNone, IsNone, true};
ghost use Rattle.call_log.specs.Grammar.{calls_of};
ghost use Rattle.core_machine.specs.Keeping.{IsPlanned};
ghost use Rattle.core_machine.specs.Machine.{start, is_enabled, settling, given, Moves, IsFront};
ghost use Rattle.d3d_model.specs.ReplyText.{replies, none_pending};

use crate::commands::makes_command;
use crate::events::{Event, Flight, Stepped};
use crate::turn::{play_call, play_command};
use call_log::Log;
use d3d_plan::Plan;
use d3d_ref::Machine;
use dx_types::{CallNo, Reply};
use std::alloc::{AllocError, Global};
use std::marker::Model;

/// Plays a log by its plan, step by step. A clause sees how far it is. There is no machine once memory ran out in the middle of
/// a call.
#[derive(Drop)]
pub struct Core<'a> {
    alloc: Global,
    log: &'a Log<'a>,
    plan: &'a Plan,
    machine: Option<Machine<'a>>,
    taken: CallNo,
    flight: Flight,
    ended: bool,
}

impl<'a> Model for Core<'a> {
    ghost use Rattle.call_log.specs.Grammar.{calls_of};
    ghost use Rattle.core_machine.specs.Machine.{Progress};
    ghost use Rattle.core_machine.specs.Keeping.{Keeps};

    ghost Value = { Progress };

    ghost view = { λ c. record { log = calls_of c.log.now.frames; taken = c.taken; flight = c.flight; ended = c.ended } };

    ghost invariant = { λ c. Keeps c.log.now.frames c.plan.now c.machine c.taken c.flight c.ended };
}

impl<'a> Core<'a> {
    /// Before the first call of a log, with its plan.
    pub fn new(alloc: Global, log: &'a Log<'a>, plan: &'a Plan) -> Result<Core<'a>, AllocError>
        requires { IsPlanned log.now.frames plan.now }
        ensures { IfOk result (λ core. core ≡ start (calls_of log.entry.now.frames)) }
    {
        let machine = Machine::new(alloc)?;
        Ok(Core {
            alloc,
            log,
            plan,
            machine: Some(machine),
            taken: 0,
            flight: Flight::Empty,
            ended: false,
        })
    }

    /// One step of one part.
    pub fn step(&mut self, e: Event) -> Stepped
        ensures moves { Moves self.old e result self.new }
        ensures front { IsFront self.new }
    {
        match e {
            Event::App => self.take(),
            Event::Run(j) => self.run(j),
            Event::Finish => self.finish(),
            Event::Cs => self.idle(),
            Event::Pipe(_) => self.idle(),
            Event::Submit => self.idle(),
            Event::Accept => self.idle(),
            Event::Complete => self.idle(),
        }
    }

    // No other part is there yet.
    fn idle(&self) -> Stepped
        ensures moves { result ≡ Stepped.NotEnabled }
        ensures front { IsFront self.now }
    {
        let _ = &self.taken;
        Stepped::NotEnabled
    }

    fn take(&mut self) -> Stepped
        ensures moves { Moves self.old Event.App result self.new }
        ensures front { IsFront self.new }
    {
        if self.ended || !self.flight.is_empty() {
            return Stepped::NotEnabled;
        }
        if self.taken >= self.log.count() {
            self.ended = true;
            return Stepped::Ended(Reply::Finished { calls: self.taken });
        }
        let n = self.taken + 1;
        if makes_command(self.log, self.plan, n) {
            self.taken = n;
            self.flight = Flight::Waiting;
            return Stepped::Done;
        }
        match play_call(self.alloc, self.log, self.plan, n, &mut self.machine) {
            Err(_) => Stepped::NoMemory,
            Ok(None) => {
                self.taken = n;
                Stepped::Done
            }
            Ok(Some(reply)) => {
                self.taken = n;
                Stepped::Line(reply)
            }
        }
    }

    fn run(&mut self, j: u32) -> Stepped
        ensures moves { Moves self.old (Event.Run j) result self.new }
        ensures front { IsFront self.new }
    {
        if j != 0 || self.flight != Flight::Waiting {
            return Stepped::NotEnabled;
        }
        let n = self.taken;
        match play_command(self.alloc, self.log, self.plan, n, &mut self.machine) {
            Ok(()) => {
                self.flight = Flight::Ran;
                Stepped::Done
            }
            Err(_) => Stepped::NoMemory,
        }
    }

    fn finish(&mut self) -> Stepped
        ensures moves { Moves self.old Event.Finish result self.new }
        ensures front { IsFront self.new }
    {
        if self.flight != Flight::Ran {
            return Stepped::NotEnabled;
        }
        self.flight = Flight::Empty;
        Stepped::Done
    }

    /// The first enabled of finish, run and app.
    pub fn next_settling(&self) -> Option<Event>
        ensures first { IfSome result (λ e. e ≡ settling self.now) }
        ensures enabled { IfSome result (λ e. is_enabled self.now e ≡ true) }
        ensures none { IsNone result ↔ (self.now.ended ≡ true) }
        ensures whole { IfNone result (given self.now ≡ replies self.now.log none_pending) }
        ensures front { IsFront self.now }
    {
        match self.flight {
            Flight::Ran => Some(Event::Finish),
            Flight::Waiting => Some(Event::Run(0)),
            Flight::Empty => { if self.ended { None } else { Some(Event::App) } }
        }
    }
}
