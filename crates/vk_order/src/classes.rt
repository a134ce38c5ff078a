//! Classes of touches: whether a barrier covers a hazard of two commands depends on the classes of its touches alone.

ghost use Rattle.std.specs.Prelude.{◌≡◌, ◌||◌, true, Some, is_some};
ghost use Rattle.vk_order.specs.Classes.{first_of, names, second_of, shows_at, shows_host, stages_of, written_stage, is_computed, is_indirect};
ghost use Rattle.vk_order.specs.Classes as classes;

use crate::visible::{allowed_by, reads_named, writes_named};
use vk_types::{Access, Barrier, Command, Groups, Mask, Stage, Touch, Work};

/// The stages of a command.
#[derive(Clone, Copy, PartialEq, Eq)]
pub struct Stages {
    pub indirect: bool,
    pub compute: bool,
    pub transfer: bool,
    pub host: bool,
}

/// The class of a hazard's first touch: the stages of its command, and the stage at which it writes, if it does.
#[derive(Clone, Copy)]
pub struct First {
    pub stages: Stages,
    pub written: Option<Stage>,
}

/// The class of a hazard's second touch: the stages of its command, and where and how it touches.
#[derive(Clone, Copy)]
pub struct Second {
    pub stages: Stages,
    pub stage: Stage,
    pub access: Access,
}

// Whether the work is done as shaders run; else it is a transfer.
fn is_computed(work: &Work) -> bool
    ensures { result ≡ is_computed work.now }
{
    match work {
        Work::Copy { .. } | Work::Fill { .. } => false,
        Work::Clear { .. } | Work::Dispatch { .. } => true,
    }
}

// Whether the work is a dispatch whose counts stand in a buffer.
fn is_indirect(work: &Work) -> bool
    ensures { result ≡ is_indirect work.now }
{
    match work {
        Work::Dispatch { groups, .. } => match groups {
            Groups::Indirect { .. } => true,
            Groups::Direct { .. } => false,
        },
        _ => false,
    }
}

fn reads_first(c: &Command) -> bool
    ensures { result ≡ (is_indirect c.now.work || is_some c.now.cond) }
{
    is_indirect(&c.work) || c.cond.is_some()
}

/// The stages of a command: those of its work, and that at which counts and conditions are read.
pub fn stages_of(c: &Command) -> Stages
    ensures { result ≡ stages_of c.now }
{
    let compute = is_computed(&c.work);
    Stages {
        indirect: reads_first(c),
        compute,
        transfer: !compute,
        host: false,
    }
}

fn written_stage(t: &Touch) -> Option<Stage>
    ensures { result ≡ written_stage t.now }
{
    if t.access.writes() {
        Some(t.stage)
    } else {
        None
    }
}

/// The class of a touch of a command with these stages, as the first of a hazard.
pub fn first_of(stages: Stages, t: &Touch) -> First
    ensures { result ≡ first_of stages t.now }
{
    First {
        stages,
        written: written_stage(t),
    }
}

/// Its class as the second.
pub fn second_of(stages: Stages, u: &Touch) -> Second
    ensures { result ≡ second_of stages u.now }
{
    Second {
        stages,
        stage: u.stage,
        access: u.access,
    }
}

pub fn are_stages(a: &Stages, b: &Stages) -> bool
    ensures { result ≡ true → a.now ≡ b.now }
{
    *a == *b
}

pub fn is_first(a: &First, b: &First) -> bool
    ensures { result ≡ true → a.now ≡ b.now }
{
    are_stages(&a.stages, &b.stages) && a.written == b.written
}

pub fn is_second(a: &Second, b: &Second) -> bool
    ensures { result ≡ true → a.now ≡ b.now }
{
    are_stages(&a.stages, &b.stages) && a.stage == b.stage && a.access == b.access
}

/// Whether the mask names each of the stages.
pub fn names(m: &Mask, s: &Stages) -> bool
    ensures { result ≡ names m.now s.now }
{
    ((!s.indirect || m.indirect.is_some()) && (!s.compute || m.compute.is_some()))
        && ((!s.transfer || m.transfer.is_some()) && (!s.host || m.host.is_some()))
}

fn shows_at(written: Option<Stage>, s: &Second, b: &Barrier) -> bool
    ensures { result ≡ shows_at written s.now b.now }
{
    match written {
        Some(stage) => {
            writes_named(b.source.at(stage)) && allowed_by(b.dest.at(s.stage), s.access)
        }
        None => true,
    }
}

/// Whether the barrier covers a hazard of touches of these classes.
pub fn covers(f: &First, s: &Second, b: &Barrier) -> bool
    ensures { result ≡ classes.covers f.now s.now b.now }
{
    (names(&b.source, &f.stages) && names(&b.dest, &s.stages)) && shows_at(f.written, s, b)
}

/// Whether the barrier shows the host what a touch of this class writes.
pub fn shows_host(f: &First, b: &Barrier) -> bool
    ensures { result ≡ shows_host f.now b.now }
{
    match f.written {
        Some(stage) => writes_named(b.source.at(stage)) && reads_named(b.dest.at(Stage::Host)),
        None => false,
    }
}

/// Whether a touch of the first class conflicts with this one where they share bytes.
pub fn asks(f: &First, u: &Touch) -> bool
    ensures { result ≡ classes.asks f.now u.now }
{
    f.written.is_some() || u.access.writes()
}
