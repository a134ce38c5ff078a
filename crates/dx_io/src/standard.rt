// The edge to std's readers and writers. What they give and take is not told: no contract knows it.
ghost use Rattle.std.specs.Prelude.{◌≡◌, ◌<◌, ◌≤◌, [], length, take, None, IfOk, IfSome, OnErr, is_ok, if◌then◌else◌};
ghost use Rattle.dx_io.specs.Faults.{Rose, one_more};
ghost use Rattle.dx_io.specs.Told.{Gives, Appends};
ghost use Rattle.dx_io.specs.Standard.{reader_faults, writer_faults};
ghost use Rattle.dx_io.specs.Sure.{untold};

use crate::{Failed, Sink, Source};
use std::io::{ErrorKind, Read, Write};

/// A reader of std as a source. It goes on by itself after an interruption, and counts each other
/// error.
#[derive(Drop)]
pub struct StdSource<T> {
    from: T,
    faults: u64,
}

impl<T: Read> StdSource<T> {
    pub fn new(from: T) -> StdSource<T>
        ensures { reader_faults result ≡ 0 }
    {
        StdSource { from, faults: 0 }
    }
}

impl<T: Read> Source for StdSource<T> {
    ghost left = { λ _. None };

    ghost faults = { λ s. s.faults };

    fn read(&mut self, into: &mut [u8]) -> Result<usize, Failed>
        ensures later { reader_faults self.old ≤ reader_faults self.new }
        ensures failed { OnErr result (Rose (reader_faults self.old) (reader_faults self.new)) }
        ensures kept { OnErr result (untold ≡ untold) }
        ensures fits { IfOk result (λ n. n ≤ length into.old) }
        ensures moved { IfOk result (λ n. Gives untold (take n into.new) untold) }
        ensures end { IfOk result (λ n. n ≡ 0 → 0 < length into.old → IfSome untold (λ l. l ≡ [])) }

        // What this source does beside: nothing but a failure is counted.
        ensures counted { reader_faults self.new ≡ (if is_ok result then reader_faults self.old else one_more (reader_faults self.old)) }
    {
        match read_on(&mut self.from, into) {
            Ok(n) => Ok(n),
            Err(Failed) => {
                self.faults = self.faults.saturating_add(1);
                Err(Failed)
            }
        }
    }
}

// One read, made again while it is interrupted.
fn read_on<T: Read>(from: &mut T, into: &mut [u8]) -> Result<usize, Failed>
    ensures { IfOk result (λ n. n ≤ length into.old) }
{
    for _ in 0..u64::MAX {
        match from.read(into) {
            Ok(n) => return Ok(n),
            Err(e) if e.kind() == ErrorKind::Interrupted => (),
            Err(_) => return Err(Failed),
        }
    }
    Err(Failed)
}

/// A writer of std as a sink. It goes on by itself after an interruption, and counts each other
/// error. It flushes each write: where the writer has a buffer, a failure of the real output is then
/// the failure of this write, and not one that nobody sees. The standard output of the runtime has no
/// buffer, so there a write is one call of the system and the flush does nothing.
#[derive(Drop)]
pub struct StdSink<T> {
    to: T,
    faults: u64,
}

impl<T: Write> StdSink<T> {
    pub fn new(to: T) -> StdSink<T>
        ensures { writer_faults result ≡ 0 }
    {
        StdSink { to, faults: 0 }
    }
}

impl<T: Write> Sink for StdSink<T> {
    ghost held = { λ _. None };

    ghost faults = { λ s. s.faults };

    fn write(&mut self, from: &[u8]) -> Result<usize, Failed>
        ensures later { writer_faults self.old ≤ writer_faults self.new }
        ensures failed { OnErr result (Rose (writer_faults self.old) (writer_faults self.new)) }
        ensures kept { OnErr result (untold ≡ untold) }
        ensures fits { IfOk result (λ n. n ≤ length from.now) }
        ensures taken { IfOk result (λ n. Appends untold (take n from.now) untold) }
        ensures some { IfOk result (λ n. 0 < length from.now → 0 < n) }

        // What this sink does beside: nothing but a failure is counted.
        ensures counted { writer_faults self.new ≡ (if is_ok result then writer_faults self.old else one_more (writer_faults self.old)) }
    {
        match write_through(&mut self.to, from) {
            Ok(n) => Ok(n),
            Err(Failed) => {
                self.faults = self.faults.saturating_add(1);
                Err(Failed)
            }
        }
    }
}

// One write, through the writer's own buffer. 0 taken of a nonempty piece is a failure.
fn write_through<T: Write>(to: &mut T, from: &[u8]) -> Result<usize, Failed>
    ensures fits { IfOk result (λ n. n ≤ length from.now) }
    ensures some { IfOk result (λ n. 0 < length from.now → 0 < n) }
{
    let n = write_on(to, from)?;
    if n == 0 && !from.is_empty() {
        return Err(Failed);
    }
    flush_on(to)?;
    Ok(n)
}

// One write, made again while it is interrupted.
fn write_on<T: Write>(to: &mut T, from: &[u8]) -> Result<usize, Failed>
    ensures { IfOk result (λ n. n ≤ length from.now) }
{
    for _ in 0..u64::MAX {
        match to.write(from) {
            Ok(n) => return Ok(n),
            Err(e) if e.kind() == ErrorKind::Interrupted => (),
            Err(_) => return Err(Failed),
        }
    }
    Err(Failed)
}

// A flush, made again while it is interrupted.
fn flush_on<T: Write>(to: &mut T) -> Result<(), Failed> {
    for _ in 0..u64::MAX {
        match to.flush() {
            Ok(()) => return Ok(()),
            Err(e) if e.kind() == ErrorKind::Interrupted => (),
            Err(_) => return Err(Failed),
        }
    }
    Err(Failed)
}
