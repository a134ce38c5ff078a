ghost use Rattle.std.specs.Prelude.{◌≡◌, ◌<◌, ◌≤◌, Some, None, [], length, min, take, drop, vec_len, IfOk, IsOk, OnErr, IfSome};
ghost use Rattle.dx_io.specs.Faults.{Rose};
ghost use Rattle.dx_io.specs.Told.{Gives, Appends};

use crate::memory_source::{copy_front, tail};
use crate::{Failed, Sink, Source};

/// Bytes in memory, whose reads never fail and move as many as there are and fit.
#[derive(Drop)]
pub struct SureSource {
    bytes: Vec<u8>,
    at: usize,
    ghost within: { at ≤ vec_len bytes },
}

impl SureSource {
    ghost use Rattle.dx_io.specs.Sure.{sure_left};

    pub fn new(bytes: Vec<u8>) -> SureSource
        ensures { sure_left result ≡ bytes.items }
    {
        SureSource { bytes, at: 0 }
    }
}

impl Source for SureSource {
    ghost use Rattle.dx_io.specs.Sure.{sure_left, sure_faults};

    ghost left = { λ s. Some (drop s.at s.bytes.items) };

    ghost faults = { λ _. 0 };

    fn read(&mut self, into: &mut [u8]) -> Result<usize, Failed>
        ensures later { sure_faults ≤ sure_faults }
        ensures failed { OnErr result (Rose sure_faults sure_faults) }
        ensures kept { OnErr result (Some (sure_left self.new) ≡ Some (sure_left self.old)) }
        ensures fits { IfOk result (λ n. n ≤ length into.old) }
        ensures moved { IfOk result (λ n. Gives (Some (sure_left self.old)) (take n into.new) (Some (sure_left self.new))) }
        ensures end { IfOk result (λ n. n ≡ 0 → 0 < length into.old → IfSome (Some (sure_left self.old)) (λ l. l ≡ [])) }

        // What this source does beside: it moves as many as there are and fit.
        ensures sure { IsOk result }
        ensures count { IfOk result (λ n. n ≡ min (length into.old) (length (sure_left self.old))) }
    {
        let n = copy_front(tail(&self.bytes, self.at), into);
        self.at += n;
        Ok(n)
    }
}

/// Takes all that is written, keeps none of it and never fails.
#[derive(Clone, Copy, Debug, PartialEq, Eq)]
pub struct SureSink;

impl SureSink {
    pub fn new() -> SureSink {
        SureSink
    }
}

impl Sink for SureSink {
    ghost use Rattle.dx_io.specs.Sure.{sure_faults, untold};

    ghost held = { λ _. None };

    ghost faults = { λ _. 0 };

    fn write(&mut self, from: &[u8]) -> Result<usize, Failed>
        ensures later { sure_faults ≤ sure_faults }
        ensures failed { OnErr result (Rose sure_faults sure_faults) }
        ensures kept { OnErr result (untold ≡ untold) }
        ensures fits { IfOk result (λ n. n ≤ length from.now) }
        ensures taken { IfOk result (λ n. Appends untold (take n from.now) untold) }
        ensures some { IfOk result (λ n. 0 < length from.now → 0 < n) }

        // What this sink does beside: it takes all.
        ensures all { result ≡ Ok (length from.now) }
    {
        Ok(from.len())
    }
}
