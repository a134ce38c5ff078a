ghost use Rattle.std.specs.Prelude.{◌≡◌, ◌<◌, ◌≤◌, Some, [], length, min, take, is_err, IfOk, IsErr, OnErr, IsTrue};
ghost use Rattle.dx_io.specs.Faults.{Rose};
ghost use Rattle.dx_io.specs.Told.{Appends};

use crate::calls::Calls;
use crate::{Failed, Sink};
use std::alloc::Global;

/// Keeps what is written, if memory is there. One write takes as many bytes as it can, and at most
/// `most`. A write fails where its number, from 1, stands in `fails`, where `most` is 0 and the piece
/// is not empty, and for want of memory.
#[derive(Drop)]
pub struct MemSink {
    bytes: Vec<u8>,
    most: usize,
    calls: Calls,
    starved: u64,
}

impl MemSink {
    ghost use Rattle.dx_io.specs.Memory.{no_calls, sink_held, sink_calls, sink_most, sink_starved};

    pub fn new(alloc: Global, most: usize, fails: Vec<u64>) -> MemSink
        ensures held { sink_held result ≡ [] }
        ensures calls { sink_calls result ≡ no_calls fails }
        ensures most { sink_most result ≡ most }
        ensures starved { sink_starved result ≡ 0 }
    {
        MemSink {
            bytes: Vec::new(alloc),
            most,
            calls: Calls::new(fails),
            starved: 0,
        }
    }

    /// The bytes that it holds.
    pub fn as_slice(&self) -> &[u8]
        ensures { result.now ≡ sink_held self.now }
    {
        &self.bytes
    }

    /// How often a write failed for want of memory.
    pub fn starved(&self) -> u64
        ensures { result ≡ sink_starved self.now }
    {
        self.starved
    }
}

impl Sink for MemSink {
    ghost use Rattle.dx_io.specs.Memory.{sink_held, sink_faults, sink_most, write_fails, CountsWrite};

    ghost held = { λ s. Some s.bytes.items };

    ghost faults = { λ s. s.calls.faults };

    fn write(&mut self, from: &[u8]) -> Result<usize, Failed>
        ensures later { sink_faults self.old ≤ sink_faults self.new }
        ensures failed { OnErr result (Rose (sink_faults self.old) (sink_faults self.new)) }
        ensures kept { OnErr result (Some (sink_held self.new) ≡ Some (sink_held self.old)) }
        ensures fits { IfOk result (λ n. n ≤ length from.now) }
        ensures taken { IfOk result (λ n. Appends (Some (sink_held self.old)) (take n from.now) (Some (sink_held self.new))) }
        ensures some { IfOk result (λ n. 0 < length from.now → 0 < n) }

        // What this sink does beside: it fails where it is told, and else only for want of memory.
        ensures fails { IsTrue (write_fails self.old from.now) → IsErr result }
        ensures counted { CountsWrite self.old from.now (is_err result) self.new }
        ensures count { IfOk result (λ n. n ≡ min (sink_most self.old) (length from.now)) }
    {
        self.calls.begin()?;
        let n = self.most.min(from.len());
        if n == 0 {
            return if from.is_empty() {
                Ok(0)
            } else {
                Err(self.calls.fault())
            };
        }
        match self.bytes.extend_from_slice(&from[..n]) {
            Ok(()) => Ok(n),
            Err(_) => {
                self.starved = self.starved.saturating_add(1);
                Err(self.calls.fault())
            }
        }
    }
}
