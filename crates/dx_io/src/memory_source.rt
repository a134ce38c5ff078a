ghost use Rattle.std.specs.Prelude.{◌≡◌, ◌<◌, ◌≤◌, Some, [], length, min, take, drop, vec_len, is_err, IfOk, OnErr, IfSome, ◌++◌};
ghost use Rattle.dx_io.specs.Faults.{Rose};
ghost use Rattle.dx_io.specs.Told.{Gives};

use crate::calls::Calls;
use crate::{Failed, Source};

/// Bytes in memory. One read moves as many as it can, and at most `most`. A read fails where its
/// number, from 1, stands in `fails`.
#[derive(Drop)]
pub struct MemSource {
    bytes: Vec<u8>,
    at: usize,
    most: usize,
    calls: Calls,
    ghost within: { at ≤ vec_len bytes },
    ghost moves: { 0 < most },
}

impl MemSource {
    ghost use Rattle.dx_io.specs.Memory.{no_calls, source_left, source_calls, source_most};

    pub fn new(bytes: Vec<u8>, most: usize, fails: Vec<u64>) -> MemSource
        requires { 0 < most }
        ensures left { source_left result ≡ bytes.items }
        ensures calls { source_calls result ≡ no_calls fails }
        ensures most { source_most result ≡ most }
    {
        MemSource {
            bytes,
            at: 0,
            most,
            calls: Calls::new(fails),
        }
    }
}

impl Source for MemSource {
    ghost use Rattle.dx_io.specs.Memory.{source_left, source_faults, read_fails, read_count, CountsRead};

    ghost left = { λ s. Some (drop s.at s.bytes.items) };

    ghost faults = { λ s. s.calls.faults };

    fn read(&mut self, into: &mut [u8]) -> Result<usize, Failed>
        ensures later { source_faults self.old ≤ source_faults self.new }
        ensures failed { OnErr result (Rose (source_faults self.old) (source_faults self.new)) }
        ensures kept { OnErr result (Some (source_left self.new) ≡ Some (source_left self.old)) }
        ensures fits { IfOk result (λ n. n ≤ length into.old) }
        ensures moved { IfOk result (λ n. Gives (Some (source_left self.old)) (take n into.new) (Some (source_left self.new))) }
        ensures end { IfOk result (λ n. n ≡ 0 → 0 < length into.old → IfSome (Some (source_left self.old)) (λ l. l ≡ [])) }

        // What this source does beside: it fails exactly at the calls that it is told.
        ensures fails { is_err result ≡ read_fails self.old }
        ensures counted { CountsRead self.old (is_err result) self.new }
        ensures count { IfOk result (λ n. n ≡ read_count self.old (length into.old)) }
        ensures untouched { OnErr result (into.new ≡ into.old) }
        ensures behind { IfOk result (λ n. drop n into.new ≡ drop n into.old) }
    {
        self.calls.begin()?;
        let rest = tail(&self.bytes, self.at);
        let n = copy_front(front(rest, self.most), into);
        self.at += n;
        Ok(n)
    }
}

/// The bytes from `at` on.
pub(crate) fn tail(bytes: &[u8], at: usize) -> &[u8]
    requires { at ≤ length bytes.now }
    ensures { result.now ≡ drop at bytes.now }
{
    &bytes[at..]
}

// The first bytes, and at most `most`.
fn front(bytes: &[u8], most: usize) -> &[u8]
    ensures { result.now ≡ take most bytes.now }
{
    &bytes[..most.min(bytes.len())]
}

/// Copies as many bytes as there are and fit, and says how many.
pub(crate) fn copy_front(from: &[u8], into: &mut [u8]) -> usize
    ensures count { result ≡ min (length from.now) (length into.old) }
    ensures copied { take result into.new ≡ take result from.now }
    ensures behind { drop result into.new ≡ drop result into.old }
{
    let n = from.len().min(into.len());
    into[..n].copy_from_slice(&from[..n]);
    n
}
