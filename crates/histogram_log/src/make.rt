ghost use Rattle.std.specs.Prelude.{◌≡◌, ◌≤◌, IfOk};
ghost use Rattle.std.specs.List.{count_by};
ghost use Rattle.dx_types.specs.declared.limits.TheConstants.{MAX_ROUNDS};
ghost use Rattle.histogram_log.specs.Histogram.{histogram, is_poll};
ghost use Rattle.histogram_log.specs.Logged.{log_of};

use crate::put::{put_closing, put_opening, put_rounds};
use call_log::{put_end, put_header};
use std::alloc::{AllocError, Global};

/// The log of a histogram of 1 to 100,000 rounds, 10,600,592 bytes at most. Each round dispatches 64 threads, each of
/// which adds 1 to one of 256 counters. One round in four discards the values, one in three updates the constant, and
/// one in ten reads back without waiting. The last call reads back all counters.
pub fn gen_log(alloc: Global, rounds: u32) -> Result<Vec<u8>, AllocError>
    requires least { 1 ≤ rounds }
    requires most { rounds ≤ MAX_ROUNDS }
    ensures { IfOk result (λ log. log.items ≡ log_of (histogram rounds)) }
{
    let mut log = Vec::new(alloc);
    put_header(&mut log)?;
    put_opening(alloc, &mut log)?;
    put_rounds(alloc, &mut log, rounds)?;
    put_closing(&mut log)?;
    put_end(&mut log)?;
    Ok(log)
}

/// How many of its calls read back without waiting.
pub fn polls(rounds: u32) -> u32
    ensures { result ≡ count_by is_poll (histogram rounds) }
{
    rounds / 10
}
