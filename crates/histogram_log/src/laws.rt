ghost use Rattle.std.specs.Prelude.{◌≡◌, ◌≤◌, ℕ, length};
ghost use Rattle.call_log.specs.Grammar.{IsLog, calls_of};
ghost use Rattle.dx_types.specs.declared.limits.TheConstants.{MAX_INPUT, MAX_ROUNDS};
ghost use Rattle.histogram_log.specs.Histogram.{histogram};
ghost use Rattle.histogram_log.specs.Logged.{frames, issued_calls, log_of};

/// The log of a histogram has its calls, all on the immediate context, and no other, and is short enough to be played.
pub fn histograms_are_logs()
    ensures log { (n : ℕ) → IsLog (log_of (histogram n)) (frames (histogram n)) }
    ensures calls { (n : ℕ) → calls_of (frames (histogram n)) ≡ issued_calls (histogram n) }
    ensures short { (n : ℕ) → n ≤ MAX_ROUNDS → length (log_of (histogram n)) ≤ MAX_INPUT }
{}
