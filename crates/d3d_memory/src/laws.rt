ghost use Rattle.std.specs.Prelude.{◌+◌, ◌≤◌, ℕ, List, length};
ghost use Rattle.call_log.specs.Grammar.{Frame, IsLog, calls_of};
ghost use Rattle.d3d_model.specs.InOrder.{before_call};
ghost use Rattle.d3d_memory.specs.Limits.{InLimits};
ghost use Rattle.dx_types.specs.declared.limits.TheConstants.{MAX_INPUT};

/// Each call of a log of at most 67,108,864 bytes meets a memory within the limits that `accept` asks for, and so does what
/// comes behind the last call.
pub fn logs_stay_in_limits()
    ensures { (bytes : List ℕ) (frames : List Frame) (n : ℕ) → IsLog bytes frames → length bytes ≤ MAX_INPUT → n ≤ length frames + 1
        → InLimits (before_call (calls_of frames) n).memory }
{}
