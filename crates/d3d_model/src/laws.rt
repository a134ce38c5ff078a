ghost use Rattle.std.specs.Prelude.{◌≡◌, ℕ, ◌≤◌, List, length, Option, Some};
ghost use Rattle.std.specs.Option.{option_map};
ghost use Rattle.dx_types.specs.declared.refusal.Refusal.{Refusal};
ghost use Rattle.call_log.specs.Call.{Issued};
ghost use Rattle.base_lemmas.specs.IdMap.{get};
ghost use Rattle.d3d_model.specs.Resource.{live_bytes, live_dynamic};
ghost use Rattle.d3d_model.specs.InOrder.{State, verdict_in, after_call, after_calls};
ghost use Rattle.dx_types.specs.declared.limits.TheConstants.{MAX_DYNAMIC_OF_CLASS, MAX_LIVE_BYTES};

/// A call that is refused changes nothing.
pub fn refused_calls_leave_the_state()
    ensures { (n : ℕ) (s : State) (i : Issued) (why : Refusal) → verdict_in s i ≡ Some why → after_call n s (Some i) ≡ s }
{}

/// After each call, the buffers that are live are those that have bytes, and each has as many as its size.
pub fn live_buffers_have_their_bytes()
    ensures { (log : List Issued) (n id : ℕ)
        → option_map (λ bytes. length bytes) (get (after_calls log n).memory.bytes id) ≡ option_map (λ s. s.size) (get (after_calls log n).objects.buffers id) }
{}

/// After each call, the sizes of all live buffers are at most 268,435,456 together, and at most 32 dynamic buffers of a
/// class are live.
pub fn live_buffers_are_in_limits()
    ensures bytes { (log : List Issued) (n : ℕ) → live_bytes (after_calls log n).objects.buffers ≤ MAX_LIVE_BYTES }
    ensures dynamic { (log : List Issued) (n class : ℕ) → live_dynamic (after_calls log n).objects.buffers class ≤ MAX_DYNAMIC_OF_CLASS }
{}
