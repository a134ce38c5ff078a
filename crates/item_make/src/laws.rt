ghost use Rattle.std.specs.Prelude.{◌≡◌, ℕ, suc, true, is_some, List};
ghost use Rattle.call_log.specs.Call.{Issued};
ghost use Rattle.d3d_model.specs.D3dState.{buffer_of};
ghost use Rattle.d3d_model.specs.InOrder.{after_calls};
ghost use Rattle.item_make.specs.Making.{NeverMade, MakesAlone};

/// Laws of the calls that made buffers, of every log: the next call made none yet, and the call that made a live buffer
/// made no other one, live or not.
pub fn buffers_have_makers()
    ensures next { (log : List Issued) (n : ℕ) → NeverMade (after_calls log n).past (suc n) }
    ensures alone { (log : List Issued) (n id : ℕ) → is_some (buffer_of (after_calls log n).objects id) ≡ true
        → MakesAlone (after_calls log n).past id }
{}
