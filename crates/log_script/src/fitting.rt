ghost use Rattle.std.specs.Prelude.{◌≡◌, ℕ, ◌<◌, Bool, List, ◌∷◌, ◌++◌, Some};
ghost use Rattle.std.specs.List.{AllByRecursion};
ghost use Rattle.dx_types.specs.declared.range.Range.{Range};
ghost use Rattle.dx_types.specs.declared.shape.Shape.{Shape};
ghost use Rattle.dx_types.specs.declared.shape.ViewShape.{ViewShape};
ghost use Rattle.call_log.specs.Call.{Issued};
ghost use Rattle.base_lemmas.specs.IdMap.{get};
ghost use Rattle.d3d_model.specs.View.{view_range};
ghost use Rattle.d3d_model.specs.Binding.{default_bindings};
ghost use Rattle.d3d_model.specs.D3dState.{Numbered, buffer_of, context_of, bindings_of};
ghost use Rattle.d3d_model.specs.InOrder.{before_call, after_calls};
ghost use Rattle.d3d_model.specs.Uses.{bound};
ghost use Rattle.core_model.specs.Script.{Play, Turn, Item};
ghost use Rattle.core_model.specs.Lawful.{play_touches};
ghost use Rattle.log_script.specs.Fitting.{LivesAndFits, SetFits, ListFits, ViewsApart};
ghost use Rattle.log_script.specs.FittingTurns.{TurnFits};
ghost use Rattle.log_script.specs.LogScript.{shape_made, script_of};
ghost use Rattle.log_script.specs.Turns.{turns_of};

/// Whatever a call binds, by itself or through the list that it executes, lies in buffers that live when it comes.
/// What is set on each context stays inside live objects, and each call of an open or a live list binds such bytes,
/// on the bindings that it meets there. Each live buffer has a byte, and each live view lies in a live buffer. A
/// buffer that is set for unordered access is set in no other view slot.
pub fn bound_bytes_live_and_fit()
    ensures bound { (log : List Issued) (n : ℕ) → AllByRecursion (LivesAndFits (before_call log n).objects)
        (bound log n) }
    ensures set { (log : List Issued) (n x : ℕ) → SetFits (after_calls log n).objects
        (bindings_of (after_calls log n).objects x) }
    ensures open_lists { (log : List Issued) (n x : ℕ)
        → ListFits (after_calls log n).objects default_bindings (context_of (after_calls log n).objects x).recorded }
    ensures live_lists { (log : List Issued) (n id : ℕ) (cs : List Numbered)
        → get (after_calls log n).objects.lists id ≡ Some cs
        → ListFits (after_calls log n).objects default_bindings cs }
    ensures views { (log : List Issued) (n id : ℕ) (v : ViewShape)
        → get (after_calls log n).objects.views id ≡ Some v → LivesAndFits (after_calls log n).objects (view_range v) }
    ensures apart { (log : List Issued) (n x : ℕ) → ViewsApart (bindings_of (after_calls log n).objects x) }
    ensures buffers { (log : List Issued) (n id : ℕ) (s : Shape) → buffer_of (after_calls log n).objects id ≡ Some s
        → 0 < s.size }
{}

/// Each turn of a call binds bytes of buffers that live when the call comes, and has the host write and read inside
/// such buffers alone; a creation's first bytes are no more than the buffer has. It names a buffer by the call that
/// created it. Each range that it touches has a byte.
pub fn turns_fit_live_buffers()
    ensures turns { (log : List Issued) (n : ℕ) → AllByRecursion (TurnFits (before_call log n) n (shape_made log n))
        (turns_of log n) }
    ensures filled { (log : List Issued) (front : List Turn) (call item : ℕ) (ends : Bool) (play : Play)
        (bound : List Range) (back : List Turn)
        → (script_of log).turns ≡ front ++ Item call item ends play bound ∷ back
        → AllByRecursion (λ t. t.range.from < t.range.to) (play_touches play) }
{}
