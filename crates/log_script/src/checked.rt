ghost use Rattle.std.specs.Prelude.{◌≡◌, ℕ, List, Some, None};
ghost use Rattle.std.specs.List.{AllByRecursion};
ghost use Rattle.dx_types.specs.declared.shape.ViewShape.{ViewShape};
ghost use Rattle.call_log.specs.Call.{Issued};
ghost use Rattle.base_lemmas.specs.IdMap.{get};
ghost use Rattle.d3d_model.specs.D3dState.{Numbered, context_of};
ghost use Rattle.d3d_model.specs.InOrder.{verdict_in, after_calls, before_call, call_at};
ghost use Rattle.log_script.specs.Standing.{CallStands, ViewWhole};

/// What was checked of a call that its execution needs holds when it is accepted, and stays true of it while it
/// stands in an open or a live list. The elements of a live view are whole words.
pub fn checked_calls_stand()
    ensures accepted { (log : List Issued) (n : ℕ) (i : Issued) → call_at log n ≡ Some i
        → verdict_in (before_call log n) i ≡ None → CallStands (before_call log n).objects i.call }
    ensures open_lists { (log : List Issued) (n x : ℕ) → AllByRecursion
        (λ c. CallStands (after_calls log n).objects c.call) (context_of (after_calls log n).objects x).recorded }
    ensures live_lists { (log : List Issued) (n id : ℕ) (cs : List Numbered)
        → get (after_calls log n).objects.lists id ≡ Some cs
        → AllByRecursion (λ c. CallStands (after_calls log n).objects c.call) cs }
    ensures views { (log : List Issued) (n id : ℕ) (v : ViewShape)
        → get (after_calls log n).objects.views id ≡ Some v → ViewWhole v }
{}
