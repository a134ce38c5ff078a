ghost use Rattle.std.specs.Prelude.{◌≡◌, ℕ, ◌≤◌, ◌++◌, List, length, Some, is_some, true};
ghost use Rattle.dx_types.specs.declared.shape.Shape.{Shape};
ghost use Rattle.call_log.specs.Call.{Issued};
ghost use Rattle.d3d_model.specs.D3dState.{buffer_of};
ghost use Rattle.d3d_model.specs.InOrder.{after_calls};
ghost use Rattle.core_model.specs.Script.{Turn, at_start, in_order};
ghost use Rattle.core_model.specs.Lawful.{FewLive};
ghost use Rattle.log_script.specs.Makers.{maker};
ghost use Rattle.log_script.specs.LogScript.{shape_made, meaning_of, turns_upto, script_of};

/// A buffer is named by the call that created it.
pub fn buffers_are_named_by_their_calls()
    // a live buffer's maker is an earlier call, which created a buffer of this shape
    ensures made { (log : List Issued) (n id : ℕ) (s : Shape) → buffer_of (after_calls log n).objects id ≡ Some s
        → (1 ≤ maker (after_calls log n).past id) × (maker (after_calls log n).past id ≤ n)
        × (shape_made log (maker (after_calls log n).past id) ≡ Some s) }
    // two live buffers have two makers
    ensures apart { (log : List Issued) (n id other : ℕ)
        → is_some (buffer_of (after_calls log n).objects id) ≡ true
        → is_some (buffer_of (after_calls log n).objects other) ≡ true
        → maker (after_calls log n).past id ≡ maker (after_calls log n).past other → id ≡ other }
    // behind the turns of the first calls, the script's live buffers are those that the state has
    ensures live { (log : List Issued) (n : ℕ) → n ≤ length log → (b : ℕ)
        → ((in_order (meaning_of log) (script_of log) (turns_upto log n) at_start).live b ≡ true → (id : ℕ)
        × (is_some (buffer_of (after_calls log n).objects id) ≡ true) × (maker (after_calls log n).past id ≡ b))
        × ((id : ℕ) → is_some (buffer_of (after_calls log n).objects id) ≡ true
        → maker (after_calls log n).past id ≡ b
        → (in_order (meaning_of log) (script_of log) (turns_upto log n) at_start).live b ≡ true) }
{}

/// At most 32 dynamic buffers of a class live, wherever the script is cut.
pub fn few_dynamic_buffers_live()
    ensures { (log : List Issued) (front back : List Turn) → (script_of log).turns ≡ front ++ back
        → FewLive (script_of log) (in_order (meaning_of log) (script_of log) front at_start).live }
{}
