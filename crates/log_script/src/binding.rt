ghost use Rattle.std.specs.Prelude.{◌≡◌, ℕ, ◌+◌, ◌<◌, ◌≤◌, Bool, true, false, List, ◌∷◌, ◌++◌, length, Option, None};
ghost use Rattle.dx_types.specs.declared.range.Range.{Range};
ghost use Rattle.call_log.specs.Call.{Issued};
ghost use Rattle.core_model.specs.Script.{No_overwrite, Bytes, Turn, Asked, Item};
ghost use Rattle.core_model.specs.Lawful.{is_bound, last_binding};
ghost use Rattle.log_script.specs.LogScript.{script_of};

/// The turns of a script bind the bytes that Direct3D takes for bound.
pub fn scripts_know_what_is_bound()
    // a readback names its last use
    ensures uses { (log : List Issued) (front : List Turn) (call : ℕ) (source : Range) (used : Option ℕ)
        (may_pend : Bool) (back : List Turn)
        → (script_of log).turns ≡ front ++ Asked call (Bytes source) used may_pend ∷ back
        → used ≡ last_binding source.block front None }
    // a no-overwrite, by itself or in a list, meets no byte that is bound
    ensures unbound { (log : List Issued) (front : List Turn) (call item : ℕ) (ends : Bool) (buffer from : ℕ)
        (bytes : List ℕ) (bound : List Range) (back : List Turn)
        → (script_of log).turns ≡ front ++ Item call item ends (No_overwrite buffer from bytes) bound ∷ back
        → (i : ℕ) → from ≤ i → i < from + length bytes → is_bound buffer front false i ≡ false }
{}
