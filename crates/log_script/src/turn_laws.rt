ghost use Rattle.std.specs.Prelude.{◌≡◌, ℕ, ◌<◌, Bool, true, false, List, [], ◌∷◌, ◌++◌, None};
ghost use Rattle.std.specs.List.{AllByRecursion};
ghost use Rattle.dx_types.specs.declared.range.Range.{Range};
ghost use Rattle.call_log.specs.Call.{Issued};
ghost use Rattle.vk_types.specs.Hazards.{is_touched};
ghost use Rattle.core_model.specs.Script.{Play, Turn, Item};
ghost use Rattle.core_model.specs.Chunking.{call_of};
ghost use Rattle.core_model.specs.Owners.{in_ranges};
ghost use Rattle.core_model.specs.Lawful.{play_touches, may_bind, ClassFits, ComesNext};
ghost use Rattle.log_script.specs.LogScript.{script_of};

/// Turns are numbered by their calls, and a list's items stand behind one another.
pub fn scripts_number_their_calls()
    ensures numbers { (log : List Issued) (front : List Turn) (t : Turn) (back : List Turn)
        → (script_of log).turns ≡ front ++ t ∷ back → 0 < call_of t }
    ensures calls { (log : List Issued) (front : List Turn) (t u : Turn) (back : List Turn)
        → (script_of log).turns ≡ front ++ t ∷ u ∷ back → ComesNext t u }
{}

/// What a command touches, its item binds; what makes no command binds nothing but where a query skips it.
pub fn scripts_bind_what_they_touch()
    ensures quiet { (log : List Issued) (front : List Turn) (call item : ℕ) (ends : Bool) (play : Play)
        (bound : List Range) (back : List Turn)
        → (script_of log).turns ≡ front ++ Item call item ends play bound ∷ back → may_bind play ≡ false → bound ≡ [] }
    ensures binds { (log : List Issued) (front : List Turn) (call item : ℕ) (ends : Bool) (play : Play)
        (bound : List Range) (back : List Turn)
        → (script_of log).turns ≡ front ++ Item call item ends play bound ∷ back
        → (b i : ℕ) → is_touched (play_touches play) b i ≡ true → in_ranges bound b i ≡ true }
{}

/// A dynamic buffer has a class that holds it, and a staging buffer has none.
pub fn created_buffers_fit_their_classes()
    ensures classes { (log : List Issued) (buffer : ℕ) → ClassFits (script_of log) buffer
        ((script_of log).class buffer) }
    ensures staging { (log : List Issued) (buffer : ℕ) → (script_of log).is_staging buffer ≡ true
        → (script_of log).class buffer ≡ None }
{}
