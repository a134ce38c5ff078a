ghost use Rattle.std.specs.Prelude.{◌≡◌, ℕ, Bool, List, [], ◌∷◌, ◌++◌, false};
ghost use Rattle.dx_types.specs.declared.range.Range.{Range};
ghost use Rattle.core_model.specs.Script.{Play, Turn, Item, Script};
ghost use Rattle.core_model.specs.Chunking.{is_entry, in_list, is_due, is_full, play_retires, play_stages, stops_next};
ghost use Rattle.immediate_ctx.specs.Due.{counted, counts_of, is_due_by, is_full_by, no_counts};

/// Laws of the counts that the recorder keeps of the open chunk: they are those of its turns, turn by turn, and by them the chunk is
/// due exactly where the model's is.
pub fn due_as_in_the_model()
    ensures none { (script : Script) → counts_of script [] ≡ no_counts }
    ensures item { (script : Script) (ts : List Turn) (call item : ℕ) (ends : Bool) (play : Play) (bound : List Range)
        → counts_of script (ts ++ Item call item ends play bound ∷ []) ≡ counted (play_retires script play) (play_stages play) (counts_of script ts) }
    ensures other { (script : Script) (ts : List Turn) (t : Turn) → is_entry t ≡ false
        → counts_of script (ts ++ t ∷ []) ≡ counts_of script ts }
    ensures full { (script : Script) (ts : List Turn) → is_full_by (counts_of script ts) ≡ is_full script ts }
    ensures due { (script : Script) (ts future : List Turn)
        → is_due_by (counts_of script ts) (in_list ts) (stops_next future) ≡ is_due script ts future }
{}
