// The function of the entry point.

ghost use Rattle.std.specs.Prelude.{◌≡◌, List, ◌∷◌};
ghost use Rattle.spirv_model.specs.Op as instruction_;
ghost use Rattle.spirv_model.specs.View.{shown};
ghost use Rattle.spirv_model.specs.History.{is_id};
ghost use Rattle.spirv_words.specs.Kept.{HasEntry};

use spirv_model::Op;

/// The function of the latest entry point, behind an instruction more.
pub fn entry_after(before: Option<u32>, op: Op<'_>) -> Option<u32>
    ensures { (h : List instruction_.Op) → HasEntry before h → HasEntry result (shown op.entry ∷ h) }
{
    match op {
        Op::EntryPoint { function, .. } => Some(function),
        _ => before,
    }
}

/// Whether an id is this one.
pub fn is_id(id: u32, other: Option<u32>) -> bool
    ensures { result ≡ is_id id other }
{
    match other {
        Some(other) => other == id,
        None => false,
    }
}
