// The merges, and the branches that they wait for.

ghost use Rattle.std.specs.Prelude.{◌≡◌, List, option_map};
ghost use Rattle.spirv_model.specs.Op as instruction_;
ghost use Rattle.spirv_model.specs.View.{shown};
ghost use Rattle.spirv_words.specs.Latest.{latest};
ghost use Rattle.spirv_model.specs.Blocks as blocks;

use spirv_model::{Merge, Op};

/// The merge that waits for its branch behind an instruction.
pub fn pending(before: Option<Op<'_>>) -> Merge
    ensures { (h : List instruction_.Op) → option_map shown before.entry ≡ latest h → result ≡ blocks.pending h }
{
    match before {
        Some(Op::SelectionMerge { .. }) => Merge::OfSelection,
        Some(Op::LoopMerge { .. }) => Merge::OfLoop,
        _ => Merge::NoMerge,
    }
}

/// Whether an instruction may stand directly behind a merge, or behind none.
pub fn takes(merge: Merge, op: Op<'_>) -> bool
    ensures { result ≡ blocks.takes merge (shown op.entry) }
{
    match op {
        Op::BranchConditional { .. } => match merge {
            Merge::NoMerge => false,
            Merge::OfSelection | Merge::OfLoop => true,
        },
        Op::Branch { .. } => match merge {
            Merge::OfSelection => false,
            Merge::NoMerge | Merge::OfLoop => true,
        },
        _ => match merge {
            Merge::NoMerge => true,
            Merge::OfSelection | Merge::OfLoop => false,
        },
    }
}
