// The merges.

/// The merge that waits for its branch.
#[derive(Clone, Copy)]
pub enum Merge {
    NoMerge,
    OfSelection,
    OfLoop,
}
