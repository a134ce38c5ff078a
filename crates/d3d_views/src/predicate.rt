/// A predicated call is skipped where the predicate's result equals the value: never, by a query, whose result is 0, or by
/// the word at byte `offset` of a buffer, whose result is 1 where it isn't 0.
#[derive(Clone, Copy, Debug, PartialEq, Eq)]
pub enum Predicate {
    Never,
    Query { id: u32, value: u32 },
    Word { res: u32, offset: u64, value: u32 },
}
