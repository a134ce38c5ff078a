// How a block ends.

/// At its end, by a break, by a continue, or with the whole invocation.
#[derive(Clone, Copy, PartialEq, Eq, Debug)]
pub enum Way {
    Falls,
    Breaks,
    Continues,
    Ends,
}
