// The instructions of a module as the machine runs them.

ghost use Rattle.std.specs.Prelude.{◌≡◌};
ghost use Rattle.spirv_run.specs.Steps.{end_of};

use crate::value::Pointer;
use spirv_model::{AtomicCode, BinaryCode, UnaryCode};

/// Where a result comes from: each `u32` that is no literal is an id.
#[derive(Clone, Copy)]
pub enum Source {
    Constant(u32),
    /// A variable outside of the function.
    Outer(Pointer),
    Load(u32),
    /// An access chain with one index.
    Member { base: u32, index: u32 },
    /// An access chain with two indexes.
    Element { base: u32, member: u32, index: u32 },
    Component { composite: u32, index: u32 },
    Unary(UnaryCode, u32),
    Binary(BinaryCode, u32, u32),
    Select { condition: u32, a: u32, b: u32 },
}

/// An instruction with what it names looked up: a branch has the places of the table that it leads to, and a variable
/// outside of the function what it points to.
#[derive(Clone, Copy)]
pub enum Step {
    Nothing,
    /// An instruction that has no outcome.
    Stuck,
    Return,
    Give {
        id: u32,
        source: Source,
    },
    /// A variable of the function.
    Variable {
        id: u32,
        first_value: Option<u32>,
    },
    Store {
        pointer: u32,
        value: u32,
    },
    Atomic {
        code: AtomicCode,
        id: u32,
        pointer: u32,
        value: u32,
    },
    CompareExchange {
        id: u32,
        pointer: u32,
        value: u32,
        comparator: u32,
    },
    Jump {
        to: usize,
    },
    Choose {
        condition: u32,
        yes: usize,
        no: usize,
    },
}

/// Where a step leads: to a place of the table, to the end of the invocation, or nowhere, since it has no outcome.
#[derive(Clone, Copy)]
pub enum Next {
    On(usize),
    Done,
    Stuck,
}

/// The number behind the id that a step makes, 0 where it makes none.
pub fn end_of(step: Step) -> usize
    ensures { result ≡ end_of step }
{
    match step {
        Step::Give { id, .. }
        | Step::Variable { id, .. }
        | Step::Atomic { id, .. }
        | Step::CompareExchange { id, .. } => id as usize + 1,
        Step::Nothing
        | Step::Stuck
        | Step::Return
        | Step::Store { .. }
        | Step::Jump { .. }
        | Step::Choose { .. } => 0,
    }
}
