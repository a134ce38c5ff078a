// Pieces of an instruction: a variable's new value, or an access to a word of a slot where that is there.

use crate::formula::Formula;
use dx_types::Form;
use spirv_model::AtomicCode;

/// A vector that is built in.
#[derive(Clone, Copy)]
pub enum Vector {
    Group,
    Thread,
    Global,
}

/// A word that code begins with: a number, a variable of the function, the length in words of a binding's slot, a
/// component of a built-in vector, or the place of the thread in its group.
#[derive(Clone, Copy)]
pub enum Leaf {
    Number(u32),
    Variable(u32),
    Length(u32),
    Component(Vector, u32),
    Flattened,
}

/// A formula with its words. Those that it doesn't take are the number 0.
#[derive(Clone, Copy)]
pub struct Calculation {
    pub leaves: [Leaf; 5],
    pub formula: Formula,
}

/// What is done with a word of a slot: its value goes to a variable; a leaf's value is written; an atomic operation, or
/// one where the word equals another, with the old word to a variable.
#[derive(Clone, Copy)]
pub enum Action {
    Fetch(u32),
    Write(Leaf),
    Change(AtomicCode, Leaf, u32),
    Swap {
        value: Leaf,
        comparator: Leaf,
        variable: u32,
    },
}

/// A step of an instruction. Where a word isn't there, an access gives 0 to its variable, and nothing is written.
#[derive(Clone, Copy)]
pub enum Piece {
    Assign {
        variable: u32,
        value: Calculation,
    },
    Reach {
        inside: Calculation,
        binding: u32,
        place: Calculation,
        action: Action,
    },
}

/// A view by its binding, with the address or element and the offset of an access.
#[derive(Clone, Copy)]
pub struct Spot {
    pub binding: u32,
    pub form: Form,
    pub parameter: u32,
    pub address: Leaf,
    pub offset: Leaf,
}
