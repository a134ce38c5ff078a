// Straight-line code: what is computed of some words, step by step.

use spirv_model::{BinaryCode, UnaryCode};

/// What a step takes: one of the words that the code begins with, what an earlier step made, or a number.
#[derive(Clone, Copy)]
pub enum Taken {
    Leaf(usize),
    Made(u32),
    Number(u32),
}

/// A step makes one value: of one, of two, the high half of a product, or the first of two where a condition holds.
#[derive(Clone, Copy)]
pub enum Step {
    One(UnaryCode, Taken),
    Two(BinaryCode, Taken, Taken),
    High(Taken),
    Choose(Taken, Taken, Taken),
}

/// What is computed. The value of the last step is the result, or the first word where there is no step.
#[derive(Clone, Copy)]
pub enum Formula {
    Same,
    // arithmetic
    Pick,
    Sum,
    Negative,
    ProductAndSum,
    SignedHigh,
    UnsignedHigh,
    ProductLow,
    Quotient,
    Remainder,
    SignedMin,
    SignedMax,
    UnsignedMin,
    UnsignedMax,
    // bits
    BitAnd,
    BitOr,
    BitXor,
    Complement,
    ShiftLeft,
    SignedShiftRight,
    ShiftRight,
    Field,
    SignedField,
    Inserted,
    BitReverse,
    BitCount,
    // all ones where a comparison holds
    Equal,
    NotEqual,
    SignedGreaterEqual,
    SignedLess,
    GreaterEqual,
    Less,
    // tests, as truths
    IsZero,
    IsNonzero,
    // whether a word of a slot is there, and its place
    VectorInside,
    VectorPlace,
    RelativeInside,
    RelativePlace,
    RawInside,
    RawPlace,
    StructuredInside,
    StructuredPlace,
    TypedInside,
    TypedPlace,
    // 1 where a typed element is there
    TypedOne,
    OneLess,
}
