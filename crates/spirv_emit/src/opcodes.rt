// The formulas of the instructions, by their opcodes.

ghost use Rattle.std.specs.Prelude.{◌≡◌};
ghost use Rattle.spirv_emit.specs.Opcodes.{first_formula, second_formula, atomic_of};

use crate::formula::Formula;
use spirv_model::AtomicCode;

/// What an instruction that computes gives its first destination.
pub fn first_formula(opcode: u8) -> Formula
    ensures { result ≡ first_formula opcode }
{
    match opcode {
        17 => Formula::Pick,
        18 => Formula::Sum,
        19 => Formula::Negative,
        20 => Formula::ProductAndSum,
        21 => Formula::SignedHigh,
        22 => Formula::UnsignedHigh,
        23 => Formula::Quotient,
        24 => Formula::SignedMin,
        25 => Formula::SignedMax,
        26 => Formula::UnsignedMin,
        27 => Formula::UnsignedMax,
        28 => Formula::BitAnd,
        29 => Formula::BitOr,
        30 => Formula::BitXor,
        31 => Formula::Complement,
        32 => Formula::ShiftLeft,
        33 => Formula::SignedShiftRight,
        34 => Formula::ShiftRight,
        35 => Formula::Equal,
        36 => Formula::NotEqual,
        37 => Formula::SignedGreaterEqual,
        38 => Formula::SignedLess,
        39 => Formula::GreaterEqual,
        40 => Formula::Less,
        41 => Formula::Field,
        42 => Formula::SignedField,
        43 => Formula::Inserted,
        44 => Formula::BitReverse,
        45 => Formula::BitCount,
        _ => Formula::Same,
    }
}

/// What it gives its second destination.
pub fn second_formula(opcode: u8) -> Formula
    ensures { result ≡ second_formula opcode }
{
    match opcode {
        23 => Formula::Remainder,
        _ => Formula::ProductLow,
    }
}

/// What an atomic instruction does with the word.
pub fn atomic_of(opcode: u8) -> AtomicCode
    ensures { result ≡ atomic_of opcode }
{
    match opcode {
        56 => AtomicCode::Add,
        57 => AtomicCode::And,
        58 => AtomicCode::Or,
        59 => AtomicCode::Xor,
        60 => AtomicCode::SignedMin,
        61 => AtomicCode::SignedMax,
        62 => AtomicCode::UnsignedMin,
        63 => AtomicCode::UnsignedMax,
        _ => AtomicCode::Exchange,
    }
}
