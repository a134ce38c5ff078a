// The types of the results of what computes.

ghost use Rattle.std.specs.Prelude.{◌≡◌};
ghost use Rattle.spirv_emit.specs.Code.{one_type, two_type};

use crate::ids::{PAIR_TYPE, TRUTH_TYPE, WORD_TYPE};
use spirv_model::{BinaryCode, UnaryCode};

/// The type of the result of one operand.
pub fn one_type(code: UnaryCode) -> u32
    ensures { result ≡ one_type code }
{
    match code {
        UnaryCode::LogicalNot => TRUTH_TYPE,
        _ => WORD_TYPE,
    }
}

/// The type of the result of two operands.
pub fn two_type(code: BinaryCode) -> u32
    ensures { result ≡ two_type code }
{
    match code {
        BinaryCode::WideMultiply | BinaryCode::SignedWideMultiply => PAIR_TYPE,
        BinaryCode::LogicalAnd
        | BinaryCode::Equal
        | BinaryCode::NotEqual
        | BinaryCode::GreaterEqual
        | BinaryCode::SignedGreaterEqual
        | BinaryCode::Less
        | BinaryCode::SignedLess => TRUTH_TYPE,
        _ => WORD_TYPE,
    }
}
