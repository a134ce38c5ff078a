// The steps of each formula.

ghost use Rattle.std.specs.Prelude.{◌≡◌};
ghost use Rattle.spirv_emit.specs.Steps.{steps_of};

use crate::formula::{Formula, Step, Taken};
use spirv_model::{BinaryCode, UnaryCode};

const A: Taken = Taken::Leaf(0);

const B: Taken = Taken::Leaf(1);

const C: Taken = Taken::Leaf(2);

const D: Taken = Taken::Leaf(3);

const E: Taken = Taken::Leaf(4);

macro_rules! two {
    ($code:ident, $a:expr, $b:expr) => {
        Step::Two(BinaryCode::$code, $a, $b)
    };
}

// B where a is not 0, else c.
const PICK: [Step; 2] = [
    two!(NotEqual, A, Taken::Number(0)),
    Step::Choose(Taken::Made(0), B, C),
];

const SUM: [Step; 1] = [two!(Add, A, B)];

const NEGATIVE: [Step; 1] = [Step::One(UnaryCode::Negate, A)];

const PRODUCT_AND_SUM: [Step; 2] = [two!(Multiply, A, B), two!(Add, Taken::Made(0), C)];

const SIGNED_HIGH: [Step; 2] = [two!(SignedWideMultiply, A, B), Step::High(Taken::Made(0))];

const UNSIGNED_HIGH: [Step; 2] = [two!(WideMultiply, A, B), Step::High(Taken::Made(0))];

const PRODUCT_LOW: [Step; 1] = [two!(Multiply, A, B)];

// All ones where the divisor is 0; the division is by 1 there.
const QUOTIENT: [Step; 4] = [
    two!(Equal, B, Taken::Number(0)),
    Step::Choose(Taken::Made(0), Taken::Number(1), B),
    two!(Divide, A, Taken::Made(1)),
    Step::Choose(Taken::Made(0), Taken::Number(0xffff_ffff), Taken::Made(2)),
];

const REMAINDER: [Step; 4] = [
    two!(Equal, B, Taken::Number(0)),
    Step::Choose(Taken::Made(0), Taken::Number(1), B),
    two!(Modulo, A, Taken::Made(1)),
    Step::Choose(Taken::Made(0), Taken::Number(0xffff_ffff), Taken::Made(2)),
];

const SIGNED_MIN: [Step; 2] = [two!(SignedLess, B, A), Step::Choose(Taken::Made(0), B, A)];

const SIGNED_MAX: [Step; 2] = [two!(SignedLess, A, B), Step::Choose(Taken::Made(0), B, A)];

const UNSIGNED_MIN: [Step; 2] = [two!(Less, A, B), Step::Choose(Taken::Made(0), A, B)];

const UNSIGNED_MAX: [Step; 2] = [two!(Less, A, B), Step::Choose(Taken::Made(0), B, A)];

const BIT_AND: [Step; 1] = [two!(BitAnd, A, B)];

const BIT_OR: [Step; 1] = [two!(BitOr, A, B)];

const BIT_XOR: [Step; 1] = [two!(BitXor, A, B)];

const COMPLEMENT: [Step; 1] = [Step::One(UnaryCode::Complement, A)];

// By the low five bits of b, and so the other shifts.
const SHIFT_LEFT: [Step; 2] = [
    two!(BitAnd, B, Taken::Number(31)),
    two!(ShiftLeft, A, Taken::Made(0)),
];

const SIGNED_SHIFT_RIGHT: [Step; 2] = [
    two!(BitAnd, B, Taken::Number(31)),
    two!(SignedShiftRight, A, Taken::Made(0)),
];

const SHIFT_RIGHT: [Step; 2] = [
    two!(BitAnd, B, Taken::Number(31)),
    two!(ShiftRight, A, Taken::Made(0)),
];

// The field of c that has a bits from bit b on, by two shifts where it ends below bit 32, else by one.
const FIELD: [Step; 14] = [
    two!(BitAnd, A, Taken::Number(31)),
    two!(BitAnd, B, Taken::Number(31)),
    two!(Add, Taken::Made(0), Taken::Made(1)),
    two!(Subtract, Taken::Number(32), Taken::Made(2)),
    two!(BitAnd, Taken::Made(3), Taken::Number(31)),
    two!(ShiftLeft, C, Taken::Made(4)),
    two!(Subtract, Taken::Number(32), Taken::Made(0)),
    two!(BitAnd, Taken::Made(6), Taken::Number(31)),
    two!(ShiftRight, Taken::Made(5), Taken::Made(7)),
    two!(ShiftRight, C, Taken::Made(1)),
    two!(Less, Taken::Made(2), Taken::Number(32)),
    Step::Choose(Taken::Made(10), Taken::Made(8), Taken::Made(9)),
    two!(Equal, Taken::Made(0), Taken::Number(0)),
    Step::Choose(Taken::Made(12), Taken::Number(0), Taken::Made(11)),
];

const SIGNED_FIELD: [Step; 14] = [
    two!(BitAnd, A, Taken::Number(31)),
    two!(BitAnd, B, Taken::Number(31)),
    two!(Add, Taken::Made(0), Taken::Made(1)),
    two!(Subtract, Taken::Number(32), Taken::Made(2)),
    two!(BitAnd, Taken::Made(3), Taken::Number(31)),
    two!(ShiftLeft, C, Taken::Made(4)),
    two!(Subtract, Taken::Number(32), Taken::Made(0)),
    two!(BitAnd, Taken::Made(6), Taken::Number(31)),
    two!(SignedShiftRight, Taken::Made(5), Taken::Made(7)),
    two!(SignedShiftRight, C, Taken::Made(1)),
    two!(Less, Taken::Made(2), Taken::Number(32)),
    Step::Choose(Taken::Made(10), Taken::Made(8), Taken::Made(9)),
    two!(Equal, Taken::Made(0), Taken::Number(0)),
    Step::Choose(Taken::Made(12), Taken::Number(0), Taken::Made(11)),
];

// D with the low a bits of c from bit b on.
const INSERTED: [Step; 10] = [
    two!(BitAnd, A, Taken::Number(31)),
    two!(BitAnd, B, Taken::Number(31)),
    two!(ShiftLeft, Taken::Number(1), Taken::Made(0)),
    two!(Subtract, Taken::Made(2), Taken::Number(1)),
    two!(ShiftLeft, Taken::Made(3), Taken::Made(1)),
    two!(ShiftLeft, C, Taken::Made(1)),
    two!(BitAnd, Taken::Made(5), Taken::Made(4)),
    Step::One(UnaryCode::Complement, Taken::Made(4)),
    two!(BitAnd, D, Taken::Made(7)),
    two!(BitOr, Taken::Made(6), Taken::Made(8)),
];

const BIT_REVERSE: [Step; 1] = [Step::One(UnaryCode::BitReverse, A)];

const BIT_COUNT: [Step; 1] = [Step::One(UnaryCode::BitCount, A)];

const EQUAL: [Step; 2] = [
    two!(Equal, A, B),
    Step::Choose(Taken::Made(0), Taken::Number(0xffff_ffff), Taken::Number(0)),
];

const NOT_EQUAL: [Step; 2] = [
    two!(NotEqual, A, B),
    Step::Choose(Taken::Made(0), Taken::Number(0xffff_ffff), Taken::Number(0)),
];

const SIGNED_GREATER_EQUAL: [Step; 2] = [
    two!(SignedGreaterEqual, A, B),
    Step::Choose(Taken::Made(0), Taken::Number(0xffff_ffff), Taken::Number(0)),
];

const SIGNED_LESS: [Step; 2] = [
    two!(SignedLess, A, B),
    Step::Choose(Taken::Made(0), Taken::Number(0xffff_ffff), Taken::Number(0)),
];

const GREATER_EQUAL: [Step; 2] = [
    two!(GreaterEqual, A, B),
    Step::Choose(Taken::Made(0), Taken::Number(0xffff_ffff), Taken::Number(0)),
];

const LESS: [Step; 2] = [
    two!(Less, A, B),
    Step::Choose(Taken::Made(0), Taken::Number(0xffff_ffff), Taken::Number(0)),
];

const IS_ZERO: [Step; 1] = [two!(Equal, A, Taken::Number(0))];

const IS_NONZERO: [Step; 1] = [two!(NotEqual, A, Taken::Number(0))];

// A constant buffer of b words has the vector a.
const VECTOR_INSIDE: [Step; 2] = [
    two!(Divide, B, Taken::Number(4)),
    two!(Less, A, Taken::Made(0)),
];

// The place of the vector a's component b.
const VECTOR_PLACE: [Step; 2] = [
    two!(Multiply, A, Taken::Number(4)),
    two!(Add, Taken::Made(0), B),
];

// A constant buffer of c words has the vector a + b.
const RELATIVE_INSIDE: [Step; 3] = [
    two!(Add, A, B),
    two!(Divide, C, Taken::Number(4)),
    two!(Less, Taken::Made(0), Taken::Made(1)),
];

// The place of the vector a + b's component c.
const RELATIVE_PLACE: [Step; 3] = [
    two!(Add, A, B),
    two!(Multiply, Taken::Made(0), Taken::Number(4)),
    two!(Add, Taken::Made(1), C),
];

// A view of c words has the b-th word from byte a on. The first comparison is there so that no sum wraps.
const RAW_INSIDE: [Step; 5] = [
    two!(ShiftRight, A, Taken::Number(2)),
    two!(Less, Taken::Made(0), C),
    two!(Add, Taken::Made(0), B),
    two!(Less, Taken::Made(2), C),
    two!(LogicalAnd, Taken::Made(1), Taken::Made(3)),
];

const RAW_PLACE: [Step; 2] = [
    two!(ShiftRight, A, Taken::Number(2)),
    two!(Add, Taken::Made(0), B),
];

// A view of e words has the element a of d words, and that has the c-th word from byte b on.
const STRUCTURED_INSIDE: [Step; 8] = [
    two!(Divide, E, D),
    two!(Less, A, Taken::Made(0)),
    two!(ShiftRight, B, Taken::Number(2)),
    two!(Less, Taken::Made(2), D),
    two!(Add, Taken::Made(2), C),
    two!(Less, Taken::Made(4), D),
    two!(LogicalAnd, Taken::Made(1), Taken::Made(3)),
    two!(LogicalAnd, Taken::Made(6), Taken::Made(5)),
];

const STRUCTURED_PLACE: [Step; 4] = [
    two!(Multiply, A, D),
    two!(ShiftRight, B, Taken::Number(2)),
    two!(Add, Taken::Made(1), C),
    two!(Add, Taken::Made(0), Taken::Made(2)),
];

// A view of c words has the element a of b words.
const TYPED_INSIDE: [Step; 2] = [two!(Divide, C, B), two!(Less, A, Taken::Made(0))];

// The place of the component c of the element a of b words.
const TYPED_PLACE: [Step; 2] = [two!(Multiply, A, B), two!(Add, Taken::Made(0), C)];

// 1 where a view of c words has the element a of b words, else 0.
const TYPED_ONE: [Step; 3] = [
    two!(Divide, C, B),
    two!(Less, A, Taken::Made(0)),
    Step::Choose(Taken::Made(1), Taken::Number(1), Taken::Number(0)),
];

const ONE_LESS: [Step; 1] = [two!(Subtract, A, Taken::Number(1))];

/// The steps of a formula.
pub fn steps(formula: Formula) -> &'static [Step]
    ensures { result.now ≡ steps_of formula }
{
    match formula {
        Formula::Same => &[],
        Formula::Pick => &PICK,
        Formula::Sum => &SUM,
        Formula::Negative => &NEGATIVE,
        Formula::ProductAndSum => &PRODUCT_AND_SUM,
        Formula::SignedHigh => &SIGNED_HIGH,
        Formula::UnsignedHigh => &UNSIGNED_HIGH,
        Formula::ProductLow => &PRODUCT_LOW,
        Formula::Quotient => &QUOTIENT,
        Formula::Remainder => &REMAINDER,
        Formula::SignedMin => &SIGNED_MIN,
        Formula::SignedMax => &SIGNED_MAX,
        Formula::UnsignedMin => &UNSIGNED_MIN,
        Formula::UnsignedMax => &UNSIGNED_MAX,
        Formula::BitAnd => &BIT_AND,
        Formula::BitOr => &BIT_OR,
        Formula::BitXor => &BIT_XOR,
        Formula::Complement => &COMPLEMENT,
        Formula::ShiftLeft => &SHIFT_LEFT,
        Formula::SignedShiftRight => &SIGNED_SHIFT_RIGHT,
        Formula::ShiftRight => &SHIFT_RIGHT,
        Formula::Field => &FIELD,
        Formula::SignedField => &SIGNED_FIELD,
        Formula::Inserted => &INSERTED,
        Formula::BitReverse => &BIT_REVERSE,
        Formula::BitCount => &BIT_COUNT,
        Formula::Equal => &EQUAL,
        Formula::NotEqual => &NOT_EQUAL,
        Formula::SignedGreaterEqual => &SIGNED_GREATER_EQUAL,
        Formula::SignedLess => &SIGNED_LESS,
        Formula::GreaterEqual => &GREATER_EQUAL,
        Formula::Less => &LESS,
        Formula::IsZero => &IS_ZERO,
        Formula::IsNonzero => &IS_NONZERO,
        Formula::VectorInside => &VECTOR_INSIDE,
        Formula::VectorPlace => &VECTOR_PLACE,
        Formula::RelativeInside => &RELATIVE_INSIDE,
        Formula::RelativePlace => &RELATIVE_PLACE,
        Formula::RawInside => &RAW_INSIDE,
        Formula::RawPlace => &RAW_PLACE,
        Formula::StructuredInside => &STRUCTURED_INSIDE,
        Formula::StructuredPlace => &STRUCTURED_PLACE,
        Formula::TypedInside => &TYPED_INSIDE,
        Formula::TypedPlace => &TYPED_PLACE,
        Formula::TypedOne => &TYPED_ONE,
        Formula::OneLess => &ONE_LESS,
    }
}
