// What the instructions on values give.

ghost use Rattle.std.specs.Prelude.{◌≡◌, option_map, Some};
ghost use Rattle.shader_model.specs.Arithmetic as numbers;
ghost use Rattle.spirv_model.specs.declared.code.BinaryCode.TheVariants as binary;
ghost use Rattle.spirv_model.specs.Meaning.Values as model;
ghost use Rattle.spirv_run.specs.Held.{shown};

use crate::value::Value;
use shader_eval::arithmetic;
use spirv_model::{AtomicCode, BinaryCode, UnaryCode};

fn of_word(code: UnaryCode, x: u32) -> Option<Value>
    ensures { option_map shown result ≡ model.of_word code x }
{
    match code {
        UnaryCode::Negate => Some(Value::Word(arithmetic::negated(x))),
        UnaryCode::Complement => Some(Value::Word(arithmetic::inverted(x))),
        UnaryCode::BitReverse => Some(Value::Word(arithmetic::reversed(x))),
        UnaryCode::BitCount => Some(Value::Word(arithmetic::ones(x))),
        UnaryCode::LogicalNot => None,
    }
}

fn of_truth(code: UnaryCode, x: bool) -> Option<Value>
    ensures { option_map shown result ≡ model.of_truth code x }
{
    match code {
        UnaryCode::LogicalNot => Some(Value::Truth(!x)),
        UnaryCode::Negate | UnaryCode::Complement | UnaryCode::BitReverse | UnaryCode::BitCount =>
            None,
    }
}

/// A result of one operand.
pub fn of_one(code: UnaryCode, a: Option<Value>) -> Option<Value>
    ensures { option_map shown result ≡ model.of_one code (option_map shown a) }
{
    match a {
        Some(Value::Word(x)) => of_word(code, x),
        Some(Value::Truth(x)) => of_truth(code, x),
        _ => None,
    }
}

/// A quotient or a remainder; a division by 0 is undefined.
fn divided(x: u32, y: u32) -> Option<Value>
    ensures { option_map shown result ≡ model.divided x y }
{
    if y == 0 {
        None
    } else {
        Some(Value::Word(x / y))
    }
}

fn remaining(x: u32, y: u32) -> Option<Value>
    ensures { option_map shown result ≡ model.remaining x y }
{
    if y == 0 {
        None
    } else {
        Some(Value::Word(x % y))
    }
}

/// Shifts; one by 32 or more is undefined.
fn right(x: u32, places: u32) -> Option<Value>
    ensures { option_map shown result ≡ model.of_words binary.ShiftRight x places }
{
    if places < 32 {
        Some(Value::Word(arithmetic::right(x, places)))
    } else {
        None
    }
}

fn signed_right(x: u32, places: u32) -> Option<Value>
    ensures { option_map shown result ≡ model.of_words binary.SignedShiftRight x places }
{
    if places < 32 {
        Some(Value::Word(arithmetic::signed_right(x, places)))
    } else {
        None
    }
}

fn left(x: u32, places: u32) -> Option<Value>
    ensures { option_map shown result ≡ model.of_words binary.ShiftLeft x places }
{
    if places < 32 {
        Some(Value::Word(arithmetic::left(x, places)))
    } else {
        None
    }
}

/// Both halves of a product without signs, and with them.
fn wide(x: u32, y: u32) -> Value
    ensures { shown result ≡ model.Halves (numbers.product_low x y) (numbers.unsigned_high x y) }
{
    Value::Halves(
        arithmetic::product_low(x, y),
        arithmetic::unsigned_high(x, y),
    )
}

fn signed_wide(x: u32, y: u32) -> Value
    ensures { shown result ≡ model.Halves (numbers.product_low x y) (numbers.signed_high x y) }
{
    Value::Halves(arithmetic::product_low(x, y), arithmetic::signed_high(x, y))
}

fn of_words(code: BinaryCode, x: u32, y: u32) -> Option<Value>
    ensures { option_map shown result ≡ model.of_words code x y }
{
    match code {
        BinaryCode::Add => Some(Value::Word(arithmetic::added(x, y))),
        BinaryCode::Subtract => {
            let negated = arithmetic::negated(y);
            Some(Value::Word(arithmetic::added(x, negated)))
        }
        BinaryCode::Multiply => Some(Value::Word(arithmetic::product_low(x, y))),
        BinaryCode::Divide => divided(x, y),
        BinaryCode::Modulo => remaining(x, y),
        BinaryCode::WideMultiply => Some(wide(x, y)),
        BinaryCode::SignedWideMultiply => Some(signed_wide(x, y)),
        BinaryCode::LogicalAnd => None,
        BinaryCode::Equal => Some(Value::Truth(x == y)),
        BinaryCode::NotEqual => Some(Value::Truth(x != y)),
        BinaryCode::GreaterEqual => Some(Value::Truth(x >= y)),
        BinaryCode::SignedGreaterEqual => Some(Value::Truth(!arithmetic::signed_lt(x, y))),
        BinaryCode::Less => Some(Value::Truth(x < y)),
        BinaryCode::SignedLess => Some(Value::Truth(arithmetic::signed_lt(x, y))),
        BinaryCode::ShiftRight => right(x, y),
        BinaryCode::SignedShiftRight => signed_right(x, y),
        BinaryCode::ShiftLeft => left(x, y),
        BinaryCode::BitOr => Some(Value::Word(x | y)),
        BinaryCode::BitXor => Some(Value::Word(x ^ y)),
        BinaryCode::BitAnd => Some(Value::Word(x & y)),
    }
}

fn of_truths(code: BinaryCode, x: bool, y: bool) -> Option<Value>
    ensures { option_map shown result ≡ model.of_truths code x y }
{
    if matches!(&code, BinaryCode::LogicalAnd) {
        Some(Value::Truth(x && y))
    } else {
        None
    }
}

/// A result of two operands.
pub fn of_two(code: BinaryCode, a: Option<Value>, b: Option<Value>) -> Option<Value>
    ensures { option_map shown result ≡ model.of_two code (option_map shown a) (option_map shown b) }
{
    match (a, b) {
        (Some(Value::Word(x)), Some(Value::Word(y))) => of_words(code, x, y),
        (Some(Value::Truth(x)), Some(Value::Truth(y))) => of_truths(code, x, y),
        _ => None,
    }
}

/// The first where the condition holds, else the second.
pub fn selected(condition: Option<Value>, a: Option<Value>, b: Option<Value>) -> Option<Value>
    ensures { option_map shown result ≡ model.selected (option_map shown condition) (option_map shown a) (option_map shown b) }
{
    match (condition, a, b) {
        (Some(Value::Truth(holds)), Some(a), Some(b)) => Some(if holds { a } else { b }),
        _ => None,
    }
}

/// A component of a vector, or a half of a product.
pub fn component(index: u32, composite: Option<Value>) -> Option<Value>
    ensures { option_map shown result ≡ model.component index (option_map shown composite) }
{
    match composite {
        Some(Value::Vector(x, y, z)) => component_of(index, x, y, z),
        Some(Value::Halves(low, high)) => half_of(index, low, high),
        _ => None,
    }
}

fn component_of(index: u32, x: u32, y: u32, z: u32) -> Option<Value>
    ensures { option_map shown result ≡ model.component index (Some (model.Vector x y z)) }
{
    match index {
        0 => Some(Value::Word(x)),
        1 => Some(Value::Word(y)),
        2 => Some(Value::Word(z)),
        _ => None,
    }
}

fn half_of(index: u32, low: u32, high: u32) -> Option<Value>
    ensures { option_map shown result ≡ model.component index (Some (model.Halves low high)) }
{
    match index {
        0 => Some(Value::Word(low)),
        1 => Some(Value::Word(high)),
        _ => None,
    }
}

fn left_by(code: AtomicCode, old: u32, operand: u32) -> u32
    ensures { result ≡ model.left_by code old operand }
{
    match code {
        AtomicCode::Exchange => operand,
        AtomicCode::Add => arithmetic::added(old, operand),
        AtomicCode::SignedMin => arithmetic::signed_min(old, operand),
        AtomicCode::UnsignedMin => old.min(operand),
        AtomicCode::SignedMax => arithmetic::signed_max(old, operand),
        AtomicCode::UnsignedMax => old.max(operand),
        AtomicCode::And => old & operand,
        AtomicCode::Or => old | operand,
        AtomicCode::Xor => old ^ operand,
    }
}

/// What an atomic instruction leaves of the old word, where its operand is a word.
pub fn new_word(code: AtomicCode, operand: Option<Value>, old: u32) -> Option<u32>
    ensures { result ≡ model.new_word code (option_map shown operand) old }
{
    match operand {
        Some(Value::Word(operand)) => Some(left_by(code, old, operand)),
        _ => None,
    }
}

/// What a compare and exchange leaves of the old word, where its operands are words.
pub fn new_if_equal(operand: Option<Value>, comparator: Option<Value>, old: u32) -> Option<u32>
    ensures { result ≡ model.new_if_equal (option_map shown operand) (option_map shown comparator) old }
{
    match (operand, comparator) {
        (Some(Value::Word(operand)), Some(Value::Word(comparator))) => {
            Some(if old == comparator { operand } else { old })
        }
        _ => None,
    }
}
