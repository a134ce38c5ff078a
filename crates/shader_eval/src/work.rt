// The functions of the plain instructions, each of one component.

ghost use Rattle.std.specs.Prelude.{◌≡◌};
ghost use Rattle.shader_eval.specs.Actions.{one_of, two_of, three_of, field_in, first_of_pair, second_of_pair};

use crate::action::{One, Pair, Three, Two};
use crate::arithmetic::{
    added, five, inserted, inverted, left, multiplied_and_added, negated, ones, product_low,
    quotient, remainder, reversed, right, signed_field, signed_high, signed_lt, signed_max,
    signed_min, signed_right, truth, unsigned_field, unsigned_high,
};

pub fn one(of: One, x: u32) -> u32
    ensures { result ≡ one_of of x }
{
    match of {
        One::Mov => x,
        One::Ineg => negated(x),
        One::Not => inverted(x),
        One::Bfrev => reversed(x),
        One::Countbits => ones(x),
    }
}

pub fn two(of: Two, x: u32, y: u32) -> u32
    ensures { result ≡ two_of of x y }
{
    match of {
        Two::Iadd => added(x, y),
        Two::Imin => signed_min(x, y),
        Two::Imax => signed_max(x, y),
        Two::Umin => x.min(y),
        Two::Umax => x.max(y),
        Two::And => x & y,
        Two::Or => x | y,
        Two::Xor => x ^ y,
        Two::Ishl => left(x, five(y)),
        Two::Ishr => signed_right(x, five(y)),
        Two::Ushr => right(x, five(y)),
        Two::Ieq => truth(x == y),
        Two::Ine => truth(x != y),
        Two::Ige => truth(!signed_lt(x, y)),
        Two::Ilt => truth(signed_lt(x, y)),
        Two::Uge => truth(x >= y),
        Two::Ult => truth(x < y),
    }
}

pub fn three(of: Three, x: u32, y: u32, z: u32) -> u32
    ensures { result ≡ three_of of x y z }
{
    match of {
        Three::Movc => { if x == 0 { z } else { y } }
        Three::Imad => multiplied_and_added(x, y, z),
        Three::Ubfe => unsigned_field(five(x), five(y), z),
        Three::Ibfe => signed_field(five(x), five(y), z),
    }
}

/// b with a's low bits in the field of the width and the first bit that two numbers' low five bits are.
pub fn insert(width: u32, first: u32, a: u32, b: u32) -> u32
    ensures { result ≡ field_in width first a b }
{
    inserted(five(width), five(first), a, b)
}

/// The value of the first destination, then that of the second.
pub fn pair(of: Pair, x: u32, y: u32) -> (u32, u32)
    ensures first { result.0 ≡ first_of_pair of x y }
    ensures second { result.1 ≡ second_of_pair of x y }
{
    match of {
        Pair::Imul => (signed_high(x, y), product_low(x, y)),
        Pair::Umul => (unsigned_high(x, y), product_low(x, y)),
        Pair::Udiv => (quotient(x, y), remainder(x, y)),
    }
}
