// The functions of the plain instructions, in each of four components.

ghost use Rattle.std.specs.Prelude.{◌≡◌, slice_index};
ghost use Rattle.shader_model.specs.Words.{picked};
ghost use Rattle.shader_eval.specs.Actions.{one_of, two_of, three_of, field_in, first_of_pair, second_of_pair};
ghost use Rattle.shader_eval.specs.Lanes.{lanes, each_of_one, each_of_two, each_of_three, each_of_four};

use crate::action::{One, Pair, Three, Two};
use crate::work::{insert, one, pair, three, two};

/// Four components.
pub type Lanes = [u32; 4];

/// The components in the order of a swizzle, two bits each, x lowest.
pub fn swizzled(of: Lanes, swizzle: u8) -> Lanes
    ensures { result ≡ lanes (λ c. slice_index of (picked swizzle c)) }
{
    [
        of[(swizzle % 4) as usize],
        of[(swizzle / 4 % 4) as usize],
        of[(swizzle / 16 % 4) as usize],
        of[(swizzle / 64) as usize],
    ]
}

pub fn each_one(of: One, a: Lanes) -> Lanes
    ensures { result ≡ each_of_one (one_of of) a }
{
    [one(of, a[0]), one(of, a[1]), one(of, a[2]), one(of, a[3])]
}

pub fn each_two(of: Two, a: Lanes, b: Lanes) -> Lanes
    ensures { result ≡ each_of_two (two_of of) a b }
{
    [
        two(of, a[0], b[0]),
        two(of, a[1], b[1]),
        two(of, a[2], b[2]),
        two(of, a[3], b[3]),
    ]
}

pub fn each_three(of: Three, a: Lanes, b: Lanes, c: Lanes) -> Lanes
    ensures { result ≡ each_of_three (three_of of) a b c }
{
    [
        three(of, a[0], b[0], c[0]),
        three(of, a[1], b[1], c[1]),
        three(of, a[2], b[2], c[2]),
        three(of, a[3], b[3], c[3]),
    ]
}

pub fn each_insert(width: Lanes, first: Lanes, a: Lanes, b: Lanes) -> Lanes
    ensures { result ≡ each_of_four field_in width first a b }
{
    [
        insert(width[0], first[0], a[0], b[0]),
        insert(width[1], first[1], a[1], b[1]),
        insert(width[2], first[2], a[2], b[2]),
        insert(width[3], first[3], a[3], b[3]),
    ]
}

/// The components of the first destination, then those of the second.
pub fn each_pair(of: Pair, a: Lanes, b: Lanes) -> (Lanes, Lanes)
    ensures first { result.0 ≡ each_of_two (first_of_pair of) a b }
    ensures second { result.1 ≡ each_of_two (second_of_pair of) a b }
{
    let x = pair(of, a[0], b[0]);
    let y = pair(of, a[1], b[1]);
    let z = pair(of, a[2], b[2]);
    let w = pair(of, a[3], b[3]);
    ([x.0, y.0, z.0, w.0], [x.1, y.1, z.1, w.1])
}
