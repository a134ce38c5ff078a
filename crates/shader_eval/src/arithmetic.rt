// The arithmetic of the instructions on numbers of 32 bits.

ghost use Rattle.std.specs.Prelude.{◌≡◌, ◌<◌, ◌≤◌, count_ones};
ghost use Rattle.std.specs.Int.{reverse_bits, w32};
ghost use Rattle.shader_model.specs.Arithmetic as arithmetic;

/// The number with its sign bit repeated up to 64 bits.
pub fn extended(x: u32) -> u64
    ensures { result ≡ arithmetic.extended x }
{
    if x < 1 << 31 {
        x as u64
    } else {
        x as u64 + 0xffff_ffff_0000_0000
    }
}

/// Whether x is below y as numbers with a sign.
pub fn signed_lt(x: u32, y: u32) -> bool
    ensures { result ≡ arithmetic.signed_lt x y }
{
    x.wrapping_add(1 << 31) < y.wrapping_add(1 << 31)
}

/// All ones where a test holds.
pub fn truth(holds: bool) -> u32
    ensures { result ≡ arithmetic.truth holds }
{
    if holds { 0xffff_ffff } else { 0 }
}

pub fn added(x: u32, y: u32) -> u32
    ensures { result ≡ arithmetic.added x y }
{
    x.wrapping_add(y)
}

pub fn negated(x: u32) -> u32
    ensures { result ≡ arithmetic.negated x }
{
    x.wrapping_neg()
}

pub fn inverted(x: u32) -> u32
    ensures { result ≡ arithmetic.inverted x }
{
    u32::MAX - x
}

/// The quotient, all ones where the divisor is 0.
pub fn quotient(x: u32, y: u32) -> u32
    ensures { result ≡ arithmetic.quotient x y }
{
    if y == 0 { 0xffff_ffff } else { x / y }
}

/// The remainder, all ones where the divisor is 0.
pub fn remainder(x: u32, y: u32) -> u32
    ensures { result ≡ arithmetic.remainder x y }
{
    if y == 0 { 0xffff_ffff } else { x % y }
}

pub fn product_low(x: u32, y: u32) -> u32
    ensures { result ≡ arithmetic.product_low x y }
{
    x.wrapping_mul(y)
}

pub fn signed_min(x: u32, y: u32) -> u32
    ensures { result ≡ arithmetic.signed_min x y }
{
    if signed_lt(y, x) { y } else { x }
}

pub fn signed_max(x: u32, y: u32) -> u32
    ensures { result ≡ arithmetic.signed_max x y }
{
    if signed_lt(x, y) { y } else { x }
}

/// A shift's places: the low five bits.
pub fn five(k: u32) -> u32
    ensures value { result ≡ arithmetic.five k }
    ensures within { result < 32 }
{
    k % 32
}

pub fn right(x: u32, k: u32) -> u32
    requires { k < 32 }
    ensures { result ≡ arithmetic.right x k }
{
    x >> k
}

pub fn multiplied_and_added(x: u32, y: u32, z: u32) -> u32
    ensures { result ≡ arithmetic.multiplied_and_added x y z }
{
    x.wrapping_mul(y).wrapping_add(z)
}

/// The high half of the product of numbers without a sign.
pub fn unsigned_high(x: u32, y: u32) -> u32
    ensures { result ≡ arithmetic.unsigned_high x y }
{
    ((x as u64 * y as u64) >> 32) as u32
}

/// The high half of the product of numbers with a sign.
pub fn signed_high(x: u32, y: u32) -> u32
    ensures { result ≡ arithmetic.signed_high x y }
{
    (extended(x).wrapping_mul(extended(y)) >> 32) as u32
}

pub fn left(x: u32, k: u32) -> u32
    requires { k < 32 }
    ensures { result ≡ arithmetic.left x k }
{
    x << k
}

/// A shift to the right that keeps the sign.
pub fn signed_right(x: u32, k: u32) -> u32
    requires { k < 32 }
    ensures { result ≡ arithmetic.signed_right x k }
{
    ((extended(x) >> k) % (1 << 32)) as u32
}

/// The field of v that has w bits from bit o on.
pub fn unsigned_field(w: u32, o: u32, v: u32) -> u32
    requires w_in { w < 32 }
    requires o_in { o < 32 }
    ensures { result ≡ arithmetic.field arithmetic.right w o v }
{
    if w == 0 {
        0
    } else if w + o < 32 {
        right(left(v, 32 - (w + o)), 32 - w)
    } else {
        right(v, o)
    }
}

/// The field of v that has w bits from bit o on, with its sign repeated.
pub fn signed_field(w: u32, o: u32, v: u32) -> u32
    requires w_in { w < 32 }
    requires o_in { o < 32 }
    ensures { result ≡ arithmetic.field arithmetic.signed_right w o v }
{
    if w == 0 {
        0
    } else if w + o < 32 {
        signed_right(left(v, 32 - (w + o)), 32 - w)
    } else {
        signed_right(v, o)
    }
}

/// b with a's low bits in the field that has w bits from bit o on.
pub fn inserted(w: u32, o: u32, a: u32, b: u32) -> u32
    requires w_in { w < 32 }
    requires o_in { o < 32 }
    ensures { result ≡ arithmetic.inserted w o a b }
{
    let mask = left((1 << w) - 1, o);
    left(a, o) & mask | b & inverted(mask)
}

/// The bits in the other order.
pub fn reversed(x: u32) -> u32
    ensures { result ≡ reverse_bits w32 x }
{
    x.reverse_bits()
}

/// How many bits are set.
pub fn ones(x: u32) -> u32
    ensures { result ≡ count_ones x }
{
    x.count_ones()
}
