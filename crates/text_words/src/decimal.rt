ghost use Rattle.std.specs.Prelude.{◌≡◌, ◌<◌, ◌≤◌, ◌^◌, ◌+◌, ◌-◌, ◌*◌, ◌++◌, ℕ, List, [], ◌∷◌, decimal, MatchOption};
ghost use Rattle.std.specs.Bool.{MatchBool};
ghost use Rattle.text_words.specs.Words.{IsRead, GoesOn, StopsAt};

/// The number below 2^64 that stands in front of a text in decimal, without sign or leading zero, and what stands behind it:
/// nothing, or the stop and more.
pub fn u64_to(stop: u8, text: &[u8]) -> Option<(u64, &[u8])>
    requires { stop < 48 }
    ensures { MatchOption result
        ((n : ℕ) (rest : List ℕ) → n < 2 ^ 64 → StopsAt stop rest → text.now ≡ decimal n ++ rest → ⊥)
        (λ r. (r.0 < 2 ^ 64) × StopsAt stop r.1.now × (text.now ≡ decimal r.0 ++ r.1.now)) }
{
    let Some((first, rest)) = next_byte(text) else {
        return None;
    };
    let Some(value) = with_digit(0, first) else {
        return None;
    };
    if value > 0 {
        return digits_to(stop, value, rest);
    }
    if stops_at(stop, rest) {
        return Some((0, rest));
    }
    None
}

// The byte in front, and what stands behind it.
fn next_byte(text: &[u8]) -> Option<(u8, &[u8])>
    ensures { MatchOption result (text.now ≡ []) (λ b. text.now ≡ b.0 ∷ b.1.now) }
{
    match text {
        [first, rest @ ..] => Some((*first, rest)),
        [] => None,
    }
}

// Whether nothing stands here, or the stop in front.
fn stops_at(stop: u8, text: &[u8]) -> bool
    ensures { MatchBool result (StopsAt stop text.now) (StopsAt stop text.now → ⊥) }
{
    match text {
        [first, ..] => *first == stop,
        [] => true,
    }
}

// A number with one more digit behind it; none where the byte is no digit, or the number is too great.
fn with_digit(value: u64, byte: u8) -> Option<u64>
    ensures { MatchOption result
        (48 ≤ byte → byte ≤ 57 → 10 * value + (byte - 48) < 2 ^ 64 → ⊥)
        (λ n. (n < 2 ^ 64) × (48 ≤ byte) × (byte ≤ 57) × (n ≡ 10 * value + (byte - 48))) }
{
    let digit = byte.wrapping_sub(b'0');
    if digit > 9 {
        return None;
    }
    value.checked_mul(10)?.checked_add(u64::from(digit))
}

// What a number goes on to with the digits in front of a text, up to its end or the stop.
fn digits_to(stop: u8, value: u64, text: &[u8]) -> Option<(u64, &[u8])>
    ensures { MatchOption result
        ((n : ℕ) (rest : List ℕ) → n < 2 ^ 64 → GoesOn stop value text.now n rest → ⊥)
        (λ r. (r.0 < 2 ^ 64) × GoesOn stop value text.now r.0 r.1.now) }
{
    let mut number = value;
    let mut rest = text;
    'digits: while let Some((byte, after)) = next_byte(rest) {
        if byte == stop {
            return Some((number, rest));
        }
        let Some(longer) = with_digit(number, byte) else {
            return None;
        };
        number = longer;
        rest = after;
    }
    Some((number, rest))
}

/// Such a number below 2^32.
pub fn u32_to(stop: u8, text: &[u8]) -> Option<(u32, &[u8])>
    requires { stop < 48 }
    ensures { MatchOption result
        ((n : ℕ) (rest : List ℕ) → n < 2 ^ 32 → StopsAt stop rest → text.now ≡ decimal n ++ rest → ⊥)
        (λ r. (r.0 < 2 ^ 32) × StopsAt stop r.1.now × (text.now ≡ decimal r.0 ++ r.1.now)) }
{
    let Some((number, rest)) = u64_to(stop, text) else {
        return None;
    };
    let Ok(number) = u32::try_from(number) else {
        return None;
    };
    Some((number, rest))
}

/// Such a number below 2^16.
pub fn u16_to(stop: u8, text: &[u8]) -> Option<(u16, &[u8])>
    requires { stop < 48 }
    ensures { MatchOption result
        ((n : ℕ) (rest : List ℕ) → n < 2 ^ 16 → StopsAt stop rest → text.now ≡ decimal n ++ rest → ⊥)
        (λ r. (r.0 < 2 ^ 16) × StopsAt stop r.1.now × (text.now ≡ decimal r.0 ++ r.1.now)) }
{
    let Some((number, rest)) = u64_to(stop, text) else {
        return None;
    };
    let Ok(number) = u16::try_from(number) else {
        return None;
    };
    Some((number, rest))
}

/// The number below 2^64 that a word is in decimal, without sign or leading zero.
pub fn read_u64(word: &[u8]) -> Option<u64>
    ensures { IsRead (λ n. n < 2 ^ 64) decimal word.now result }
{
    let Some((number, rest)) = u64_to(b' ', word) else {
        return None;
    };
    if rest.is_empty() { Some(number) } else { None }
}

/// Such a number below 2^32.
pub fn read_u32(word: &[u8]) -> Option<u32>
    ensures { IsRead (λ n. n < 2 ^ 32) decimal word.now result }
{
    u32::try_from(read_u64(word)?).ok()
}

/// Such a number below 256.
pub fn read_u8(word: &[u8]) -> Option<u8>
    ensures { IsRead (λ n. n < 256) decimal word.now result }
{
    u8::try_from(read_u64(word)?).ok()
}
