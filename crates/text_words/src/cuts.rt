ghost use Rattle.std.specs.Prelude.{◌≡◌, ℕ, List, ◌∷◌, ◌++◌, MatchOption};
ghost use Rattle.text_words.specs.Words.{Cut};

use memchr::memchr;

/// The bytes before the first `stop`, and those from it on.
pub fn cut(text: &[u8], stop: u8) -> (&[u8], &[u8])
    ensures { Cut stop text.now result.0.now result.1.now }
{
    match memchr(stop, text) {
        Some(at) => text.split_at(at),
        None => text.split_at(text.len()),
    }
}

/// What stands behind a byte in front; none where another byte stands there, or nothing.
pub fn behind(byte: u8, text: &[u8]) -> Option<&[u8]>
    ensures { MatchOption result ((rest : List ℕ) → text.now ≡ byte ∷ rest → ⊥) (λ rest. text.now ≡ byte ∷ rest.now) }
{
    match text {
        [first, rest @ ..] if *first == byte => Some(rest),
        _ => None,
    }
}

/// The line that stands in front, without its line feed, and what stands behind that; none where no line ends.
pub fn next_line(text: &[u8]) -> Option<(&[u8], &[u8])>
    ensures { MatchOption result ((line more : List ℕ) → text.now ≡ line ++ 10 ∷ more → ⊥) (λ l. Cut 10 text.now l.0.now (10 ∷ l.1.now)) }
{
    let (line, ended) = cut(text, b'\n');
    match behind(b'\n', ended) {
        Some(after) => Some((line, after)),
        None => None,
    }
}
