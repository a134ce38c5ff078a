//! The words of a line, and the parts of a word.

ghost use Rattle.std.specs.Prelude.{◌≡◌, ℕ, List, [], ◌∷◌, IsTrue, true, false, MatchOption};
ghost use Rattle.std.specs.Bool.{MatchBool};
ghost use Rattle.vk_trace.specs.Reading.{split, left_words};
ghost use Rattle.text_words.specs.Words.{Cut};

use std::marker::Model;
use text_words::{behind, cut};

/// Whether a word is this one.
pub(crate) fn is(word: &[u8], other: &[u8]) -> bool
    ensures { MatchBool result (word.now ≡ other.now) (word.now ≡ other.now → ⊥) }
{
    word == other
}

/// The words between single separators that are left to read. A clause sees the list of them.
#[derive(Drop)]
pub(crate) struct Words<'a> {
    separator: u8,
    ended: bool,
    text: &'a [u8],
}

impl<'a> Model for Words<'a> {
    ghost use Rattle.std.specs.Prelude.{ℕ, List};
    ghost use Rattle.vk_trace.specs.Reading.{left_words};

    ghost Value = { List (List ℕ) };

    ghost view = { λ w. left_words w.separator w.ended w.text.now };
}

impl<'a> Words<'a> {
    pub fn new(text: &'a [u8], separator: u8) -> Words<'a>
        ensures { result ≡ split separator text.now }
    {
        Words {
            separator,
            ended: false,
            text,
        }
    }

    /// The next word, which stays.
    pub fn peek(&self) -> Option<&'a [u8]>
        ensures { MatchOption result (self.now ≡ []) (λ w. (more : List (List ℕ)) × (self.now ≡ w.now ∷ more)) }
    {
        if self.ended {
            return None;
        }
        Some(cut(self.text, self.separator).0)
    }

    /// The next word.
    pub fn next(&mut self) -> Option<&'a [u8]>
        ensures { MatchOption result (self.old ≡ []) (λ w. self.old ≡ w.now ∷ self.new) }
    {
        if self.ended {
            return None;
        }
        let (word, rest) = cut(self.text, self.separator);
        match behind(self.separator, rest) {
            Some(text) => self.text = text,
            None => self.ended = true,
        }
        Some(word)
    }

    /// Passes the next word if it is this one.
    pub fn skip(&mut self, word: &[u8]) -> bool
        ensures { MatchBool result (self.old ≡ word.now ∷ self.new) ((self.new ≡ self.old) × ((more : List (List ℕ)) → self.old ≡ word.now ∷ more → ⊥)) }
    {
        match self.peek() {
            Some(next) if is(next, word) => self.next().is_some(),
            _ => false,
        }
    }

    /// Passes the next word, which has to be this one.
    pub fn key(&mut self, word: &[u8]) -> Option<()>
        ensures { MatchOption result ((more : List (List ℕ)) → self.old ≡ word.now ∷ more → ⊥) (λ u. self.old ≡ word.now ∷ self.new) }
    {
        if self.skip(word) {
            return Some(());
        }
        None
    }

    /// Nothing where no word is left.
    pub fn end(&self) -> Option<()>
        ensures { MatchOption result (self.now ≡ [] → ⊥) (λ u. self.now ≡ []) }
    {
        if self.ended {
            return Some(());
        }
        None
    }
}
