//! Words and lemmas on lists, on finite maps from ids, and on the words of bytes, for the crates above.
#![tactic(auto)]

ghost use Rattle.std.specs.Prelude.{◌≡◌, ◌/◌, ℕ, List, length};
ghost use Rattle.base_lemmas.specs.ByteWords.{words_of};

/// Bytes have a word for each four of them.
pub fn bytes_have_words()
    ensures { (bytes : List ℕ) → length (words_of bytes) ≡ length bytes / 4 }
{}
