ghost use Rattle.std.specs.Prelude.{◌≡◌, ℕ, List};
ghost use Rattle.call_log.specs.Grammar.{Frame, IsLog, AreBytes};
ghost use Rattle.log_text.specs.LogText.{IsTextOf, IsFirstBad, LogText, text_of};

/// A text is of one list of records, a log has one text and a text is of one log; a text that is of a log has no
/// bad line, and another has one first bad line; and what is read from the text of a log is that log.
pub fn one_spelling()
    ensures records { (text : List ℕ) (fs gs : List Frame) → IsTextOf text fs → IsTextOf text gs → fs ≡ gs }
    ensures one_log { (text a b : List ℕ) → LogText text a → LogText text b → a ≡ b }
    ensures one_text { (s t log : List ℕ) → LogText s log → LogText t log → s ≡ t }
    ensures every_log { (log : List ℕ) (fs : List Frame) → AreBytes log → IsLog log fs → LogText (text_of fs) log }
    ensures read_back { (log back : List ℕ) (fs : List Frame) → AreBytes log → IsLog log fs → LogText (text_of fs) back → back ≡ log }
    ensures no_bad_line { (text log : List ℕ) (n : ℕ) → LogText text log → IsFirstBad text n → ⊥ }
    ensures one_bad_line { (text : List ℕ) (m n : ℕ) → IsFirstBad text m → IsFirstBad text n → m ≡ n }
{}
