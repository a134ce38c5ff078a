ghost use Rattle.std.specs.Prelude.{◌≡◌, ℕ, List};
ghost use Rattle.std.specs.List.{AllByRecursion};
ghost use Rattle.vk_types.specs.declared.op.VkOp.{VkOp};
ghost use Rattle.vk_trace.specs.ListText.{IsFirstBad, IsOp, ListText, text_of};

/// A text is of one listing, and a listing has one text; what is read from the text that a listing is printed as is
/// that listing. A text that is of a listing has no bad line, and a text has at most one first bad line.
pub fn one_spelling()
    ensures one_listing { (text : List ℕ) (a b : List VkOp) → ListText text a → ListText text b → a ≡ b }
    ensures one_text { (s t : List ℕ) (ops : List VkOp) → ListText s ops → ListText t ops → s ≡ t }
    ensures every_listing { (ops : List VkOp) → AllByRecursion IsOp ops → ListText (text_of ops) ops }
    ensures read_back { (ops others : List VkOp) → AllByRecursion IsOp ops → ListText (text_of ops) others → others ≡ ops }
    ensures no_bad_line { (text : List ℕ) (ops : List VkOp) (n : ℕ) → ListText text ops → IsFirstBad text n → ⊥ }
    ensures one_bad_line { (text : List ℕ) (m n : ℕ) → IsFirstBad text m → IsFirstBad text n → m ≡ n }
{}
