ghost use Rattle.std.specs.Prelude.{◌≡◌, ℕ, List, Option};
ghost use Rattle.vk_types.specs.declared.op.VkOp.{VkOp};
ghost use Rattle.list_audit.specs.AuditText.{IsAuditText, IsFirstBad};

/// A text is of one listing with one order, or has one first bad line.
pub fn one_reading()
    ensures one_listing { (text : List ℕ) (a b : List VkOp) (p q : Option (List ℕ)) → IsAuditText text a p → IsAuditText text b q → (a ≡ b) × (p ≡ q) }
    ensures no_bad_line { (text : List ℕ) (ops : List VkOp) (order : Option (List ℕ)) (n : ℕ) → IsAuditText text ops order → IsFirstBad text n → ⊥ }
    ensures one_bad_line { (text : List ℕ) (m n : ℕ) → IsFirstBad text m → IsFirstBad text n → m ≡ n }
{}
