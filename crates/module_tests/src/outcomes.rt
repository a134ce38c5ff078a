ghost use Rattle.std.specs.Prelude.{◌≡◌, false, true, Some, None};
ghost use Rattle.spirv_model.specs.declared.code.UnaryCode.TheVariants as unary;
ghost use Rattle.spirv_model.specs.declared.code.BinaryCode.TheVariants as binary;
ghost use Rattle.spirv_model.specs.Meaning.Values.{Word, Truth, Halves, of_one, of_two};

/// What instructions give where no emitted module shows it: those that aren't emitted for two words, both halves of
/// products, and what is undefined, so that a module with it can't be dispatched. Worked out by hand.
pub fn instructions_compute()
    ensures three_less_four { of_two binary.Subtract (Some (Word 3)) (Some (Word 4)) ≡ Some (Word 0xffffffff) }
    ensures nine_less_four { of_two binary.Subtract (Some (Word 9)) (Some (Word 4)) ≡ Some (Word 5) }
    ensures both { of_two binary.LogicalAnd (Some (Truth true)) (Some (Truth true)) ≡ Some (Truth true) }
    ensures first_alone { of_two binary.LogicalAnd (Some (Truth true)) (Some (Truth false)) ≡ Some (Truth false) }
    ensures second_alone { of_two binary.LogicalAnd (Some (Truth false)) (Some (Truth true)) ≡ Some (Truth false) }
    ensures not_true { of_one unary.LogicalNot (Some (Truth true)) ≡ Some (Truth false) }
    ensures not_false { of_one unary.LogicalNot (Some (Truth false)) ≡ Some (Truth true) }
    ensures greatest_squared { of_two binary.WideMultiply (Some (Word 0xffffffff)) (Some (Word 0xffffffff)) ≡ Some (Halves 1 0xfffffffe) }
    ensures half_by_six { of_two binary.WideMultiply (Some (Word 0x80000000)) (Some (Word 6)) ≡ Some (Halves 0 3) }
    ensures minus_one_squared { of_two binary.SignedWideMultiply (Some (Word 0xffffffff)) (Some (Word 0xffffffff)) ≡ Some (Halves 1 0) }
    ensures least_by_six { of_two binary.SignedWideMultiply (Some (Word 0x80000000)) (Some (Word 6)) ≡ Some (Halves 0 0xfffffffd) }
    ensures greatest_by_minus_one { of_two binary.SignedWideMultiply (Some (Word 0x7fffffff)) (Some (Word 0xffffffff)) ≡ Some (Halves 0x80000001 0xffffffff) }
    ensures quotient_by_zero { of_two binary.Divide (Some (Word 5)) (Some (Word 0)) ≡ None }
    ensures remainder_by_zero { of_two binary.Modulo (Some (Word 5)) (Some (Word 0)) ≡ None }
    ensures shift_right_by_32 { of_two binary.ShiftRight (Some (Word 0)) (Some (Word 32)) ≡ None }
    ensures signed_shift_right_by_32 { of_two binary.SignedShiftRight (Some (Word 0)) (Some (Word 32)) ≡ None }
    ensures shift_left_by_32 { of_two binary.ShiftLeft (Some (Word 0)) (Some (Word 32)) ≡ None }
{}
