// The operands of instructions on values.

ghost use Rattle.std.specs.Prelude.{◌≡◌, ◌+◌, ◌<◌, ◌^◌};
ghost use Rattle.spirv_model.specs.Op as ops;
ghost use Rattle.spirv_words.specs.Rules.{operand_fault};

use crate::known::Known;
use crate::values::component_count;
use crate::verdict::{first_wrong, shape};
use spirv_model::{BinaryCode, ModuleFault, UnaryCode};

#[tactic(auto, unfolding(crate::specs::Rules::operand_fault))]
impl Known<'_> {
    pub fn composite_extract_fault(
        &self,
        at: u32,
        result_type: u32,
        id: u32,
        composite: u32,
        index: u32,
    ) -> Option<ModuleFault>
        requires { at + 4 < 2 ^ 32 }
        ensures { result ≡ operand_fault self.now at (ops.CompositeExtract result_type id composite index) }
    {
        let count = component_count(self.type_given(self.maker(composite)));
        let head = [
            self.word_type(result_type),
            self.result(id),
            self.composite(result_type, composite),
            shape(index < count),
        ];
        first_wrong(at, &head)
    }

    pub fn unary_fault(
        &self,
        at: u32,
        code: UnaryCode,
        result_type: u32,
        id: u32,
        a: u32,
    ) -> Option<ModuleFault>
        requires { at + 3 < 2 ^ 32 }
        ensures { result ≡ operand_fault self.now at (ops.Unary code result_type id a) }
    {
        match code {
            UnaryCode::LogicalNot => first_wrong(
                at,
                &[self.truth_type(result_type), self.result(id), self.truth(a)],
            ),
            UnaryCode::Negate
            | UnaryCode::Complement
            | UnaryCode::BitReverse
            | UnaryCode::BitCount => first_wrong(
                at,
                &[self.word_type(result_type), self.result(id), self.word(a)],
            ),
        }
    }

    pub fn binary_fault(
        &self,
        at: u32,
        code: BinaryCode,
        result_type: u32,
        id: u32,
        a: u32,
        b: u32,
    ) -> Option<ModuleFault>
        requires { at + 4 < 2 ^ 32 }
        ensures { result ≡ operand_fault self.now at (ops.Binary code result_type id a b) }
    {
        let result = self.result(id);
        match code {
            BinaryCode::Equal
            | BinaryCode::NotEqual
            | BinaryCode::GreaterEqual
            | BinaryCode::SignedGreaterEqual
            | BinaryCode::Less
            | BinaryCode::SignedLess => {
                let head = [
                    self.truth_type(result_type),
                    result,
                    self.word(a),
                    self.word(b),
                ];
                first_wrong(at, &head)
            }
            BinaryCode::WideMultiply | BinaryCode::SignedWideMultiply => {
                let head = [
                    self.pair_type(result_type),
                    result,
                    self.word(a),
                    self.word(b),
                ];
                first_wrong(at, &head)
            }
            BinaryCode::LogicalAnd => {
                let head = [
                    self.truth_type(result_type),
                    result,
                    self.truth(a),
                    self.truth(b),
                ];
                first_wrong(at, &head)
            }
            BinaryCode::Add
            | BinaryCode::Subtract
            | BinaryCode::Multiply
            | BinaryCode::Divide
            | BinaryCode::Modulo
            | BinaryCode::ShiftRight
            | BinaryCode::SignedShiftRight
            | BinaryCode::ShiftLeft
            | BinaryCode::BitOr
            | BinaryCode::BitXor
            | BinaryCode::BitAnd => {
                let head = [
                    self.word_type(result_type),
                    result,
                    self.word(a),
                    self.word(b),
                ];
                first_wrong(at, &head)
            }
        }
    }

    pub fn select_fault(
        &self,
        at: u32,
        result_type: u32,
        id: u32,
        condition: u32,
        a: u32,
        b: u32,
    ) -> Option<ModuleFault>
        requires { at + 5 < 2 ^ 32 }
        ensures { result ≡ operand_fault self.now at (ops.Select result_type id condition a b) }
    {
        let head = [
            self.chosen_type(result_type),
            self.result(id),
            self.truth(condition),
            self.value(Some(result_type), a),
            self.value(Some(result_type), b),
        ];
        first_wrong(at, &head)
    }
}
