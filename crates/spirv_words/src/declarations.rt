// The operands of types, constants, variables and the function.

ghost use Rattle.std.specs.Prelude.{◌≡◌, ◌+◌, ◌<◌, ◌^◌, length};
ghost use Rattle.spirv_model.specs.Op as ops;
ghost use Rattle.spirv_words.specs.Rules.{operand_fault};

use crate::class::is_class;
use crate::each::Each;
use crate::known::Known;
use crate::verdict::{first_wrong, shape};
use spirv_model::settings::{NO_CONTROL, UNSIGNED, WORD_WIDTH};
use spirv_model::{ModuleFault, Op};

#[tactic(auto, unfolding(crate::specs::Rules::operand_fault, crate::specs::Rules::rule_of))]
impl Known<'_> {
    pub fn type_void_fault(&self, at: u32, id: u32) -> Option<ModuleFault>
        requires { at + 1 < 2 ^ 32 }
        ensures { result ≡ operand_fault self.now at (ops.TypeVoid id) }
    {
        first_wrong(at, &[self.new_type(Op::TypeVoid { id }, id)])
    }

    pub fn type_bool_fault(&self, at: u32, id: u32) -> Option<ModuleFault>
        requires { at + 1 < 2 ^ 32 }
        ensures { result ≡ operand_fault self.now at (ops.TypeBool id) }
    {
        first_wrong(at, &[self.new_type(Op::TypeBool { id }, id)])
    }

    pub fn type_int_fault(&self, at: u32, id: u32, width: u32, sign: u32) -> Option<ModuleFault>
        requires { at + 3 < 2 ^ 32 }
        ensures { result ≡ operand_fault self.now at (ops.TypeInt id width sign) }
    {
        let declared = self.new_type(Op::TypeInt { id, width, sign }, id);
        first_wrong(
            at,
            &[
                declared,
                shape(width == WORD_WIDTH),
                shape(sign == UNSIGNED),
            ],
        )
    }

    pub fn type_vector_fault(
        &self,
        at: u32,
        id: u32,
        component: u32,
        count: u32,
    ) -> Option<ModuleFault>
        requires { at + 3 < 2 ^ 32 }
        ensures { result ≡ operand_fault self.now at (ops.TypeVector id component count) }
    {
        let op = Op::TypeVector {
            id,
            component,
            count,
        };
        let head = [
            self.new_type(op, id),
            self.word_type(component),
            shape(2 <= count && count <= 4),
        ];
        first_wrong(at, &head)
    }

    pub fn type_runtime_array_fault(&self, at: u32, id: u32, element: u32) -> Option<ModuleFault>
        requires { at + 2 < 2 ^ 32 }
        ensures { result ≡ operand_fault self.now at (ops.TypeRuntimeArray id element) }
    {
        first_wrong(at, &[self.result(id), self.word_type(element)])
    }

    pub fn type_struct_fault(&self, at: u32, id: u32, members: &[u32]) -> Option<ModuleFault>
        requires { at + 1 + length members.now < 2 ^ 32 }
        ensures { result ≡ operand_fault self.now at (ops.TypeStruct id members.now) }
    {
        match members {
            [member] => first_wrong(at, &[self.result(id), self.only_member(*member)]),
            [] => first_wrong(at, &[self.result(id)]),
            [_, _, ..] => self.listed(at, &[self.result(id)], Each::Member, members),
        }
    }

    pub fn type_pointer_fault(
        &self,
        at: u32,
        id: u32,
        class: u32,
        pointee: u32,
    ) -> Option<ModuleFault>
        requires { at + 3 < 2 ^ 32 }
        ensures { result ≡ operand_fault self.now at (ops.TypePointer id class pointee) }
    {
        let head = [
            self.result(id),
            shape(is_class(class)),
            self.pointed_type(class, pointee),
        ];
        first_wrong(at, &head)
    }

    pub fn type_function_fault(&self, at: u32, id: u32, returned: u32) -> Option<ModuleFault>
        requires { at + 2 < 2 ^ 32 }
        ensures { result ≡ operand_fault self.now at (ops.TypeFunction id returned) }
    {
        let declared = self.new_type(Op::TypeFunction { id, returned }, id);
        first_wrong(at, &[declared, self.void_type(returned)])
    }

    pub fn constant_fault(
        &self,
        at: u32,
        result_type: u32,
        id: u32,
        value: u32,
    ) -> Option<ModuleFault>
        requires { at + 3 < 2 ^ 32 }
        ensures { result ≡ operand_fault self.now at (ops.Constant result_type id value) }
    {
        first_wrong(at, &[self.word_type(result_type), self.result(id), None])
    }

    pub fn variable_fault(
        &self,
        at: u32,
        result_type: u32,
        id: u32,
        class: u32,
        first_value: &[u32],
    ) -> Option<ModuleFault>
        requires { at + 3 + length first_value.now < 2 ^ 32 }
        ensures { result ≡ operand_fault self.now at (ops.Variable result_type id class first_value.now) }
    {
        let head = [
            self.variable_type(result_type),
            self.result(id),
            shape(self.is_variable_class(class, self.maker(result_type))),
        ];
        let each = Each::FirstValue {
            variable_type: result_type,
            class,
        };
        self.listed(at, &head, each, first_value)
    }

    pub fn function_fault(
        &self,
        at: u32,
        result_type: u32,
        id: u32,
        control: u32,
        function_type: u32,
    ) -> Option<ModuleFault>
        requires { at + 4 < 2 ^ 32 }
        ensures { result ≡ operand_fault self.now at (ops.Function result_type id control function_type) }
    {
        let head = [
            self.void_type(result_type),
            self.entry_made(id),
            shape(control == NO_CONTROL),
            self.function_type(function_type),
        ];
        first_wrong(at, &head)
    }
}
