// The operands of instructions on memory.

ghost use Rattle.std.specs.Prelude.{◌≡◌, ◌+◌, ◌<◌, ◌^◌, length};
ghost use Rattle.spirv_model.specs.Op as ops;
ghost use Rattle.spirv_words.specs.Rules.{operand_fault};

use crate::each::Each;
use crate::known::Known;
use crate::values::member_count;
use crate::verdict::first_wrong;
use spirv_model::{AtomicCode, ModuleFault};

#[tactic(auto, unfolding(crate::specs::Rules::operand_fault, crate::specs::Rules::rule_of))]
impl Known<'_> {
    pub fn load_fault(
        &self,
        at: u32,
        result_type: u32,
        id: u32,
        pointer: u32,
    ) -> Option<ModuleFault>
        requires { at + 3 < 2 ^ 32 }
        ensures { result ≡ operand_fault self.now at (ops.Load result_type id pointer) }
    {
        let head = [
            self.loaded_type(result_type),
            self.result(id),
            self.pointer_to(result_type, pointer),
        ];
        first_wrong(at, &head)
    }

    pub fn store_fault(&self, at: u32, pointer: u32, value: u32) -> Option<ModuleFault>
        requires { at + 2 < 2 ^ 32 }
        ensures { result ≡ operand_fault self.now at (ops.Store pointer value) }
    {
        let stored = self.value_pointee(self.maker(pointer));
        first_wrong(at, &[self.target(pointer), self.value(stored, value)])
    }

    pub fn access_chain_fault(
        &self,
        at: u32,
        result_type: u32,
        id: u32,
        base: u32,
        indexes: &[u32],
    ) -> Option<ModuleFault>
        requires { at + 3 + length indexes.now < 2 ^ 32 }
        ensures { result ≡ operand_fault self.now at (ops.AccessChain result_type id base indexes.now) }
    {
        let chain_type = self.chain_type(result_type);
        let result = self.result(id);
        let based = self.base(result_type, indexes.len(), base);
        match indexes {
            [] => first_wrong(at, &[chain_type, result, based]),
            [member, places @ ..] => {
                let count = member_count(self.block_of(self.maker(base)));
                let head = [
                    chain_type,
                    result,
                    based,
                    self.constant_below(count, *member),
                ];
                self.listed(at, &head, Each::Word, places)
            }
        }
    }

    pub fn atomic_fault(
        &self,
        at: u32,
        code: AtomicCode,
        result_type: u32,
        id: u32,
        pointer: u32,
        scope: u32,
        order: u32,
        value: u32,
    ) -> Option<ModuleFault>
        requires { at + 6 < 2 ^ 32 }
        ensures { result ≡ operand_fault self.now at (ops.Atomic code result_type id pointer scope order value) }
    {
        let head = [
            self.word_type(result_type),
            self.result(id),
            self.shared_word(result_type, pointer),
            self.any_constant(scope),
            self.any_constant(order),
            self.value(Some(result_type), value),
        ];
        first_wrong(at, &head)
    }

    pub fn atomic_compare_exchange_fault(
        &self,
        at: u32,
        result_type: u32,
        id: u32,
        pointer: u32,
        scope: u32,
        equal: u32,
        unequal: u32,
        value: u32,
        comparator: u32,
    ) -> Option<ModuleFault>
        requires { at + 8 < 2 ^ 32 }
        ensures { result ≡ operand_fault self.now at (ops.AtomicCompareExchange result_type id pointer scope equal unequal value comparator) }
    {
        let head = [
            self.word_type(result_type),
            self.result(id),
            self.shared_word(result_type, pointer),
            self.any_constant(scope),
            self.any_constant(equal),
            self.any_constant(unequal),
            self.value(Some(result_type), value),
            self.value(Some(result_type), comparator),
        ];
        first_wrong(at, &head)
    }
}
