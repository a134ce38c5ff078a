// The instructions of code, one by one. Those with a result take the next free id for it.

ghost use Rattle.std.specs.Prelude.{◌≡◌, ◌+◌, ◌<◌, ◌^◌, ◌++◌, ◌∷◌, [], length, OnOk, IfOk};
ghost use Rattle.spirv_model.specs.Op as op;
ghost use Rattle.spirv_model.specs.Words.{spelled};
ghost use Rattle.spirv_model.specs.declared.limits.TheConstants.{MAX_INSTRUCTION_WORDS};
ghost use Rattle.spirv_emit.specs.Code.{one_type, two_type};
ghost use Rattle.spirv_emit.specs.Layout.{word_type};
ghost use Rattle.spirv_emit.specs.Emits.{Puts, Appends};

use crate::code::Code;
use crate::ids::WORD_TYPE;
use crate::result_types::{one_type, two_type};
use spirv_model::settings::NO_CONTROL;
use spirv_model::{AtomicCode, BinaryCode, UnaryCode, opcodes};
use std::alloc::AllocError;

impl Code {
    /// An instruction's words.
    pub fn put(&mut self, opcode: u16, operands: &[u32]) -> Result<(), AllocError>
        requires { length operands.now < MAX_INSTRUCTION_WORDS }
        ensures words { OnOk result (self.new.words ≡ self.old.words ++ spelled opcode operands.now) }
        ensures next { self.new.next ≡ self.old.next }
    {
        self.words.push(opcode, operands)
    }

    /// An instruction whose result has the next free id, which is the second of its operands.
    fn make(&mut self, opcode: u16, operands: &[u32]) -> Result<u32, AllocError>
        requires count { length operands.now < MAX_INSTRUCTION_WORDS }
        requires room { self.old.next + 1 < 2 ^ 32 }
        ensures id { IfOk result (λ r. r ≡ self.old.next) }
        ensures words { OnOk result (self.new.words ≡ self.old.words ++ spelled opcode operands.now) }
        ensures next { OnOk result (self.new.next ≡ self.old.next + 1) }
    {
        self.put(opcode, operands)?;
        let id = self.next;
        self.next = id + 1;
        Ok(id)
    }

    pub fn load(&mut self, result_type: u32, pointer: u32) -> Result<u32, AllocError>
        requires { self.old.next + 1 < 2 ^ 32 }
        ensures id { IfOk result (λ r. r ≡ self.old.next) }
        ensures appends { let n = self.old.next in OnOk result (Appends self.old self.new (op.Load result_type n pointer ∷ []) (n + 1)) }
    {
        self.make(opcodes::LOAD, &[result_type, self.next, pointer])
    }

    /// A pointer to what one index finds.
    pub fn access(&mut self, result_type: u32, base: u32, index: u32) -> Result<u32, AllocError>
        requires { self.old.next + 1 < 2 ^ 32 }
        ensures id { IfOk result (λ r. r ≡ self.old.next) }
        ensures appends { let n = self.old.next in OnOk result (Appends self.old self.new (op.AccessChain result_type n base (index ∷ []) ∷ []) (n + 1)) }
    {
        self.make(
            opcodes::ACCESS_CHAIN,
            &[result_type, self.next, base, index],
        )
    }

    /// A pointer to what two indexes find.
    pub fn access_two(
        &mut self,
        result_type: u32,
        base: u32,
        first: u32,
        second: u32,
    ) -> Result<u32, AllocError>
        requires { self.old.next + 1 < 2 ^ 32 }
        ensures id { IfOk result (λ r. r ≡ self.old.next) }
        ensures appends { let n = self.old.next in OnOk result (Appends self.old self.new (op.AccessChain result_type n base (first ∷ second ∷ []) ∷ []) (n + 1)) }
    {
        self.make(
            opcodes::ACCESS_CHAIN,
            &[result_type, self.next, base, first, second],
        )
    }

    pub fn extract(&mut self, composite: u32, index: u32) -> Result<u32, AllocError>
        requires { self.old.next + 1 < 2 ^ 32 }
        ensures id { IfOk result (λ r. r ≡ self.old.next) }
        ensures appends { let n = self.old.next in OnOk result (Appends self.old self.new (op.CompositeExtract word_type n composite index ∷ []) (n + 1)) }
    {
        self.make(
            opcodes::COMPOSITE_EXTRACT,
            &[WORD_TYPE, self.next, composite, index],
        )
    }

    pub fn unary(&mut self, code: UnaryCode, a: u32) -> Result<u32, AllocError>
        requires { self.old.next + 1 < 2 ^ 32 }
        ensures id { IfOk result (λ r. r ≡ self.old.next) }
        ensures appends { let n = self.old.next in OnOk result (Appends self.old self.new (op.Unary code (one_type code) n a ∷ []) (n + 1)) }
    {
        self.make(code.number(), &[one_type(code), self.next, a])
    }

    pub fn binary(&mut self, code: BinaryCode, a: u32, b: u32) -> Result<u32, AllocError>
        requires { self.old.next + 1 < 2 ^ 32 }
        ensures id { IfOk result (λ r. r ≡ self.old.next) }
        ensures appends { let n = self.old.next in OnOk result (Appends self.old self.new (op.Binary code (two_type code) n a b ∷ []) (n + 1)) }
    {
        self.make(code.number(), &[two_type(code), self.next, a, b])
    }

    pub fn select(&mut self, condition: u32, a: u32, b: u32) -> Result<u32, AllocError>
        requires { self.old.next + 1 < 2 ^ 32 }
        ensures id { IfOk result (λ r. r ≡ self.old.next) }
        ensures appends { let n = self.old.next in OnOk result (Appends self.old self.new (op.Select word_type n condition a b ∷ []) (n + 1)) }
    {
        self.make(opcodes::SELECT, &[WORD_TYPE, self.next, condition, a, b])
    }

    /// An atomic operation of this scope and order.
    pub fn atomic(
        &mut self,
        code: AtomicCode,
        pointer: u32,
        scope: u32,
        order: u32,
        value: u32,
    ) -> Result<u32, AllocError>
        requires { self.old.next + 1 < 2 ^ 32 }
        ensures id { IfOk result (λ r. r ≡ self.old.next) }
        ensures appends { let n = self.old.next in OnOk result (Appends self.old self.new (op.Atomic code word_type n pointer scope order value ∷ []) (n + 1)) }
    {
        self.make(
            code.number(),
            &[WORD_TYPE, self.next, pointer, scope, order, value],
        )
    }

    /// An atomic exchange where the word equals the comparator; its order is the same in both cases.
    pub fn compare_exchange(
        &mut self,
        pointer: u32,
        scope: u32,
        order: u32,
        value: u32,
        comparator: u32,
    ) -> Result<u32, AllocError>
        requires { self.old.next + 1 < 2 ^ 32 }
        ensures id { IfOk result (λ r. r ≡ self.old.next) }
        ensures appends { let n = self.old.next in OnOk result (Appends self.old self.new (op.AtomicCompareExchange word_type n pointer scope order order value comparator ∷ []) (n + 1)) }
    {
        self.make(
            opcodes::ATOMIC_COMPARE_EXCHANGE,
            &[
                WORD_TYPE, self.next, pointer, scope, order, order, value, comparator,
            ],
        )
    }

    pub fn store(&mut self, pointer: u32, value: u32) -> Result<(), AllocError>
        ensures { OnOk result (Puts self.old self.new (op.Store pointer value ∷ [])) }
    {
        self.put(opcodes::STORE, &[pointer, value])
    }

    pub fn loop_merge(&mut self, merge: u32, next: u32) -> Result<(), AllocError>
        ensures { OnOk result (Puts self.old self.new (op.LoopMerge merge next NO_CONTROL ∷ [])) }
    {
        self.put(opcodes::LOOP_MERGE, &[merge, next, NO_CONTROL])
    }

    pub fn selection_merge(&mut self, merge: u32) -> Result<(), AllocError>
        ensures { OnOk result (Puts self.old self.new (op.SelectionMerge merge NO_CONTROL ∷ [])) }
    {
        self.put(opcodes::SELECTION_MERGE, &[merge, NO_CONTROL])
    }

    pub fn label(&mut self, id: u32) -> Result<(), AllocError>
        ensures { OnOk result (Puts self.old self.new (op.Label id ∷ [])) }
    {
        self.put(opcodes::LABEL, &[id])
    }

    pub fn branch(&mut self, label: u32) -> Result<(), AllocError>
        ensures { OnOk result (Puts self.old self.new (op.Branch label ∷ [])) }
    {
        self.put(opcodes::BRANCH, &[label])
    }

    pub fn branch_conditional(
        &mut self,
        condition: u32,
        yes: u32,
        no: u32,
    ) -> Result<(), AllocError>
        ensures { OnOk result (Puts self.old self.new (op.BranchConditional condition yes no ∷ [])) }
    {
        self.put(opcodes::BRANCH_CONDITIONAL, &[condition, yes, no])
    }

    pub fn leave(&mut self) -> Result<(), AllocError>
        ensures { OnOk result (Puts self.old self.new (op.Return ∷ [])) }
    {
        self.put(opcodes::RETURN, &[])
    }
}
