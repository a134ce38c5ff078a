// Ids and labels that are never made.

ghost use Rattle.std.specs.Prelude.{◌≡◌, ◌+◌, ◌<◌, ◌^◌, length, map};
ghost use Rattle.spirv_model.specs.View.{shown};
ghost use Rattle.spirv_words.specs.Known.{history};
ghost use Rattle.spirv_model.specs.Table.{operands_of};
ghost use Rattle.spirv_model.specs.FirstBad as rules;
ghost use Rattle.spirv_words.specs.Rules.{late_operand_fault};

use crate::each::Each;
use crate::known::Known;
use crate::verdict::first_wrong;
use spirv_model::{ModuleFault, ModuleKind, Op};

impl Known<'_> {
    /// An id that an instruction makes.
    pub fn made_at_all(&self, id: u32) -> Option<ModuleKind>
        ensures { result ≡ rules.id (history self.now) id }
    {
        match self.maker(id) {
            None => Some(ModuleKind::Ident),
            Some(_) => None,
        }
    }

    /// The label of a block.
    fn block(&self, label: u32) -> Option<ModuleKind>
        ensures { result ≡ rules.block (history self.now) label }
    {
        match self.maker(label) {
            Some(Op::Label { .. }) => None,
            _ => Some(ModuleKind::Flow),
        }
    }

    /// The first operand of an instruction that is never made.
    #[tactic(auto, unfolding(crate::specs::Rules::late_operand_fault, crate::specs::Rules::rule_of))]
    fn late_operand_fault(&self, at: u32, op: Op<'_>) -> Option<ModuleFault>
        requires { at + length (operands_of (shown op)) < 2 ^ 32 }
        ensures { result ≡ late_operand_fault self.now at (shown op.entry) }
    {
        match op {
            Op::EntryPoint {
                function,
                interface,
                ..
            } => {
                let head = [None, self.made_at_all(function), None, None];
                self.listed(at, &head, Each::MadeAtAll, interface)
            }
            Op::ExecutionMode { function, .. } => first_wrong(at, &[self.made_at_all(function)]),
            Op::Decorate { target, .. } => first_wrong(at, &[self.made_at_all(target)]),
            Op::MemberDecorate { target, .. } => first_wrong(at, &[self.made_at_all(target)]),
            Op::LoopMerge { merge, next, .. } => first_wrong(
                at,
                &[self.block(merge), self.block(next)],
            ),
            Op::SelectionMerge { merge, .. } => first_wrong(at, &[self.block(merge)]),
            Op::Branch { label } => first_wrong(at, &[self.block(label)]),
            Op::BranchConditional { yes, no, .. } => first_wrong(
                at,
                &[None, self.block(yes), self.block(no)],
            ),
            _ => None,
        }
    }

    /// The first word of the instructions that names an id or a label that is never made.
    #[tactic(auto, unfolding(crate::specs::Rules::late_operand_fault))]
    pub fn late_fault(&self) -> Option<ModuleFault>
        requires { 5 + rules.total_words (map shown self.now.ops.items) < 2 ^ 32 }
        ensures { result ≡ rules.late_fault (history self.now) 5 (map shown self.now.ops.items) }
    {
        let mut at = 5;
        let mut rest = self.ops.as_slice();
        'ops: while let [op, more @ ..] = rest {
            if let Some(fault) = self.late_operand_fault(at + 1, *op) {
                return Some(fault);
            }
            at += word_count(*op) as u32;
            rest = more;
        }
        None
    }
}

/// How many words an instruction has.
pub fn word_count(op: Op<'_>) -> usize
    ensures { result ≡ rules.word_count (shown op.entry) }
{
    match op {
        Op::FunctionEnd | Op::Return => 1,
        Op::Capability { .. }
        | Op::TypeVoid { .. }
        | Op::TypeBool { .. }
        | Op::Label { .. }
        | Op::Branch { .. } => 2,
        Op::MemoryModel { .. }
        | Op::TypeRuntimeArray { .. }
        | Op::TypeFunction { .. }
        | Op::Store { .. }
        | Op::SelectionMerge { .. } => 3,
        Op::TypeInt { .. }
        | Op::TypeVector { .. }
        | Op::TypePointer { .. }
        | Op::Constant { .. }
        | Op::Load { .. }
        | Op::Unary { .. }
        | Op::LoopMerge { .. }
        | Op::BranchConditional { .. } => 4,
        Op::Function { .. } | Op::CompositeExtract { .. } | Op::Binary { .. } => 5,
        Op::ExecutionMode { .. } | Op::Select { .. } => 6,
        Op::Atomic { .. } => 7,
        Op::AtomicCompareExchange { .. } => 9,
        Op::TypeStruct { members, .. } => 2 + members.len(),
        Op::Decorate { values, .. } => 3 + values.len(),
        Op::MemberDecorate { values, .. } => 4 + values.len(),
        Op::Variable { first_value, .. } => 4 + first_value.len(),
        Op::AccessChain { indexes, .. } => 4 + indexes.len(),
        Op::EntryPoint { interface, .. } => 5 + interface.len(),
    }
}
