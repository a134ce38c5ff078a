// The operands of merges, labels and branches.

ghost use Rattle.std.specs.Prelude.{◌≡◌, ◌+◌, ◌<◌, ◌^◌};
ghost use Rattle.spirv_model.specs.Op as ops;
ghost use Rattle.spirv_words.specs.Rules.{operand_fault};

use crate::known::Known;
use crate::verdict::{first_wrong, shape};
use spirv_model::ModuleFault;
use spirv_model::settings::NO_CONTROL;

#[tactic(auto, unfolding(crate::specs::Rules::operand_fault))]
impl Known<'_> {
    pub fn loop_merge_fault(
        &self,
        at: u32,
        merge: u32,
        next: u32,
        control: u32,
    ) -> Option<ModuleFault>
        requires { at + 3 < 2 ^ 32 }
        ensures { result ≡ operand_fault self.now at (ops.LoopMerge merge next control) }
    {
        let head = [
            self.later_label(merge),
            self.later_label(next),
            shape(control == NO_CONTROL),
        ];
        first_wrong(at, &head)
    }

    pub fn selection_merge_fault(&self, at: u32, merge: u32, control: u32) -> Option<ModuleFault>
        requires { at + 2 < 2 ^ 32 }
        ensures { result ≡ operand_fault self.now at (ops.SelectionMerge merge control) }
    {
        first_wrong(at, &[self.later_label(merge), shape(control == NO_CONTROL)])
    }

    pub fn label_fault(&self, at: u32, id: u32) -> Option<ModuleFault>
        requires { at + 1 < 2 ^ 32 }
        ensures { result ≡ operand_fault self.now at (ops.Label id) }
    {
        first_wrong(at, &[self.result(id)])
    }

    pub fn branch_fault(&self, at: u32, label: u32) -> Option<ModuleFault>
        requires { at + 1 < 2 ^ 32 }
        ensures { result ≡ operand_fault self.now at (ops.Branch label) }
    {
        first_wrong(at, &[self.label(label)])
    }

    pub fn branch_conditional_fault(
        &self,
        at: u32,
        condition: u32,
        yes: u32,
        no: u32,
    ) -> Option<ModuleFault>
        requires { at + 3 < 2 ^ 32 }
        ensures { result ≡ operand_fault self.now at (ops.BranchConditional condition yes no) }
    {
        first_wrong(
            at,
            &[self.truth(condition), self.label(yes), self.label(no)],
        )
    }
}
