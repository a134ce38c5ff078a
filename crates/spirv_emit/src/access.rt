// The code of accesses to words of slots, and of whole pieces.

ghost use Rattle.std.specs.Prelude.{◌≡◌, ◌+◌, ◌<◌, ◌^◌, ◌++◌, ◌∷◌, [], OnOk, IfOk};
ghost use Rattle.spirv_model.specs.Op as op;
ghost use Rattle.spirv_model.specs.declared.settings.TheConstants as setting;
ghost use Rattle.spirv_emit.specs.declared.piece.Action.TheVariants as action;
ghost use Rattle.spirv_emit.specs.Layout.{variable as of_variable};
ghost use Rattle.spirv_emit.specs.Code.{leaf_size, calculation_size, action_size, action_ops, missed_ops, reach_ops, assign_ops};
ghost use Rattle.spirv_emit.specs.Emits.{layout_of, Puts, Appends, LeafIsSmall, LeavesAreSmall, ActionIsSmall};

use crate::code::Code;
use crate::ids::{FIRST_BUFFER, TO_WORD, WORD_TYPE};
use crate::piece::{Action, Calculation, Leaf};
use crate::plan::Plan;
use spirv_model::AtomicCode;
use spirv_model::settings::{DEVICE_SCOPE, RELAXED};
use std::alloc::AllocError;

/// The labels of a choice: of its second side, and behind it.
#[derive(Clone, Copy)]
pub struct Choice {
    pub second: u32,
    pub behind: u32,
}

impl Code {
    /// Begins a choice by a condition, and its first side.
    pub fn open_choice(&mut self, condition: u32) -> Result<Choice, AllocError>
        requires { self.old.next + 3 < 2 ^ 32 }
        ensures labels { let n = self.old.next in IfOk result (λ c. (c.second ≡ n + 1) × (c.behind ≡ n + 2)) }
        ensures appends { let n = self.old.next in OnOk result (Appends self.old self.new (op.SelectionMerge (n + 2) setting.NO_CONTROL ∷ op.BranchConditional condition n (n + 1) ∷ op.Label n ∷ []) (n + 3)) }
    {
        let first = self.next;
        let second = first + 1;
        let behind = first + 2;
        self.next = first + 3;
        self.selection_merge(behind)?;
        self.branch_conditional(condition, first, second)?;
        self.label(first)?;
        Ok(Choice { second, behind })
    }

    /// A calculation's value into a variable.
    pub fn assign(
        &mut self,
        plan: &Plan,
        variable: u32,
        value: &Calculation,
    ) -> Result<(), AllocError>
        requires variable { variable < 2 ^ 20 }
        requires small { LeavesAreSmall value.now.leaves }
        requires room { self.old.next + calculation_size value.now + 16 < 2 ^ 32 }
        ensures { let at = layout_of plan.now in let n = self.old.next in OnOk result (Appends self.old self.new (assign_ops at n variable value.now) (n + calculation_size value.now)) }
    {
        let id = self.calculation(plan, value)?;
        self.store(plan.variable(variable), id)?;
        Ok(())
    }

    fn fetch(&mut self, plan: &Plan, pointer: u32, variable: u32) -> Result<(), AllocError>
        requires variable { variable < 2 ^ 20 }
        requires room { self.old.next + 1 < 2 ^ 32 }
        ensures { let at = layout_of plan.now in let n = self.old.next in OnOk result (Appends self.old self.new (action_ops at n pointer (action.Fetch variable)) (n + 1)) }
    {
        let word = self.load(WORD_TYPE, pointer)?;
        self.store(plan.variable(variable), word)?;
        Ok(())
    }

    fn write(&mut self, plan: &Plan, pointer: u32, value: Leaf) -> Result<(), AllocError>
        requires small { LeafIsSmall value }
        requires room { self.old.next + leaf_size value < 2 ^ 32 }
        ensures { let at = layout_of plan.now in let n = self.old.next in OnOk result (Appends self.old self.new (action_ops at n pointer (action.Write value)) (n + leaf_size value)) }
    {
        let value = self.leaf(plan, value)?;
        self.store(pointer, value)?;
        Ok(())
    }

    /// Atomics are of device scope and relaxed order.
    fn change(
        &mut self,
        plan: &Plan,
        pointer: u32,
        code: AtomicCode,
        value: Leaf,
        variable: u32,
    ) -> Result<(), AllocError>
        requires variable { variable < 2 ^ 20 }
        requires small { LeafIsSmall value }
        requires room { self.old.next + (leaf_size value + 1) < 2 ^ 32 }
        ensures { let at = layout_of plan.now in let n = self.old.next in OnOk result (Appends self.old self.new (action_ops at n pointer (action.Change code value variable)) (n + (leaf_size value + 1))) }
    {
        let value = self.leaf(plan, value)?;
        let old = self.atomic(
            code,
            pointer,
            plan.number(DEVICE_SCOPE),
            plan.number(RELAXED),
            value,
        )?;
        self.store(plan.variable(variable), old)?;
        Ok(())
    }

    fn swap(
        &mut self,
        plan: &Plan,
        pointer: u32,
        value: Leaf,
        comparator: Leaf,
        variable: u32,
    ) -> Result<(), AllocError>
        requires variable { variable < 2 ^ 20 }
        requires value { LeafIsSmall value }
        requires comparator { LeafIsSmall comparator }
        requires room { self.old.next + (leaf_size value + leaf_size comparator + 1) < 2 ^ 32 }
        ensures { let at = layout_of plan.now in let n = self.old.next in OnOk result (Appends self.old self.new (action_ops at n pointer (action.Swap value comparator variable)) (n + (leaf_size value + leaf_size comparator + 1))) }
    {
        let value = self.leaf(plan, value)?;
        let comparator = self.leaf(plan, comparator)?;
        let old = self.compare_exchange(
            pointer,
            plan.number(DEVICE_SCOPE),
            plan.number(RELAXED),
            value,
            comparator,
        )?;
        self.store(plan.variable(variable), old)?;
        Ok(())
    }

    /// What is done with the word behind a pointer.
    fn action(&mut self, plan: &Plan, pointer: u32, action: &Action) -> Result<(), AllocError>
        requires small { ActionIsSmall action.now }
        requires room { self.old.next + action_size action.now < 2 ^ 32 }
        ensures { let at = layout_of plan.now in let n = self.old.next in OnOk result (Appends self.old self.new (action_ops at n pointer action.now) (n + action_size action.now)) }
    {
        match action {
            Action::Fetch(variable) => self.fetch(plan, pointer, *variable),
            Action::Write(value) => self.write(plan, pointer, *value),
            Action::Change(code, value, variable) => {
                self.change(plan, pointer, *code, *value, *variable)
            }
            Action::Swap {
                value,
                comparator,
                variable,
            } => self.swap(plan, pointer, *value, *comparator, *variable),
        }
    }

    fn none(&mut self, plan: &Plan, variable: u32) -> Result<(), AllocError>
        requires { variable < 2 ^ 20 }
        ensures { let at = layout_of plan.now in OnOk result (Puts self.old self.new (op.Store (of_variable at variable) (at.number 0) ∷ [])) }
    {
        self.store(plan.variable(variable), plan.number(0))
    }

    /// Where there is no such word: 0 to the variable.
    fn missed(&mut self, plan: &Plan, action: &Action) -> Result<(), AllocError>
        requires { ActionIsSmall action.now }
        ensures { let at = layout_of plan.now in OnOk result (Puts self.old self.new (missed_ops at action.now)) }
    {
        match action {
            Action::Fetch(variable) => self.none(plan, *variable),
            Action::Write(_) => Ok(()),
            Action::Change(_, _, variable) => self.none(plan, *variable),
            Action::Swap { variable, .. } => self.none(plan, *variable),
        }
    }

    /// The side of a choice that reaches a word.
    pub fn reach(
        &mut self,
        plan: &Plan,
        binding: u32,
        place: &Calculation,
        action: &Action,
        behind: u32,
    ) -> Result<(), AllocError>
        requires binding { binding < 2 ^ 20 }
        requires place { LeavesAreSmall place.now.leaves }
        requires action { ActionIsSmall action.now }
        requires room { self.old.next + calculation_size place.now + 1 + action_size action.now + 16 < 2 ^ 32 }
        ensures { let at = layout_of plan.now in let n = self.old.next in OnOk result (Appends self.old self.new (reach_ops at n binding place.now action.now behind) (n + calculation_size place.now + 1 + action_size action.now)) }
    {
        let place = self.calculation(plan, place)?;
        let pointer = self.access_two(TO_WORD, FIRST_BUFFER + binding, plan.number(0), place)?;
        self.action(plan, pointer, action)?;
        self.branch(behind)?;
        Ok(())
    }

    /// The other side.
    pub fn pass(&mut self, plan: &Plan, action: &Action, behind: u32) -> Result<(), AllocError>
        requires { ActionIsSmall action.now }
        ensures { let at = layout_of plan.now in OnOk result (Puts self.old self.new (missed_ops at action.now ++ op.Branch behind ∷ [])) }
    {
        self.missed(plan, action)?;
        self.branch(behind)?;
        Ok(())
    }
}
