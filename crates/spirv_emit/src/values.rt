// The code of calculations.

ghost use Rattle.std.specs.Prelude.{◌≡◌, ◌+◌, ◌<◌, ◌^◌, ◌∷◌, [], IsTrue, length, OnOk, IfOk};
ghost use Rattle.spirv_emit.specs.Code.{taken_id, step_op, steps_ops, last_id, calculation_size, calculation_ops, calculation_id};
ghost use Rattle.spirv_emit.specs.Emits.{layout_of, Appends, LeavesAreSmall, taken_is_small, step_is_small, steps_are_small};

use crate::code::Code;
use crate::formula::{Step, Taken};
use crate::piece::Calculation;
use crate::plan::Plan;
use crate::steps::steps;
use spirv_model::BinaryCode;
use std::alloc::AllocError;

/// Where a calculation's words have their ids: those that it begins with, and from an id on what its steps made.
#[derive(Clone, Copy)]
struct Words {
    leaves: [u32; 5],
    first: u32,
}

impl Words {
    fn taken_id(&self, plan: &Plan, taken: Taken) -> u32
        requires small { IsTrue (taken_is_small taken) }
        requires room { self.now.first + 16 < 2 ^ 32 }
        ensures { let at = layout_of plan.now in result ≡ taken_id at self.now.leaves self.now.first taken }
    {
        match taken {
            Taken::Leaf(place) => self.leaves[place],
            Taken::Made(place) => self.first + place,
            Taken::Number(number) => plan.number(number),
        }
    }

    /// The id of the last step's value, or that of the first leaf.
    fn last_id(&self, plan: &Plan, steps: &[Step]) -> u32
        requires { self.now.first + length steps.now < 2 ^ 32 }
        ensures { let at = layout_of plan.now in result ≡ last_id at self.now.leaves self.now.first steps.now }
    {
        if steps.is_empty() {
            self.leaves[0]
        } else {
            self.first + (steps.len() as u32 - 1)
        }
    }
}

impl Code {
    fn step(&mut self, plan: &Plan, words: &Words, step: Step) -> Result<u32, AllocError>
        requires small { IsTrue (step_is_small step) }
        requires room { words.now.first + 16 < 2 ^ 32 }
        requires more { self.old.next + 1 < 2 ^ 32 }
        ensures { let at = layout_of plan.now in let n = self.old.next in OnOk result (Appends self.old self.new (step_op at words.now.leaves words.now.first n step ∷ []) (n + 1)) }
    {
        match step {
            Step::One(code, a) => self.unary(code, words.taken_id(plan, a)),
            Step::Two(code, a, b) => {
                self.binary(code, words.taken_id(plan, a), words.taken_id(plan, b))
            }
            Step::High(a) => self.extract(words.taken_id(plan, a), 1),
            Step::Choose(condition, a, b) => self.select(
                words.taken_id(plan, condition),
                words.taken_id(plan, a),
                words.taken_id(plan, b),
            ),
        }
    }

    fn steps(&mut self, plan: &Plan, words: &Words, steps: &[Step]) -> Result<(), AllocError>
        requires small { IsTrue (steps_are_small steps.now) }
        requires room { words.now.first + 16 < 2 ^ 32 }
        requires more { self.old.next + length steps.now < 2 ^ 32 }
        ensures { let at = layout_of plan.now in let n = self.old.next in OnOk result (Appends self.old self.new (steps_ops at words.now.leaves words.now.first n steps.now) (n + length steps.now)) }
    {
        for step in steps {
            self.step(plan, words, *step)?;
        }
        Ok(())
    }

    /// A calculation's value, by its id.
    pub fn calculation(&mut self, plan: &Plan, calculation: &Calculation) -> Result<u32, AllocError>
        requires small { LeavesAreSmall calculation.now.leaves }
        requires room { self.old.next + calculation_size calculation.now + 16 < 2 ^ 32 }
        ensures id { let at = layout_of plan.now in IfOk result (λ r. r ≡ calculation_id at self.old.next calculation.now) }
        ensures appends { let at = layout_of plan.now in let n = self.old.next in OnOk result (Appends self.old self.new (calculation_ops at n calculation.now) (n + calculation_size calculation.now)) }
    {
        let leaves = self.leaves(plan, calculation.leaves)?;
        let words = Words {
            leaves,
            first: self.next,
        };
        let steps = steps(calculation.formula);
        self.steps(plan, &words, steps)?;
        Ok(words.last_id(plan, steps))
    }
}
