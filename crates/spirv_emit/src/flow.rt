// The code of tests, of what leaves a block, and of loops.

ghost use Rattle.std.specs.Prelude.{◌≡◌, ◌+◌, ◌<◌, ◌^◌, ◌++◌, ◌∷◌, [], IsTrue, OnOk, IfOk};
ghost use Rattle.spirv_model.specs.Op as op;
ghost use Rattle.spirv_model.specs.declared.settings.TheConstants as setting;
ghost use Rattle.spirv_emit.specs.Lower.{instr_pieces, test_pieces};
ghost use Rattle.spirv_emit.specs.Code.{pieces_ops, pieces_end, inner_start};
ghost use Rattle.spirv_emit.specs.Emits.{layout_of, Puts, Appends, PiecesAreSmall, TestIsSmall, MaybeReady, Left, out_op, left_ops, left_end, loop_front};

use crate::access::Choice;
use crate::code::Code;
use crate::formula::Formula;
use crate::lower::{add_instr, test_calculation};
use crate::piece::{Calculation, Leaf};
use crate::plan::Plan;
use crate::sources::{NOUGHT, add_fetches};
use crate::variables::TURNS;
use shader_model::{Declared, Instr, Test};
use std::alloc::AllocError;

/// How a block is left: to a label, or by the end of the run.
#[derive(Clone, Copy)]
pub enum Out {
    To(u32),
    End,
}

/// The labels of a loop: its header, behind it, and the one that leads back to the header.
#[derive(Clone, Copy)]
pub struct Turn {
    pub header: u32,
    pub behind: u32,
    pub again: u32,
}

const TURNS_ARE_OUT: Calculation = Calculation {
    leaves: [Leaf::Variable(TURNS), NOUGHT, NOUGHT, NOUGHT, NOUGHT],
    formula: Formula::IsZero,
};

const ONE_TURN_LESS: Calculation = Calculation {
    leaves: [Leaf::Variable(TURNS), NOUGHT, NOUGHT, NOUGHT, NOUGHT],
    formula: Formula::OneLess,
};

impl Code {
    /// The code of an instruction.
    pub fn instr(
        &mut self,
        plan: &Plan,
        declared: &[Declared],
        instr: &Instr,
    ) -> Result<(), AllocError>
        requires { let ps = instr_pieces declared.now instr.now in PiecesAreSmall ps × (pieces_end self.old.next ps + 16 < 2 ^ 32) }
        ensures { let at = layout_of plan.now in let n = self.old.next in let ps = instr_pieces declared.now instr.now in OnOk result (Appends self.old self.new (pieces_ops at n ps) (pieces_end n ps)) }
    {
        let mut pieces = Vec::new(plan.alloc);
        add_instr(&mut pieces, declared, instr)?;
        self.pieces(plan, pieces.as_slice())?;
        Ok(())
    }

    /// What a test takes from a constant buffer.
    pub fn fetch_test(&mut self, plan: &Plan, test: &Test) -> Result<(), AllocError>
        requires { let ps = test_pieces test.now in PiecesAreSmall ps × (pieces_end self.old.next ps + 16 < 2 ^ 32) }
        ensures { let at = layout_of plan.now in let n = self.old.next in let ps = test_pieces test.now in OnOk result (Appends self.old self.new (pieces_ops at n ps) (pieces_end n ps)) }
    {
        let mut pieces = Vec::new(plan.alloc);
        add_fetches(&mut pieces, 0, &Some(test.value))?;
        self.pieces(plan, pieces.as_slice())?;
        Ok(())
    }

    fn out(&mut self, out: Out) -> Result<(), AllocError>
        ensures { OnOk result (Puts self.old self.new (out_op out ∷ [])) }
    {
        match out {
            Out::To(label) => self.branch(label),
            Out::End => self.leave(),
        }
    }

    /// Leaves where a condition holds.
    fn out_if(&mut self, condition: u32, out: Out) -> Result<(), AllocError>
        requires { self.old.next + 3 < 2 ^ 32 }
        ensures { let n = self.old.next in OnOk result (Appends self.old self.new (op.SelectionMerge (n + 2) setting.NO_CONTROL ∷ op.BranchConditional condition n (n + 1) ∷ op.Label n ∷ out_op out ∷ op.Label (n + 1) ∷ op.Branch (n + 2) ∷ op.Label (n + 2) ∷ []) (n + 3)) }
    {
        let choice = self.open_choice(condition)?;
        self.out(out)?;
        self.label(choice.second)?;
        self.branch(choice.behind)?;
        self.label(choice.behind)?;
        Ok(())
    }

    /// Leaves by a test.
    fn leave_by(&mut self, plan: &Plan, test: &Test, out: Out) -> Result<(), AllocError>
        requires { TestIsSmall test.now × (left_end self.old.next test.now + 16 < 2 ^ 32) }
        ensures { let at = layout_of plan.now in let n = self.old.next in OnOk result (Appends self.old self.new (left_ops at n test.now (out_op out)) (left_end n test.now)) }
    {
        self.fetch_test(plan, test)?;
        let condition = self.calculation(plan, &test_calculation(test))?;
        self.out_if(condition, out)?;
        Ok(())
    }

    /// Leaves by a test, or for sure where there is none; whether what stands behind may be run.
    pub fn leave_maybe(
        &mut self,
        plan: &Plan,
        test: &Option<Test>,
        out: Out,
    ) -> Result<bool, AllocError>
        requires { MaybeReady self.old.next test.now }
        ensures { let at = layout_of plan.now in IfOk result (λ on. Left at self.old self.new (out_op out) test.now on) }
    {
        match test {
            Some(test) => {
                self.leave_by(plan, test, out)?;
                Ok(true)
            }
            None => {
                self.out(out)?;
                Ok(false)
            }
        }
    }

    /// Begins a loop, up to where its body begins: a turn is taken, or the run ends where none is left.
    pub fn open_loop(&mut self, plan: &Plan) -> Result<Turn, AllocError>
        requires { inner_start self.old.next + 16 < 2 ^ 32 }
        ensures labels { let n = self.old.next in IfOk result (λ t. (t.header ≡ n) × (t.behind ≡ n + 1) × (t.again ≡ n + 2)) }
        ensures appends { let at = layout_of plan.now in let n = self.old.next in OnOk result (Appends self.old self.new (loop_front at n) (inner_start n)) }
    {
        let turn = self.loop_header()?;
        let condition = self.calculation(plan, &TURNS_ARE_OUT)?;
        self.out_if(condition, Out::End)?;
        self.assign(plan, TURNS, &ONE_TURN_LESS)?;
        Ok(turn)
    }

    fn loop_header(&mut self) -> Result<Turn, AllocError>
        requires { self.old.next + 4 < 2 ^ 32 }
        ensures labels { let n = self.old.next in IfOk result (λ t. (t.header ≡ n) × (t.behind ≡ n + 1) × (t.again ≡ n + 2)) }
        ensures appends { let n = self.old.next in OnOk result (Appends self.old self.new (op.Branch n ∷ op.Label n ∷ op.LoopMerge (n + 1) (n + 2) setting.NO_CONTROL ∷ op.Branch (n + 3) ∷ op.Label (n + 3) ∷ []) (n + 4)) }
    {
        let header = self.next;
        let turn = Turn {
            header,
            behind: header + 1,
            again: header + 2,
        };
        self.next = header + 4;
        self.branch(header)?;
        self.label(header)?;
        self.loop_merge(turn.behind, turn.again)?;
        self.branch(header + 3)?;
        self.label(header + 3)?;
        Ok(turn)
    }

    /// Ends a loop behind its body.
    pub fn close_loop(&mut self, turn: Turn) -> Result<(), AllocError>
        ensures { OnOk result (Puts self.old self.new (op.Label turn.again ∷ op.Branch turn.header ∷ op.Label turn.behind ∷ [])) }
    {
        self.label(turn.again)?;
        self.branch(turn.header)?;
        self.label(turn.behind)?;
        Ok(())
    }
}
