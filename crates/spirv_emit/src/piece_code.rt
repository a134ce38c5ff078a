// The code of pieces.

ghost use Rattle.std.specs.Prelude.{◌≡◌, ◌+◌, ◌<◌, ◌^◌, OnOk, IfOk};
ghost use Rattle.spirv_emit.specs.declared.piece.Piece.TheVariants as piece;
ghost use Rattle.spirv_emit.specs.Code.{calculation_size, action_size, piece_ops, piece_end, pieces_ops, pieces_end};
ghost use Rattle.spirv_emit.specs.Emits.{layout_of, Appends, LeavesAreSmall, ActionIsSmall, PieceIsSmall, PiecesAreSmall};

use crate::code::Code;
use crate::piece::{Action, Calculation, Piece};
use crate::plan::Plan;
use std::alloc::AllocError;

impl Code {
    /// An access to a word, where it is there.
    fn reach_if(
        &mut self,
        plan: &Plan,
        inside: &Calculation,
        binding: u32,
        place: &Calculation,
        action: &Action,
    ) -> Result<(), AllocError>
        requires inside { LeavesAreSmall inside.now.leaves }
        requires binding { binding < 2 ^ 20 }
        requires place { LeavesAreSmall place.now.leaves }
        requires action { ActionIsSmall action.now }
        requires room { piece_end self.old.next (piece.Reach inside.now binding place.now action.now) + 16 < 2 ^ 32 }
        ensures { let at = layout_of plan.now in let n = self.old.next in let p = piece.Reach inside.now binding place.now action.now in OnOk result (Appends self.old self.new (piece_ops at n p) (piece_end n p)) }
    {
        let condition = self.calculation(plan, inside)?;
        let choice = self.open_choice(condition)?;
        self.reach(plan, binding, place, action, choice.behind)?;
        self.label(choice.second)?;
        self.pass(plan, action, choice.behind)?;
        self.label(choice.behind)?;
        Ok(())
    }

    fn piece(&mut self, plan: &Plan, piece: &Piece) -> Result<(), AllocError>
        requires small { PieceIsSmall piece.now }
        requires room { piece_end self.old.next piece.now + 16 < 2 ^ 32 }
        ensures { let at = layout_of plan.now in let n = self.old.next in OnOk result (Appends self.old self.new (piece_ops at n piece.now) (piece_end n piece.now)) }
    {
        match piece {
            Piece::Assign { variable, value } => self.assign(plan, *variable, value),
            Piece::Reach {
                inside,
                binding,
                place,
                action,
            } => self.reach_if(plan, inside, *binding, place, action),
        }
    }

    /// The code of pieces, one behind the other.
    pub fn pieces(&mut self, plan: &Plan, pieces: &[Piece]) -> Result<(), AllocError>
        requires small { PiecesAreSmall pieces.now }
        requires room { pieces_end self.old.next pieces.now + 16 < 2 ^ 32 }
        ensures { let at = layout_of plan.now in let n = self.old.next in OnOk result (Appends self.old self.new (pieces_ops at n pieces.now) (pieces_end n pieces.now)) }
    {
        for piece in pieces {
            self.piece(plan, piece)?;
        }
        Ok(())
    }
}
