// The words of a module cut into instructions.

ghost use Rattle.std.specs.Prelude.{◌≡◌};
ghost use Rattle.spirv_model.specs.Words.{front};
ghost use Rattle.spirv_words.specs.Fronts.{shown_front};

use crate::instruction::instruction;
use spirv_model::header::WORD_COUNT_UNIT;
use spirv_model::{Op, Opcode};

/// What stands first in a list of words: an instruction, with the words behind it; a word count that is 0, passes
/// the end, or is wrong for the opcode; an opcode that the table does not have.
#[derive(Clone, Copy)]
pub enum FrontView<'a> {
    Instruction(Op<'a>, &'a [u32]),
    BadCount,
    BadOpcode,
}

/// What stands first in the words that begin with this one.
#[tactic(auto, unfolding(spirv_model::specs::Words::front))]
pub fn front_of(first: u32, words: &[u32]) -> FrontView<'_>
    ensures { shown_front result ≡ front first words.now }
{
    let count = (first / WORD_COUNT_UNIT) as usize;
    if count == 0 || words.len() + 1 < count {
        return FrontView::BadCount;
    }
    let operands = &words[..count - 1];
    match Opcode::from_number(first % WORD_COUNT_UNIT) {
        None => FrontView::BadOpcode,
        Some(opcode) => match instruction(opcode, operands) {
            None => FrontView::BadCount,
            Some(op) => FrontView::Instruction(op, &words[count - 1..]),
        },
    }
}
