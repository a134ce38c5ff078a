// From an instruction to its pieces.

ghost use Rattle.std.specs.Prelude.{◌≡◌, ◌++◌, OnOk};
ghost use Rattle.shader_model.specs.Fields as fields;
ghost use Rattle.spirv_emit.specs.Lower as lower;

use crate::destinations::{add_computed, add_taken_from};
use crate::formula::Formula;
use crate::opcodes::{atomic_of, first_formula, second_formula};
use crate::piece::{Action, Calculation, Piece, Spot};
use crate::sources::{NOUGHT, add_all_fetches, leaf_of, source};
use crate::variables::result;
use shader_model::{Declared, Instr, SlotUse, Test};
use std::alloc::AllocError;

/// What a use of a slot is declared as: an unordered access view by opcode 5, a resource by opcode 4.
fn used_as(name: SlotUse, declared: &[Declared]) -> Option<Declared>
    ensures { result ≡ fields.used_as name declared.now }
{
    let opcode = if name.writable { 5 } else { 4 };
    for declaration in declared {
        if declaration.opcode == opcode && declaration.slot == name.slot {
            return Some(*declaration);
        }
    }
    None
}

/// All components are computed before one is written; of two destinations the second is written last.
fn add_plain(pieces: &mut Vec<Piece>, instr: &Instr) -> Result<(), AllocError>
    ensures { OnOk result (pieces.new.items ≡ pieces.old.items ++ lower.plain_pieces instr.now) }
{
    let formula = first_formula(instr.opcode);
    add_computed(pieces, &instr.first, 0, formula, instr)?;
    let formula = second_formula(instr.opcode);
    add_computed(pieces, &instr.second, 1, formula, instr)?;
    add_taken_from(pieces, &instr.first, 0)?;
    add_taken_from(pieces, &instr.second, 1)?;
    Ok(())
}

fn add_memory(
    pieces: &mut Vec<Piece>,
    slot: &SlotUse,
    declared: &Declared,
    instr: &Instr,
) -> Result<(), AllocError>
    ensures { OnOk result (pieces.new.items ≡ pieces.old.items ++ lower.memory_pieces slot.now declared.now instr.now) }
{
    let at = source(instr, 0, 0);
    let plain = Spot::new(slot, declared, at, NOUGHT);
    let offset = Spot::new(slot, declared, at, source(instr, 1, 0));
    match instr.opcode {
        48 => plain.add_loads(pieces, &instr.first),
        49 => plain.add_stores(pieces, instr, 1),
        50 => offset.add_loads(pieces, &instr.first),
        51 => offset.add_stores(pieces, instr, 2),
        52 => plain.add_loads(pieces, &instr.first),
        53 => plain.add_stores(pieces, instr, 1),
        65 => offset.add_atomic(
            pieces,
            &instr.first,
            Action::Swap {
                value: source(instr, 3, 0),
                comparator: source(instr, 2, 0),
                variable: result(0, 0),
            },
        ),
        _ => offset.add_atomic(
            pieces,
            &instr.first,
            Action::Change(atomic_of(instr.opcode), source(instr, 2, 0), result(0, 0)),
        ),
    }
}

/// Adds the pieces of an instruction: first what it takes from constant buffers.
pub fn add_instr(
    pieces: &mut Vec<Piece>,
    declared: &[Declared],
    instr: &Instr,
) -> Result<(), AllocError>
    ensures { OnOk result (pieces.new.items ≡ pieces.old.items ++ lower.instr_pieces declared.now instr.now) }
{
    add_all_fetches(pieces, instr)?;
    match &instr.slot {
        None => add_plain(pieces, instr)?,
        Some(slot) => {
            if let Some(view) = used_as(*slot, declared) {
                add_memory(pieces, slot, &view, instr)?;
            }
        }
    }
    Ok(())
}

/// Whether a test holds, once the pieces of its source were run.
pub fn test_calculation(test: &Test) -> Calculation
    ensures { result ≡ lower.test_calculation test.now }
{
    let formula = if test.nonzero {
        Formula::IsNonzero
    } else {
        Formula::IsZero
    };
    Calculation {
        leaves: [leaf_of(0, &test.value, 0), NOUGHT, NOUGHT, NOUGHT, NOUGHT],
        formula,
    }
}
