// What an instruction writes.

ghost use Rattle.std.specs.Prelude.{◌≡◌, ◌<◌, ◌++◌, OnOk};
ghost use Rattle.shader_model.specs.Words as words;
ghost use Rattle.spirv_emit.specs.Lower as lower;
ghost use Rattle.spirv_emit.specs.declared.piece.Leaf.TheVariants as leaf;
ghost use Rattle.spirv_emit.specs.declared.piece.Piece.TheVariants as piece;

use crate::formula::Formula;
use crate::piece::{Calculation, Leaf, Piece};
use crate::sources::{NOUGHT, source};
use crate::spots::same;
use crate::variables::{result, temporary};
use shader_model::{Instr, Target};
use std::alloc::AllocError;

/// Whether a mask has a component.
pub fn has(mask: u16, component: u32) -> bool
    requires { component < 4 }
    ensures { result ≡ words.bit component mask }
{
    match component {
        0 => mask % 2 == 1,
        1 => mask / 2 % 2 == 1,
        2 => mask / 4 % 2 == 1,
        _ => mask / 8 % 2 == 1,
    }
}

fn add_if(pieces: &mut Vec<Piece>, on: bool, piece: Piece) -> Result<(), AllocError>
    ensures { OnOk result (pieces.new.items ≡ pieces.old.items ++ lower.only_if on piece) }
{
    if on {
        pieces.push(piece)?;
    }
    Ok(())
}

/// Adds the pieces of the components that a mask has.
pub fn add_masked(
    pieces: &mut Vec<Piece>,
    mask: u8,
    x: Piece,
    y: Piece,
    z: Piece,
    w: Piece,
) -> Result<(), AllocError>
    ensures { OnOk result (pieces.new.items ≡ pieces.old.items ++ lower.masked mask x y z w) }
{
    let mask = u16::from(mask);
    add_if(pieces, has(mask, 0), x)?;
    add_if(pieces, has(mask, 1), y)?;
    add_if(pieces, has(mask, 2), z)?;
    add_if(pieces, has(mask, 3), w)?;
    Ok(())
}

/// A component of a formula of an instruction's sources.
fn computes(formula: Formula, instr: &Instr, component: u32) -> Calculation
    requires { component < 4 }
    ensures { result ≡ lower.computes formula instr.now component }
{
    Calculation {
        leaves: [
            source(instr, 0, component),
            source(instr, 1, component),
            source(instr, 2, component),
            source(instr, 3, component),
            NOUGHT,
        ],
        formula,
    }
}

fn computed(destination: u32, formula: Formula, instr: &Instr, component: u32) -> Piece
    requires destination { destination < 2 }
    requires component { component < 4 }
    ensures { result ≡ lower.assigned (lower.result destination) (lower.computes formula instr.now) component }
{
    Piece::Assign {
        variable: result(destination, component),
        value: computes(formula, instr, component),
    }
}

/// Adds the values of a destination, which are written later.
pub fn add_computed(
    pieces: &mut Vec<Piece>,
    target: &Option<Target>,
    destination: u32,
    formula: Formula,
    instr: &Instr,
) -> Result<(), AllocError>
    requires { destination < 2 }
    ensures { OnOk result (pieces.new.items ≡ pieces.old.items ++ lower.computed target.now destination (lower.computes formula instr.now)) }
{
    let Some(to) = target else {
        return Ok(());
    };
    let x = computed(destination, formula, instr, 0);
    let y = computed(destination, formula, instr, 1);
    let z = computed(destination, formula, instr, 2);
    let w = computed(destination, formula, instr, 3);
    add_masked(pieces, to.mask, x, y, z, w)
}

/// A variable's value into a component of a temporary.
fn written(index: u16, component: u32, variable: u32) -> Piece
    requires { component < 4 }
    ensures { result ≡ piece.Assign (lower.temporary index component) (lower.same (leaf.Variable variable)) }
{
    Piece::Assign {
        variable: temporary(u32::from(index), component),
        value: same(Leaf::Variable(variable)),
    }
}

/// Adds what was computed for a destination.
pub fn add_taken_from(
    pieces: &mut Vec<Piece>,
    target: &Option<Target>,
    destination: u32,
) -> Result<(), AllocError>
    requires { destination < 2 }
    ensures { OnOk result (pieces.new.items ≡ pieces.old.items ++ lower.taken target.now (λ c. leaf.Variable (lower.result destination c))) }
{
    let Some(to) = target else {
        return Ok(());
    };
    let x = written(to.index, 0, result(destination, 0));
    let y = written(to.index, 1, result(destination, 1));
    let z = written(to.index, 2, result(destination, 2));
    let w = written(to.index, 3, result(destination, 3));
    add_masked(pieces, to.mask, x, y, z, w)
}

/// Adds an atomic's old word, to each component of its destination.
pub fn add_old(pieces: &mut Vec<Piece>, target: &Option<Target>) -> Result<(), AllocError>
    ensures { OnOk result (pieces.new.items ≡ pieces.old.items ++ lower.taken target.now (λ c. leaf.Variable (lower.result 0 0))) }
{
    let Some(to) = target else {
        return Ok(());
    };
    let old = result(0, 0);
    let x = written(to.index, 0, old);
    let y = written(to.index, 1, old);
    let z = written(to.index, 2, old);
    let w = written(to.index, 3, old);
    add_masked(pieces, to.mask, x, y, z, w)
}
