// What an instruction takes: leaves for its sources, and the fetches of those that are in constant buffers.

ghost use Rattle.std.specs.Prelude.{◌≡◌, ◌<◌, ◌++◌, slice_index_or, None, OnOk};
ghost use Rattle.shader_model.specs.Words as words;
ghost use Rattle.spirv_emit.specs.Lower as lower;
ghost use Rattle.spirv_emit.specs.declared.piece.Leaf.TheVariants as leaf;

use crate::formula::Formula;
use crate::piece::{Action, Calculation, Leaf, Piece, Vector};
use crate::variables::{fetched, temporary};
use shader_model::{Instr, Operand};
use std::alloc::AllocError;

/// The leaf where a formula takes none.
pub const NOUGHT: Leaf = Leaf::Number(0);

/// Which component stands at a place of a swizzle.
fn picked(swizzle: u8, component: u32) -> u32
    requires { component < 4 }
    ensures value { result ≡ words.picked swizzle component }
    ensures within { result < 4 }
{
    let swizzle = u32::from(swizzle);
    match component {
        0 => swizzle % 4,
        1 => swizzle / 4 % 4,
        2 => swizzle / 16 % 4,
        _ => swizzle / 64 % 4,
    }
}

/// A component of a built-in vector, whose fourth is 0.
fn three(of: Vector, component: u32) -> Leaf
    ensures { result ≡ lower.three (leaf.Component of) component }
{
    if component < 3 {
        Leaf::Component(of, component)
    } else {
        NOUGHT
    }
}

/// A component of the source of this number.
pub fn leaf_of(number: u32, of: &Operand, component: u32) -> Leaf
    requires number { number < 4 }
    requires component { component < 4 }
    ensures { result ≡ lower.leaf_of number of.now component }
{
    let place = picked(of.swizzle, component);
    match of.file {
        0 => Leaf::Variable(temporary(u32::from(of.index), place)),
        1 => Leaf::Number(of.words[place as usize]),
        2 => Leaf::Variable(fetched(number, component)),
        3 => three(Vector::Global, place),
        4 => three(Vector::Group, place),
        5 => three(Vector::Thread, place),
        _ => Leaf::Flattened,
    }
}

/// A component of an instruction's source of this number, 0 where it has none.
pub fn source(instr: &Instr, number: u32, component: u32) -> Leaf
    requires number { number < 4 }
    requires component { component < 4 }
    ensures { result ≡ lower.source instr.now number component }
{
    match &instr.sources[number as usize] {
        Some(of) => leaf_of(number, of, component),
        None => NOUGHT,
    }
}

/// The temporary's word that a flagged source adds to the number of its vector.
fn relative(of: &Operand) -> Leaf
    ensures { result ≡ lower.relative of.now }
{
    let word = of.words[1];
    Leaf::Variable(temporary(word >> 16, (word >> 4) % 4))
}

/// The fetch of a component of a source.
fn fetch(number: u32, of: &Operand, component: u32) -> Piece
    requires number { number < 4 }
    requires component { component < 4 }
    ensures { result ≡ lower.fetch number of.now component }
{
    let base = Leaf::Number(of.words[0]);
    let place = Leaf::Number(picked(of.swizzle, component));
    let length = Leaf::Length(u32::from(of.index));
    let (inside, place) = if of.flag {
        let more = relative(of);
        (
            Calculation {
                leaves: [base, more, length, NOUGHT, NOUGHT],
                formula: Formula::RelativeInside,
            },
            Calculation {
                leaves: [base, more, place, NOUGHT, NOUGHT],
                formula: Formula::RelativePlace,
            },
        )
    } else {
        (
            Calculation {
                leaves: [base, length, NOUGHT, NOUGHT, NOUGHT],
                formula: Formula::VectorInside,
            },
            Calculation {
                leaves: [base, place, NOUGHT, NOUGHT, NOUGHT],
                formula: Formula::VectorPlace,
            },
        )
    };
    Piece::Reach {
        inside,
        binding: u32::from(of.index),
        place,
        action: Action::Fetch(fetched(number, component)),
    }
}

/// Adds the fetches of a source, where it is in a constant buffer.
pub fn add_fetches(
    pieces: &mut Vec<Piece>,
    number: u32,
    of: &Option<Operand>,
) -> Result<(), AllocError>
    requires { number < 4 }
    ensures { OnOk result (pieces.new.items ≡ pieces.old.items ++ lower.fetches number of.now) }
{
    if let Some(of) = of
        && of.file == 2
    {
        pieces.push(fetch(number, of, 0))?;
        pieces.push(fetch(number, of, 1))?;
        pieces.push(fetch(number, of, 2))?;
        pieces.push(fetch(number, of, 3))?;
    }
    Ok(())
}

/// Adds the fetches of all sources of an instruction.
pub fn add_all_fetches(pieces: &mut Vec<Piece>, instr: &Instr) -> Result<(), AllocError>
    ensures { OnOk result (pieces.new.items ≡ pieces.old.items ++ lower.all_fetches instr.now) }
{
    add_fetches(pieces, 0, &instr.sources[0])?;
    add_fetches(pieces, 1, &instr.sources[1])?;
    add_fetches(pieces, 2, &instr.sources[2])?;
    add_fetches(pieces, 3, &instr.sources[3])?;
    Ok(())
}
