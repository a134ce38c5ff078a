// From statements to the tree, with a list of the open blocks in place of a recursion.

ghost use Rattle.std.specs.Prelude.{◌≡◌, List, ◌∷◌, true, OnOk};
ghost use Rattle.shader_model.specs.Nesting.{has_place, after, spelled};
ghost use Rattle.shader_model.specs.declared.statement.Statement.{Statement};
ghost use Rattle.shader_tokens.specs.Levels.{blocks, seen};
ghost use Rattle.shader_tokens.specs.Nested.{IfMisplaced};

use crate::levels::{Closed, Levels, Open};
use shader_model::{Node, Statement};
use sqlite_items::Items;
use std::alloc::{AllocError, Global};

/// Why a statement is not taken.
pub enum StepEnd {
    Misplaced,
    NoMemory,
}

impl From<AllocError> for StepEnd {
    ghost use Rattle.shader_tokens.specs.declared.nesting.StepEnd.TheVariants.{NoMemory};

    ghost from_gives = { λ _ e. e ≡ NoMemory };

    fn from(_: AllocError) -> StepEnd {
        StepEnd::NoMemory
    }
}

/// Ends the first side of an if and begins its other side.
fn part_if(levels: &mut Levels, alloc: Global) -> Result<(), StepEnd>
    ensures placed { OnOk result (has_place Statement.Else (blocks levels.old) ≡ true) }
    ensures after { OnOk result (blocks levels.new ≡ after Statement.Else (blocks levels.old)) }
    ensures spells { OnOk result ((later : List Statement) → seen levels.new (spelled later) ≡ seen levels.old (spelled (Statement.Else ∷ later))) }
    ensures misplaced { IfMisplaced result Statement.Else (blocks levels.old) }
{
    let Some(Closed { block, nodes }) = levels.close() else {
        return Err(StepEnd::Misplaced);
    };
    let test = match block {
        Open::If(test) => test,
        Open::Else(_, _) => return Err(StepEnd::Misplaced),
        Open::Loop => return Err(StepEnd::Misplaced),
    };
    levels.open(alloc, Open::Else(test, Items::from_vec(nodes)))?;
    Ok(())
}

/// Ends an if.
fn end_if(levels: &mut Levels, alloc: Global) -> Result<(), StepEnd>
    ensures placed { OnOk result (has_place Statement.Endif (blocks levels.old) ≡ true) }
    ensures after { OnOk result (blocks levels.new ≡ after Statement.Endif (blocks levels.old)) }
    ensures spells { OnOk result ((later : List Statement) → seen levels.new (spelled later) ≡ seen levels.old (spelled (Statement.Endif ∷ later))) }
    ensures misplaced { IfMisplaced result Statement.Endif (blocks levels.old) }
{
    let Some(Closed { block, nodes }) = levels.close() else {
        return Err(StepEnd::Misplaced);
    };
    match block {
        Open::If(test) => {
            let yes = Items::from_vec(nodes);
            let no = Items::new(alloc);
            levels.add(Node::If { test, yes, no })?;
            Ok(())
        }
        Open::Else(test, yes) => {
            let no = Items::from_vec(nodes);
            levels.add(Node::If { test, yes, no })?;
            Ok(())
        }
        Open::Loop => Err(StepEnd::Misplaced),
    }
}

/// Ends a loop.
fn end_loop(levels: &mut Levels) -> Result<(), StepEnd>
    ensures placed { OnOk result (has_place Statement.Endloop (blocks levels.old) ≡ true) }
    ensures after { OnOk result (blocks levels.new ≡ after Statement.Endloop (blocks levels.old)) }
    ensures spells { OnOk result ((later : List Statement) → seen levels.new (spelled later) ≡ seen levels.old (spelled (Statement.Endloop ∷ later))) }
    ensures misplaced { IfMisplaced result Statement.Endloop (blocks levels.old) }
{
    let Some(Closed { block, nodes }) = levels.close() else {
        return Err(StepEnd::Misplaced);
    };
    match block {
        Open::Loop => {}
        Open::If(_) => return Err(StepEnd::Misplaced),
        Open::Else(_, _) => return Err(StepEnd::Misplaced),
    }
    let body = Items::from_vec(nodes);
    levels.add(Node::Loop { body })?;
    Ok(())
}

/// Puts a statement behind those before it: it is added to the innermost block, or it opens, parts or closes one.
pub fn step(levels: &mut Levels, alloc: Global, statement: &Statement) -> Result<(), StepEnd>
    ensures placed { OnOk result (has_place statement.now (blocks levels.old) ≡ true) }
    ensures after { OnOk result (blocks levels.new ≡ after statement.now (blocks levels.old)) }
    ensures spells { OnOk result ((later : List Statement) → seen levels.new (spelled later) ≡ seen levels.old (spelled (statement.now ∷ later))) }
    ensures misplaced { IfMisplaced result statement.now (blocks levels.old) }
{
    match statement {
        Statement::Plain(i) => {
            levels.add(Node::Plain(*i))?;
            Ok(())
        }
        Statement::If(test) => {
            if !levels.has_room() {
                return Err(StepEnd::Misplaced);
            }
            levels.open(alloc, Open::If(*test))?;
            Ok(())
        }
        Statement::Else => part_if(levels, alloc),
        Statement::Endif => end_if(levels, alloc),
        Statement::Loop => {
            if !levels.has_room() {
                return Err(StepEnd::Misplaced);
            }
            levels.open(alloc, Open::Loop)?;
            Ok(())
        }
        Statement::Endloop => end_loop(levels),
        Statement::Break(test) => {
            if !levels.in_loop() {
                return Err(StepEnd::Misplaced);
            }
            levels.add(Node::Break(*test))?;
            Ok(())
        }
        Statement::Continue(test) => {
            if !levels.in_loop() {
                return Err(StepEnd::Misplaced);
            }
            levels.add(Node::Continue(*test))?;
            Ok(())
        }
        Statement::Return(test) => {
            levels.add(Node::Return(*test))?;
            Ok(())
        }
    }
}
