// Values by id that last for one turn, so that a new turn sets nothing up.

ghost use Rattle.std.specs.Prelude.{◌≡◌, ◌<◌, None, Some, map, replicate, length, slice_index_or, slice_set, IfOk, OnSome};
ghost use Rattle.spirv_run.specs.Cells.{AreUnset, AreUntil, held_in, kept_of};

use crate::value::Value;
use std::alloc::{AllocError, Global};
use std::marker::Model;

/// A value with the turn that set it, and what each turn begins with.
#[derive(Clone, Copy)]
pub struct Cell {
    kept: Option<Value>,
    /// 0 where no turn set it.
    turn: u32,
    value: Value,
}

/// Values by id: those that each turn begins with, and those that this turn set.
#[derive(Drop)]
pub struct Cells {
    cells: Vec<Cell>,
    turn: u32,
}

impl Model for Cells {
    ghost use Rattle.spirv_run.specs.Cells as told;
    ghost use Rattle.spirv_run.specs.Cells.{AreUntil, cells_in};

    ghost Value = { told.Cells };

    ghost view = { λ c. cells_in c.turn c.cells.items };

    ghost invariant = { λ c. AreUntil c.turn c.cells.items };
}

impl Cells {
    /// So many places without a value.
    pub fn new(alloc: Global, count: usize) -> Result<Cells, AllocError>
        ensures { IfOk result (λ c. c ≡ record { kept = replicate count None; held = replicate count None }) }
    {
        let cell = Cell {
            kept: None,
            turn: 0,
            value: Value::Nothing,
        };
        let cells = vec![in alloc; cell; count]?;
        Ok(Cells { cells, turn: 1 })
    }

    /// Begins a turn.
    pub fn begin(&mut self)
        ensures { self.new ≡ record self.old { held = self.old.kept } }
    {
        self.turn = next_turn(&mut self.cells, self.turn);
    }

    /// The value of an id.
    pub fn get(&self, id: u32) -> Option<Value>
        ensures value { result ≡ slice_index_or self.now.held id None }
        ensures within { OnSome result (id < length self.now.kept) }
    {
        let id = id as usize;
        if id >= self.cells.len() {
            return None;
        }
        let cell = self.cells[id];
        if cell.turn == self.turn {
            Some(cell.value)
        } else {
            cell.kept
        }
    }

    /// Gives an id a value for the rest of this turn.
    pub fn set(&mut self, id: u32, value: Value)
        requires { id < length self.old.kept }
        ensures set { self.new ≡ record self.old { held = slice_set self.old.held id (Some value) } }
        ensures within { id < length self.old.held }
    {
        let id = id as usize;
        self.cells[id] = Cell {
            kept: self.cells[id].kept,
            turn: self.turn,
            value,
        };
    }

    /// Gives an id a value with which each later turn begins.
    pub fn keep(&mut self, id: u32, value: Value)
        requires { id < length self.old.kept }
        ensures { self.new.kept ≡ slice_set self.old.kept id (Some value) }
    {
        let id = id as usize;
        self.cells[id] = Cell {
            kept: Some(value),
            turn: self.cells[id].turn,
            value: self.cells[id].value,
        };
    }
}

// The number of a turn in which no cell is set yet. Once the numbers are used up, they begin anew.
fn next_turn(cells: &mut [Cell], turn: u32) -> u32
    requires { AreUntil turn cells.old }
    ensures kept { kept_of cells.new ≡ kept_of cells.old }
    ensures held { map (held_in result) cells.new ≡ kept_of cells.old }
    ensures until { AreUntil result cells.new }
{
    if turn < u32::MAX {
        return turn + 1;
    }
    unset(cells);
    1
}

// No cell is set in any turn.
fn unset(cells: &mut [Cell])
    ensures kept { kept_of cells.new ≡ kept_of cells.old }
    ensures unset { AreUnset cells.new }
{
    'cells: for cell in cells.iter_mut() {
        *cell = Cell {
            kept: cell.kept,
            turn: 0,
            value: cell.value,
        };
    }
}
