// What an invocation has under way: results and variables by id.

ghost use Rattle.std.specs.Prelude.{◌≡◌, ◌<◌, option_map, replicate, length, slice_set, IfOk, OnSome, None, Some};
ghost use Rattle.shader_model.specs.Invocation as model;
ghost use Rattle.spirv_model.specs.Meaning.Memory.{with_result, with_variable};
ghost use Rattle.spirv_run.specs.Frames.{at_start};
ghost use Rattle.spirv_run.specs.Held.{shown, table_of, memory_of};
ghost use Rattle.spirv_run.specs.Steps.{reached, result_in, variable_in};

use crate::cells::Cells;
use crate::step::Next;
use crate::value::{Pointer, Value};
use std::alloc::{AllocError, Global};
use std::marker::Model;

/// The results and the variables by id, and what each invocation begins with. It is made once and used again by each
/// invocation.
#[derive(Drop)]
pub struct Frame {
    start: u32,
    results: Cells,
    variables: Cells,
}

impl Model for Frame {
    ghost use Rattle.spirv_run.specs.Frames as frames;

    ghost Value = { frames.Frame };

    ghost view = { λ f. record {
      begins = record { start = f.start; results = f.results.kept; variables = f.variables.kept };
      results = f.results.held;
      variables = f.variables.held;
    } };
}

impl Frame {
    /// Room for so many ids. Each invocation begins at the first step, without a value.
    pub fn new(alloc: Global, count: usize) -> Result<Frame, AllocError>
        ensures { IfOk result (λ f. f ≡ at_start (record { start = 0; results = replicate count None; variables = replicate count None })) }
    {
        let results = Cells::new(alloc, count)?;
        let variables = Cells::new(alloc, count)?;
        Ok(Frame {
            start: 0,
            results,
            variables,
        })
    }

    /// Begins an invocation, and answers the place of its first step.
    pub fn begin(&mut self) -> u32
        ensures start { result ≡ self.old.begins.start }
        ensures begun { self.new ≡ at_start self.old.begins }
    {
        self.results.begin();
        self.variables.begin();
        self.start
    }

    /// Each later invocation begins at this place.
    pub fn start_at(&mut self, start: u32)
        ensures { self.new ≡ record self.old { begins = record self.old.begins { start = start } } }
    {
        self.start = start;
    }

    /// Each later invocation begins with this value of a result.
    pub fn keep(&mut self, id: u32, value: Value)
        requires { id < length self.old.begins.results }
        ensures begins { self.new.begins ≡ record self.old.begins { results = slice_set self.old.begins.results id (Some value) } }
        ensures set { (slots : model.Slots) → memory_of (at_start self.new.begins) slots ≡ with_result id (shown value) (memory_of (at_start self.old.begins) slots) }
    {
        self.results.keep(id, value);
    }

    pub fn value(&self, id: u32) -> Option<Value>
        ensures { option_map shown result ≡ table_of self.now.results id }
    {
        self.results.get(id)
    }

    pub fn variable(&self, id: u32) -> Option<Value>
        ensures value { option_map shown result ≡ table_of self.now.variables id }
        ensures within { OnSome result (id < length self.now.begins.variables) }
    {
        self.variables.get(id)
    }

    pub fn set_value(&mut self, id: u32, value: Value)
        requires { id < length self.old.begins.results }
        ensures set { (slots : model.Slots) → memory_of self.new slots ≡ with_result id (shown value) (memory_of self.old slots) }
        ensures begins { self.new.begins ≡ self.old.begins }
    {
        self.results.set(id, value);
    }

    pub fn set_variable(&mut self, id: u32, value: Value)
        requires { id < length self.old.begins.variables }
        ensures set { (slots : model.Slots) → memory_of self.new slots ≡ with_variable id (shown value) (memory_of self.old slots) }
        ensures begins { self.new.begins ≡ self.old.begins }
    {
        self.variables.set(id, value);
    }

    /// Gives an id its value and goes on, where there is a value.
    pub fn give(&mut self, id: u32, value: Option<Value>, next: usize) -> Next
        requires { id < length self.old.begins.results }
        ensures given { (slots : model.Slots) → reached result (memory_of self.new slots) ≡ result_in (option_map shown value) id next (memory_of self.old slots) }
        ensures begins { self.new.begins ≡ self.old.begins }
    {
        match value {
            None => Next::Stuck,
            Some(value) => {
                self.set_value(id, value);
                Next::On(next)
            }
        }
    }

    /// Makes a variable of the function with its first value, where there is one.
    pub fn declare(&mut self, id: u32, value: Option<Value>, next: usize) -> Next
        requires results { id < length self.old.begins.results }
        requires variables { id < length self.old.begins.variables }
        ensures given { (slots : model.Slots) → reached result (memory_of self.new slots) ≡ variable_in (option_map shown value) id next (memory_of self.old slots) }
        ensures begins { self.new.begins ≡ self.old.begins }
    {
        match value {
            None => Next::Stuck,
            Some(value) => {
                self.set_variable(id, value);
                self.set_value(id, Value::At(Pointer::Variable(id)));
                Next::On(next)
            }
        }
    }
}
