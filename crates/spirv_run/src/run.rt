// One step, and one invocation from step to step.

ghost use Rattle.std.specs.Prelude.{◌≡◌, ◌+◌, ◌≤◌, ℕ, drop, option_map, length, if◌then◌else◌, Some, None};
ghost use Rattle.shader_model.specs.Invocation as model;
ghost use Rattle.spirv_model.specs.Meaning.ModuleMeaning.{runs, reading_of, module_meaning};
ghost use Rattle.spirv_run.specs.Held.{shown, memory_of};
ghost use Rattle.spirv_run.specs.Steps.{sourced, done, reached, continued, chosen_in, first_of, end_of};
ghost use Rattle.spirv_run.specs.Decoding.{ops_of};
ghost use Rattle.spirv_run.specs.Tables.{IsFor};

use crate::frame::Frame;
use crate::operations::{component, of_one, of_two, selected};
use crate::pointers::{element, member};
use crate::step::{Next, Source, Step};
use crate::table::Table;
use crate::thread::Thread;
use crate::value::Value;
use shader_slots::Slots;
use spirv_model::limits::STEPS_A_WORD;

/// The place that a condition chooses.
fn choose(condition: Option<Value>, yes: usize, no: usize) -> Next
    ensures { (frame : Frame) (slots : model.Slots) → reached result (memory_of frame slots) ≡ chosen_in (option_map shown condition) yes no (memory_of frame slots) }
{
    match condition {
        Some(Value::Truth(holds)) => Next::On(if holds { yes } else { no }),
        _ => Next::Stuck,
    }
}

impl Frame {
    /// What a variable of the function begins with.
    fn first(&self, id: Option<u32>) -> Option<Value>
        ensures { (slots : model.Slots) → option_map shown result ≡ first_of id (memory_of self.now slots) }
    {
        match id {
            None => Some(Value::Nothing),
            Some(id) => self.value(id),
        }
    }

    /// The value of a result, None where it is undefined.
    fn sourced(&self, thread: &Thread, slots: &Slots<'_>, source: Source) -> Option<Value>
        ensures { option_map shown result ≡ sourced thread.now source (memory_of self.now slots.now.words) }
    {
        match source {
            Source::Constant(value) => Some(Value::Word(value)),
            Source::Outer(pointer) => Some(Value::At(pointer)),
            Source::Load(pointer) => self.loaded(thread, slots, self.value(pointer)),
            Source::Member { base, index } => member(slots, self.value(base), self.value(index)),
            Source::Element {
                base,
                member,
                index,
            } => element(
                slots,
                self.value(base),
                self.value(member),
                self.value(index),
            ),
            Source::Component { composite, index } => component(index, self.value(composite)),
            Source::Unary(code, a) => of_one(code, self.value(a)),
            Source::Binary(code, a, b) => of_two(code, self.value(a), self.value(b)),
            Source::Select { condition, a, b } => selected(
                self.value(condition),
                self.value(a),
                self.value(b),
            ),
        }
    }

    /// One step, with the place behind it.
    fn act(&mut self, thread: &Thread, slots: &mut Slots<'_>, step: Step, next: usize) -> Next
        requires results { end_of step ≤ length self.old.begins.results }
        requires variables { end_of step ≤ length self.old.begins.variables }
        ensures outcome { reached result (memory_of self.new slots.new.words) ≡ done thread.now step next (memory_of self.old slots.old.words) }
        ensures around { slots.new.around ≡ slots.old.around }
        ensures begins { self.new.begins ≡ self.old.begins }
    {
        match step {
            Step::Nothing => Next::On(next),
            Step::Stuck => Next::Stuck,
            Step::Return => Next::Done,
            Step::Give { id, source } => {
                let value = self.sourced(thread, slots, source);
                self.give(id, value, next)
            }
            Step::Variable { id, first_value } => {
                let value = self.first(first_value);
                self.declare(id, value, next)
            }
            Step::Store { pointer, value } => {
                let pointer = self.value(pointer);
                let value = self.value(value);
                self.store(slots, pointer, value, next)
            }
            Step::Atomic {
                code,
                id,
                pointer,
                value,
            } => {
                let pointer = self.value(pointer);
                let operand = self.value(value);
                self.change(slots, code, id, pointer, operand, next)
            }
            Step::CompareExchange {
                id,
                pointer,
                value,
                comparator,
            } => {
                let pointer = self.value(pointer);
                let operand = self.value(value);
                let comparator = self.value(comparator);
                self.change_if_equal(slots, id, pointer, (operand, comparator), next)
            }
            Step::Jump { to } => Next::On(to),
            Step::Choose { condition, yes, no } => choose(self.value(condition), yes, no),
        }
    }
}

/// At most so many steps from a place of the table on. It answers where they lead.
fn run_round(
    table: &Table,
    thread: &Thread,
    start: usize,
    most: u32,
    frame: &mut Frame,
    slots: &mut Slots<'_>,
) -> Next
    requires room { IsFor frame.old table.now }
    ensures outcome { (n : ℕ) → runs thread.now (ops_of table.now) (most + n) (drop start (ops_of table.now)) (memory_of frame.old slots.old.words) ≡ continued (ops_of table.now) (runs thread.now (ops_of table.now) n) (reached result (memory_of frame.new slots.new.words)) }
    ensures around { slots.new.around ≡ slots.old.around }
    ensures room { IsFor frame.new table.now }
{
    let mut place = start;
    'steps: for _i in 0..most {
        match table.step(place) {
            None => return Next::Stuck,
            Some(step) => match frame.act(thread, slots, step, place + 1) {
                Next::On(next) => place = next,
                Next::Done => return Next::Done,
                Next::Stuck => return Next::Stuck,
            },
        }
    }
    Next::On(place)
}

/// Runs one invocation of a module on the words of the slots. It answers whether the invocation came to its end. It
/// takes no memory.
pub fn invoke(table: &Table, thread: &Thread, frame: &mut Frame, slots: &mut Slots<'_>) -> bool
    requires whole { (reading_of table.now).stop ≡ None }
    requires room { IsFor frame.old table.now }
    ensures words { module_meaning table.now thread.now slots.old.words ≡ (if result then Some slots.new.words else None) }
    ensures around { slots.new.around ≡ slots.old.around }
    ensures room { IsFor frame.new table.now }
{
    let start = frame.begin();
    let rounds = table.word_count();
    let mut place = start as usize;
    let mut most = STEPS_A_WORD - start;
    'rounds: for _i in 0..rounds {
        match run_round(table, thread, place, most, frame, slots) {
            Next::On(next) => place = next,
            Next::Done => return true,
            Next::Stuck => return false,
        }
        most = STEPS_A_WORD;
    }
    false
}
