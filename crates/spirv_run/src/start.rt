// Where invocations start: behind the first steps whose results are the same in all of them.

ghost use Rattle.std.specs.Prelude.{◌≡◌, ◌≤◌, ℕ, List, length, option_map, true, false, OnSome, Some};
ghost use Rattle.shader_model.specs.declared.ids.Ids.{Ids};
ghost use Rattle.shader_model.specs.Invocation as model;
ghost use Rattle.spirv_model.specs.declared.limits.TheConstants.{STEPS_A_WORD};
ghost use Rattle.spirv_model.specs.Meaning.Memory.{Memory};
ghost use Rattle.spirv_model.specs.Meaning.ModuleMeaning.{begun};
ghost use Rattle.spirv_run.specs.Frames.{at_start};
ghost use Rattle.spirv_run.specs.Held.{shown, memory_of};
ghost use Rattle.spirv_run.specs.Steps.{Reaches, sourced, done, end_of, end_of_all};
ghost use Rattle.spirv_run.specs.Decoding.{steps_of};
ghost use Rattle.spirv_run.specs.Tables.{Leave};

use crate::frame::Frame;
use crate::step::{Source, Step};
use crate::value::Value;
use spirv_model::limits::STEPS_A_WORD;

/// The value of a result that is the same in each invocation.
fn fixed(source: Source) -> Option<Value>
    ensures { OnSome result ((ids : Ids) (m : Memory) → sourced ids source m ≡ option_map shown result) }
{
    match source {
        Source::Constant(value) => Some(Value::Word(value)),
        Source::Outer(pointer) => Some(Value::At(pointer)),
        _ => None,
    }
}

/// Lets each invocation begin behind a step that is the same in all of them, if it is such a step.
fn keep(step: Step, frame: &mut Frame) -> bool
    requires { end_of step ≤ length frame.old.begins.results }
    ensures done { result ≡ true → (ids : Ids) (slots : model.Slots) (next : ℕ)
        → done ids step next (memory_of (at_start frame.old.begins) slots) ≡ Reaches next (memory_of (at_start frame.new.begins) slots) }
    ensures left { result ≡ false → frame.new ≡ frame.old }
    ensures results { length frame.new.begins.results ≡ length frame.old.begins.results }
    ensures variables { frame.new.begins.variables ≡ frame.old.begins.variables }
{
    match step {
        Step::Nothing => true,
        Step::Give { id, source } => match fixed(source) {
            None => false,
            Some(value) => {
                frame.keep(id, value);
                true
            }
        },
        _ => false,
    }
}

/// Lets each invocation begin behind the first steps that are the same in all of them, no more than may be run for one
/// word, and answers how many they are.
pub fn start_of(steps: &[Step], frame: &mut Frame) -> u32
    requires room { end_of_all steps.now ≤ length frame.old.begins.results }
    requires begun { (slots : model.Slots) → memory_of (at_start frame.old.begins) slots ≡ begun slots }
    ensures leave { (words : List ℕ) → steps.now ≡ steps_of words → Leave words result (at_start frame.new.begins) }
    ensures near { result ≤ STEPS_A_WORD }
    ensures within { result ≤ length steps.now }
    ensures results { length frame.new.begins.results ≡ length frame.old.begins.results }
    ensures variables { frame.new.begins.variables ≡ frame.old.begins.variables }
{
    let most = steps.len().min(STEPS_A_WORD as usize) as u32;
    'steps: for at in 0..most {
        if !keep(steps[at as usize], frame) {
            return at;
        }
    }
    most
}
