// From a module's words to the steps of its table.

ghost use Rattle.std.specs.Prelude.{◌≡◌, ◌<◌, ◌+◌, ◌^◌, ◌==◌, if◌then◌else◌, map, drop, length, IfOk};
ghost use Rattle.spirv_model.specs.FirstBad.{reading};
ghost use Rattle.spirv_model.specs.Meaning.ModuleMeaning.{behind_header};
ghost use Rattle.spirv_model.specs.Meaning.ModuleDispatch.{local_size};
ghost use Rattle.spirv_model.specs.View.{shown};
ghost use Rattle.std.specs.Ordering.{nat_cmp};
ghost use Rattle.std.specs.BTreeMap.{get};
ghost use Rattle.spirv_run.specs.declared.value.Pointer.TheVariants as pointer;
ghost use Rattle.spirv_run.specs.declared.step.Step.TheVariants as step;
ghost use Rattle.spirv_run.specs.Steps.{end_of_all};
ghost use Rattle.spirv_run.specs.Decoding.{Knows, behind, outer, chain, head_of, outer_by, is_label, begins_with_label, memory_step, plain_step, step_of, steps_from};

use crate::names::Names;
use crate::step::{Source, Step, end_of};
use crate::value::Pointer;
use spirv_model::Op;
use spirv_model::storage_classes::{FUNCTION, INPUT, PUSH_CONSTANT, STORAGE_BUFFER};
use spirv_words::{FrontView, front_of};
use std::alloc::{AllocError, Global};

/// The words behind a module's header.
pub fn behind_header(words: &[u32]) -> &[u32]
    ensures { result.now ≡ behind_header words.now }
{
    match words {
        [_, _, _, _, _, behind @ ..] => behind,
        _ => &[],
    }
}

/// The instructions of words, up to the first word that begins none.
pub fn instructions(alloc: Global, words: &[u32]) -> Result<Vec<Op<'_>>, AllocError>
    ensures { IfOk result (λ ops. map shown ops.items ≡ (reading (length words.now) words.now).ops) }
{
    let mut ops = Vec::new(alloc);
    let mut rest = words;
    'words: for _i in 0..words.len() {
        let [first, behind @ ..] = rest else {
            return Ok(ops);
        };
        match front_of(*first, behind) {
            FrontView::Instruction(op, later) => {
                ops.push(op)?;
                rest = later;
            }
            FrontView::BadCount => return Ok(ops),
            FrontView::BadOpcode => return Ok(ops),
        }
    }
    Ok(ops)
}

/// The sizes of the first execution mode; 1, 1, 1 where there is none.
pub fn local_size(ops: &[Op<'_>]) -> [u32; 3]
    ensures { result ≡ local_size (map shown ops.now) }
{
    'ops: for op in ops {
        if let Op::ExecutionMode { x, y, z, .. } = op {
            return [*x, *y, *z];
        }
    }
    [1, 1, 1]
}

/// The place behind a label, the end where there is no such label.
fn behind(names: &Names, ops: &[Op<'_>], label: u32) -> usize
    requires { Knows names.now 0 (map shown ops.now) }
    ensures { result ≡ behind (map shown ops.now) label }
{
    match names.labels.get(&label) {
        Some(place) => *place,
        None => ops.len(),
    }
}

/// The step of a built-in's variable, and of a buffer's.
fn built_in(names: &Names, id: u32) -> Step
    ensures { result ≡ outer_by pointer.Input id (get nat_cmp names.now.built_ins id) }
{
    match names.built_ins.get(&id) {
        Some(number) => Step::Give {
            id,
            source: Source::Outer(Pointer::Input(*number)),
        },
        None => Step::Stuck,
    }
}

fn buffer(names: &Names, id: u32) -> Step
    ensures { result ≡ outer_by pointer.Buffer id (get nat_cmp names.now.bindings id) }
{
    match names.bindings.get(&id) {
        Some(binding) => Step::Give {
            id,
            source: Source::Outer(Pointer::Buffer(*binding)),
        },
        None => Step::Stuck,
    }
}

/// The step of a variable outside of the function.
fn outer(names: &Names, ops: &[Op<'_>], class: u32, id: u32) -> Step
    requires { Knows names.now 0 (map shown ops.now) }
    ensures { result ≡ outer class id (map shown ops.now) }
{
    match class {
        INPUT => built_in(names, id),
        PUSH_CONSTANT => Step::Give {
            id,
            source: Source::Outer(Pointer::Lengths),
        },
        STORAGE_BUFFER => buffer(names, id),
        _ => Step::Stuck,
    }
}

fn chain(id: u32, base: u32, indexes: &[u32]) -> Step
    ensures { result ≡ chain id base indexes.now }
{
    match indexes {
        [index] => Step::Give {
            id,
            source: Source::Member {
                base,
                index: *index,
            },
        },
        [member, index] => Step::Give {
            id,
            source: Source::Element {
                base,
                member: *member,
                index: *index,
            },
        },
        _ => Step::Stuck,
    }
}

/// The first of some ids.
fn head(ids: &[u32]) -> Option<u32>
    ensures { result ≡ head_of ids.now }
{
    match ids {
        [first, ..] => Some(*first),
        [] => None,
    }
}

fn variable(names: &Names, ops: &[Op<'_>], class: u32, id: u32, first_value: &[u32]) -> Step
    requires { Knows names.now 0 (map shown ops.now) }
    ensures { result ≡ (if class == FUNCTION then step.Variable id (head_of first_value.now) else outer class id (map shown ops.now)) }
{
    if class == FUNCTION {
        Step::Variable {
            id,
            first_value: head(first_value),
        }
    } else {
        outer(names, ops, class, id)
    }
}

/// The result of an id.
fn give(id: u32, source: Source) -> Step
    ensures { result ≡ step.Give id source }
{
    Step::Give { id, source }
}

/// The step of an instruction that writes to memory; that of another does nothing.
fn memory_step(op: Op<'_>) -> Step
    ensures { result ≡ memory_step (shown op.entry) }
{
    match op {
        Op::Store { pointer, value } => Step::Store { pointer, value },
        Op::Atomic {
            code,
            id,
            pointer,
            value,
            ..
        } => Step::Atomic {
            code,
            id,
            pointer,
            value,
        },
        Op::AtomicCompareExchange {
            id,
            pointer,
            value,
            comparator,
            ..
        } => Step::CompareExchange {
            id,
            pointer,
            value,
            comparator,
        },
        _ => Step::Nothing,
    }
}

/// The step of an instruction that needs no other to be known.
fn plain_step(op: Op<'_>) -> Step
    ensures { result ≡ plain_step (shown op.entry) }
{
    match op {
        Op::Constant { id, value, .. } => give(id, Source::Constant(value)),
        Op::Load { id, pointer, .. } => give(id, Source::Load(pointer)),
        Op::AccessChain {
            id,
            base,
            indexes,
            ..
        } => chain(id, base, indexes),
        Op::CompositeExtract {
            id,
            composite,
            index,
            ..
        } => give(id, Source::Component { composite, index }),
        Op::Unary { code, id, a, .. } => give(id, Source::Unary(code, a)),
        Op::Binary { code, id, a, b, .. } => give(id, Source::Binary(code, a, b)),
        Op::Select {
            id,
            condition,
            a,
            b,
            ..
        } => give(id, Source::Select { condition, a, b }),
        _ => memory_step(op),
    }
}

/// The step of an instruction, with the place behind it, and whether a label stands there.
fn step_of(names: &Names, ops: &[Op<'_>], op: Op<'_>, label_next: bool, next: usize) -> Step
    requires names { Knows names.now 0 (map shown ops.now) }
    requires next { next + 1 < 2 ^ 64 }
    ensures { result ≡ step_of (map shown ops.now) (shown op.entry) label_next next }
{
    match op {
        Op::Variable {
            id,
            class,
            first_value,
            ..
        } => variable(names, ops, class, id, first_value),
        Op::Function { .. } => enter(label_next, next),
        Op::FunctionEnd | Op::Label { .. } => Step::Stuck,
        Op::Branch { label } => Step::Jump {
            to: behind(names, ops, label),
        },
        Op::BranchConditional { condition, yes, no } => Step::Choose {
            condition,
            yes: behind(names, ops, yes),
            no: behind(names, ops, no),
        },
        Op::Return => Step::Return,
        _ => plain_step(op),
    }
}

/// Into the function's first block, whose label stands behind it.
fn enter(label_next: bool, next: usize) -> Step
    requires { next + 1 < 2 ^ 64 }
    ensures { result ≡ (if label_next then step.Jump (next + 1) else step.Stuck) }
{
    if label_next {
        Step::Jump { to: next + 1 }
    } else {
        Step::Stuck
    }
}

fn is_label(op: Op<'_>) -> bool
    ensures { result ≡ is_label (shown op.entry) }
{
    matches!(&op, Op::Label { .. })
}

/// Whether a label stands at a place.
fn is_label_at(ops: &[Op<'_>], at: usize) -> bool
    ensures { result ≡ begins_with_label (drop at (map shown ops.now)) }
{
    if at < ops.len() {
        is_label(ops[at])
    } else {
        false
    }
}

/// The steps of instructions.
pub fn steps(alloc: Global, names: &Names, ops: &[Op<'_>]) -> Result<Vec<Step>, AllocError>
    requires { Knows names.now 0 (map shown ops.now) }
    ensures { IfOk result (λ steps. steps.items ≡ steps_from (map shown ops.now) 0 (map shown ops.now)) }
{
    let mut steps = Vec::new(alloc);
    'ops: for at in 0..ops.len() {
        let label_next = is_label_at(ops, at + 1);
        steps.push(step_of(names, ops, ops[at], label_next, at + 1))?;
    }
    Ok(steps)
}

/// The number behind all ids that steps make.
pub fn end_of_ids(steps: &[Step]) -> usize
    ensures { result ≡ end_of_all steps.now }
{
    let mut end = 0;
    'steps: for step in steps {
        end = end_of(*step).max(end);
    }
    end
}
