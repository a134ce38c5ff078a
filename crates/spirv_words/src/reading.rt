// Reading a module's words.

ghost use Rattle.std.specs.Prelude.{◌≡◌, ◌+◌, ◌<◌, ◌^◌, length, None, Some, IfOk, OnOk};
ghost use Rattle.spirv_model.specs.View.{shown};
ghost use Rattle.spirv_model.specs.FirstBad.{word_count, ends_function, body_fault, first_bad};
ghost use Rattle.spirv_words.specs.Known.{history, Extends};
ghost use Rattle.spirv_words.specs.Reading.{reading_of, read_fault, instruction_fault, IsRead, IfBad};

use crate::end::ModuleEnd;
use crate::front::{FrontView, front_of};
use crate::header::find_header_fault;
use crate::known::Known;
use crate::late::word_count;
use spirv_model::{ModuleFault, ModuleKind, Op};
use std::alloc::Global;

/// Adds the instruction at a place, where the profile takes it there.
#[tactic(auto, unfolding(crate::specs::Reading::instruction_fault))]
fn step<'a>(known: Known<'a>, at: u32, op: Op<'a>) -> Result<Known<'a>, ModuleEnd>
    requires { at + word_count (shown op) < 2 ^ 32 }
    ensures passes { OnOk result (instruction_fault known.entry.bound (history known.entry) at (shown op.entry) ≡ None) }
    ensures extends { IfOk result (λ after. Extends known.entry after (shown op.entry)) }
    ensures refused { IfBad result (λ fault. instruction_fault known.entry.bound (history known.entry) at (shown op.entry) ≡ Some fault) }
{
    if let Some(fault) = known.fault_of(at, op) {
        return Err(ModuleEnd::Bad(fault));
    }
    match known.add(op) {
        Ok(known) => Ok(known),
        Err(_) => Err(ModuleEnd::NoMemory),
    }
}

/// The instructions that the words behind the header spell, where the profile takes each of them.
fn read_ops(alloc: Global, bound: u32, body: &[u32]) -> Result<Known<'_>, ModuleEnd>
    requires { 5 + length body.now < 2 ^ 32 }
    ensures read { IfOk result (IsRead bound (length body.now) (reading_of body.now)) }
    ensures refused { IfBad result (λ fault. read_fault bound (reading_of body.now) ≡ Some fault) }
{
    let mut known = Known::new(alloc, bound);
    let mut at = 5;
    let mut rest = body;
    'words: while let [first, more @ ..] = rest {
        match front_of(*first, more) {
            FrontView::BadCount => {
                return Err(ModuleEnd::Bad(ModuleFault {
                    word: at,
                    kind: ModuleKind::Count,
                }));
            }
            FrontView::BadOpcode => {
                return Err(ModuleEnd::Bad(ModuleFault {
                    word: at,
                    kind: ModuleKind::Opcode,
                }));
            }
            FrontView::Instruction(op, behind) => {
                known = match step(known, at, op) {
                    Ok(known) => known,
                    Err(end) => return Err(end),
                };
                at += word_count(op) as u32;
                rest = behind;
            }
        }
    }
    Ok(known)
}

/// Whether the latest instruction ends the function.
#[tactic(auto, using(crate::proofs::Walking::ends_behind))]
fn has_ended(known: &Known<'_>) -> bool
    ensures { result ≡ ends_function (history known.now) }
{
    match known.latest() {
        Some(Op::FunctionEnd) => true,
        _ => false,
    }
}

/// Whether the profile takes the words behind the header.
fn check_body(alloc: Global, bound: u32, body: &[u32]) -> Result<(), ModuleEnd>
    requires { 5 + length body.now < 2 ^ 32 }
    ensures good { OnOk result (body_fault bound (reading_of body.now) ≡ None) }
    ensures bad { IfBad result (λ fault. body_fault bound (reading_of body.now) ≡ Some fault) }
{
    let known = match read_ops(alloc, bound, body) {
        Ok(known) => known,
        Err(end) => return Err(end),
    };
    if !has_ended(&known) {
        return Err(ModuleEnd::Bad(ModuleFault {
            word: 4 + body.len() as u32,
            kind: ModuleKind::Flow,
        }));
    }
    match known.late_fault() {
        Some(fault) => Err(ModuleEnd::Bad(fault)),
        None => Ok(()),
    }
}

/// Whether the profile takes a module's words.
#[tactic(auto, unfolding(spirv_model::specs::FirstBad::first_bad))]
pub fn check_words(alloc: Global, words: &[u32]) -> Result<(), ModuleEnd>
    requires { length words.now < 2 ^ 32 }
    ensures good { OnOk result (first_bad words.now ≡ None) }
    ensures bad { IfBad result (λ fault. first_bad words.now ≡ Some fault) }
{
    if let Some(fault) = find_header_fault(words) {
        return Err(ModuleEnd::Bad(fault));
    }
    match words {
        [_, _, _, bound, _, body @ ..] => check_body(alloc, *bound, body),
        [] | [_] | [_, _] | [_, _, _] | [_, _, _, _] => Ok(()),
    }
}
