//! A listing, as it is written.

ghost use Rattle.std.specs.Prelude.{◌≡◌, ◌++◌, ◌∷◌, [], map, OnOk, IfOk, codes, decimal};
ghost use Rattle.std.specs.List.{AllByRecursion};
ghost use Rattle.std.specs.String.{string_bytes};
ghost use Rattle.vk_types.specs.declared.op.VkOp.TheVariants as op;
ghost use Rattle.vk_trace.specs.ListText.{IsListed, IsMask, access_word, call_words, cond_words, groups_words, hex_word, host_words, join, line, mask_word, part, range_word, rest_of, second_word, slot_word, slot_words, stage_parts, text_of, work_name, work_words};
ghost use Rattle.vk_trace.specs.Writing.{marked_parts, next_mark};

use crate::mask::alike;
use bitflags::Flags;
use dx_types::Range;
use std::alloc::{AllocError, Global};
use vk_types::{Access, Barrier, Command, Cond, Groups, Mask, SlotName, SlotRange, VkOp, Work};

/// The text of a listing: a line for each operation, each of which is one that a listing has.
pub fn print_ops(alloc: Global, ops: &[VkOp]) -> Result<String, AllocError>
    requires { AllByRecursion IsListed ops.now }
    ensures { IfOk result (λ text. string_bytes text ≡ text_of ops.now) }
{
    let mut text = String::new(alloc);
    'lines: for op in ops {
        push_line(&mut text, op)?;
    }
    Ok(text)
}

// Appends the line of an operation.
#[tactic(auto, unfolding(crate::specs::ListText::line))]
fn push_line(text: &mut String, op: &VkOp) -> Result<(), AllocError>
    requires { IsListed op.now }
    ensures { OnOk result (string_bytes text.new ≡ string_bytes text.old ++ line op.now) }
{
    match op {
        VkOp::HostWrite { range, call } => push_host(text, "host-write", range, *call),
        VkOp::Pipeline { shader } => writeln!(text, "pipeline {shader}"),
        VkOp::Barrier(barrier) => push_barrier(text, barrier),
        VkOp::Command(command) => push_command(text, command),
        VkOp::Submit(chunk) => writeln!(text, "submit {chunk}"),
        VkOp::Fence(chunk) => writeln!(text, "fence {chunk}"),
        VkOp::HostRead { range, call } => push_host(text, "host-read", range, *call),
    }
}

// Appends the line of what the host does.
fn push_host(text: &mut String, name: &str, range: &Range, call: u32) -> Result<(), AllocError>
    ensures { OnOk result (string_bytes text.new ≡ string_bytes text.old ++ (join 32 (name.now ∷ host_words range.now call) ++ 10 ∷ [])) }
{
    writeln!(
        text,
        "{name} b{} {} {} call {call}",
        range.block, range.from, range.to
    )
}

// Appends the line of a barrier.
fn push_barrier(text: &mut String, barrier: &Barrier) -> Result<(), AllocError>
    requires source { IsMask barrier.now.source }
    requires dest { IsMask barrier.now.dest }
    ensures { OnOk result (string_bytes text.new ≡ string_bytes text.old ++ line (op.Barrier barrier.now)) }
{
    text.push_str("barrier")?;
    push_mask(text, &barrier.source)?;
    push_mask(text, &barrier.dest)?;
    push_cause(text, barrier.first, barrier.second)
}

// Appends the two commands that a barrier stands for, the second or the host, and the line's end.
fn push_cause(text: &mut String, first: u64, second: Option<u64>) -> Result<(), AllocError>
    ensures { OnOk result (string_bytes text.new ≡ string_bytes text.old ++ (rest_of 32 (codes "cause" ∷ decimal first ∷ second_word second ∷ []) ++ 10 ∷ [])) }
{
    match second {
        Some(second) => writeln!(text, " cause {first} {second}"),
        None => writeln!(text, " cause {first} host"),
    }
}

// Appends a mask.
fn push_mask(text: &mut String, mask: &Mask) -> Result<(), AllocError>
    requires { IsMask mask.now }
    ensures { OnOk result (string_bytes text.new ≡ string_bytes text.old ++ 32 ∷ mask_word mask.now) }
{
    match alike(mask) {
        Some(access) => write!(text, " all:{}", access_name(access)),
        None => push_stages(text, mask),
    }
}

// Appends the stages of a mask, the first behind a blank and the others behind commas.
fn push_stages(text: &mut String, mask: &Mask) -> Result<(), AllocError>
    ensures { OnOk result (string_bytes text.new ≡ string_bytes text.old ++ marked_parts (codes " ") (stage_parts mask.now)) }
{
    let mark = push_part(text, " ", "indirect:", mask.indirect)?;
    let mark = push_part(text, mark, "compute:", mask.compute)?;
    let mark = push_part(text, mark, "transfer:", mask.transfer)?;
    push_part(text, mark, "host:", mask.host)?;
    Ok(())
}

// Appends a stage behind a mark, if the stage is named: the mark of the next one.
fn push_part<'a>(
    text: &mut String,
    mark: &'a str,
    name: &str,
    access: Option<Access>,
) -> Result<&'a str, AllocError>
    ensures { IfOk result (λ next. (string_bytes text.new ≡ string_bytes text.old ++ marked_parts mark.now (part name.now access)) × (next.now ≡ next_mark mark.now (part name.now access))) }
{
    let Some(access) = access else {
        return Ok(mark);
    };
    write!(text, "{mark}{name}{}", access_name(access))?;
    Ok(",")
}

fn access_name(access: Access) -> &'static str
    ensures { result.now ≡ access_word access }
{
    match access.bits() {
        0 => "-",
        1 => "r",
        2 => "w",
        _ => "rw",
    }
}

// Appends the line of a command.
fn push_command(text: &mut String, command: &Command) -> Result<(), AllocError>
    ensures { OnOk result (string_bytes text.new ≡ string_bytes text.old ++ line (op.Command command.now)) }
{
    push_head(text, work_name(&command.work), command.number)?;
    push_work(text, &command.work)?;
    push_cond(text, command.cond)?;
    push_call(text, command.call)
}

fn push_head(text: &mut String, name: &str, number: u64) -> Result<(), AllocError>
    ensures { OnOk result (string_bytes text.new ≡ string_bytes text.old ++ (name.now ++ 32 ∷ decimal number)) }
{
    write!(text, "{name} {number}")
}

// Appends the call of a line, and the line's end.
fn push_call(text: &mut String, call: u32) -> Result<(), AllocError>
    ensures { OnOk result (string_bytes text.new ≡ string_bytes text.old ++ (rest_of 32 (call_words call) ++ 10 ∷ [])) }
{
    writeln!(text, " call {call}")
}

fn work_name(work: &Work) -> &'static str
    ensures { result.now ≡ work_name work.now }
{
    match work {
        Work::Copy { .. } => "copy",
        Work::Fill { .. } => "fill",
        Work::Clear { .. } => "clear",
        Work::Dispatch { .. } => "dispatch",
    }
}

// Appends what a command does.
fn push_work(text: &mut String, work: &Work) -> Result<(), AllocError>
    ensures { OnOk result (string_bytes text.new ≡ string_bytes text.old ++ rest_of 32 (work_words work.now)) }
{
    match work {
        Work::Copy { source, target } => {
            push_range(text, " r", source)?;
            push_range(text, " w", target)
        }
        Work::Fill { target, word } => {
            push_memory_word(text, *word)?;
            push_range(text, " w", target)
        }
        Work::Clear {
            target,
            words,
            unit,
        } => push_clear(text, words, *unit, target),
        Work::Dispatch {
            shader,
            groups,
            slots,
        } => {
            write!(text, " p{shader}")?;
            push_groups(text, groups)?;
            push_slots(text, slots.as_slice())
        }
    }
}

// Appends what a clear does.
fn push_clear(text: &mut String, words: &[u32], unit: u32, target: &Range) -> Result<(), AllocError>
    ensures { OnOk result (string_bytes text.new ≡ string_bytes text.old ++ rest_of 32 (map hex_word words.now ++ (decimal unit ∷ codes "w" ∷ range_word target.now ∷ []))) }
{
    push_memory(text, words)?;
    push_unit(text, unit, target)
}

fn push_unit(text: &mut String, unit: u32, target: &Range) -> Result<(), AllocError>
    ensures { OnOk result (string_bytes text.new ≡ string_bytes text.old ++ rest_of 32 (decimal unit ∷ codes "w" ∷ range_word target.now ∷ [])) }
{
    write!(text, " {unit}")?;
    push_range(text, " w", target)
}

// Appends a range behind a word.
fn push_range(text: &mut String, word: &str, range: &Range) -> Result<(), AllocError>
    ensures { OnOk result (string_bytes text.new ≡ string_bytes text.old ++ (word.now ++ 32 ∷ range_word range.now)) }
{
    write!(text, "{word} b{}:{}-{}", range.block, range.from, range.to)
}

// Appends words of memory.
fn push_memory(text: &mut String, words: &[u32]) -> Result<(), AllocError>
    ensures { OnOk result (string_bytes text.new ≡ string_bytes text.old ++ rest_of 32 (map hex_word words.now)) }
{
    'words: for word in words {
        push_memory_word(text, *word)?;
    }
    Ok(())
}

fn push_memory_word(text: &mut String, word: u32) -> Result<(), AllocError>
    ensures { OnOk result (string_bytes text.new ≡ string_bytes text.old ++ 32 ∷ hex_word word) }
{
    let mut digits = [0; 8];
    hex::encode_to_slice(word.to_be_bytes(), &mut digits).unwrap();
    text.push_str(" ")?;
    text.push_str(str::from_utf8(&digits).unwrap())
}

// Appends the counts of a dispatch, or where they lie.
fn push_groups(text: &mut String, groups: &Groups) -> Result<(), AllocError>
    ensures { OnOk result (string_bytes text.new ≡ string_bytes text.old ++ rest_of 32 (groups_words groups.now)) }
{
    match groups {
        Groups::Direct { x, y, z } => write!(text, " {x} {y} {z}"),
        Groups::Indirect { at } => push_range(text, " at", at),
    }
}

// Appends slots with their ranges.
fn push_slots(text: &mut String, slots: &[SlotRange]) -> Result<(), AllocError>
    ensures { OnOk result (string_bytes text.new ≡ string_bytes text.old ++ rest_of 32 (slot_words slots.now)) }
{
    'slots: for slot in slots {
        push_slot(text, slot)?;
    }
    Ok(())
}

fn push_slot(text: &mut String, slot: &SlotRange) -> Result<(), AllocError>
    ensures { OnOk result (string_bytes text.new ≡ string_bytes text.old ++ rest_of 32 (slot_word slot.now.slot ∷ range_word slot.now.range ∷ [])) }
{
    match slot.slot {
        SlotName::Constant(number) => write!(text, " c{number}")?,
        SlotName::Srv(number) => write!(text, " s{number}")?,
        SlotName::Uav(number) => write!(text, " u{number}")?,
    }
    push_range(text, "", &slot.range)
}

// Appends a condition, if there is one.
fn push_cond(text: &mut String, cond: Option<Cond>) -> Result<(), AllocError>
    ensures { OnOk result (string_bytes text.new ≡ string_bytes text.old ++ rest_of 32 (cond_words cond)) }
{
    match cond {
        Some(cond) => {
            push_range(text, " if", &cond.at)?;
            write!(text, " {}", cond.value)
        }
        None => Ok(()),
    }
}
