// The numbers that a shader names.

ghost use Rattle.std.specs.Prelude.{◌≡◌, flat_map, OnOk, IfOk};
ghost use Rattle.shader_model.specs.Body.{body_of};
ghost use Rattle.shader_model.specs.Shader.{program_of};
ghost use Rattle.spirv_emit.specs.Numbers.{with_numbers, from_on, own_numbers, operand_numbers, instr_numbers, test_numbers, body_numbers, declared_numbers, numbers_of};
ghost use Rattle.spirv_emit.specs.Emits.{Numbered};

use crate::numbers::Numbers;
use dx_types::limits::{LOOP_TURNS, MODULE_BINDINGS};
use shader_model::{Declared, Instr, Node, Operand, Shader, Test};
use std::alloc::{AllocError, Global};

/// Adds numbers in order, those that aren't there yet.
fn add_all(numbers: &mut Numbers, more: &[u32]) -> Result<(), AllocError>
    ensures { OnOk result (numbers.new ≡ with_numbers numbers.old more.now) }
{
    for number in more {
        numbers.add(*number)?;
    }
    Ok(())
}

/// Adds numbers from 0 up to a limit.
fn add_below(numbers: &mut Numbers, limit: u32) -> Result<(), AllocError>
    ensures { OnOk result (numbers.new ≡ with_numbers numbers.old (from_on 0 limit)) }
{
    for number in 0..limit {
        numbers.add(number)?;
    }
    Ok(())
}

fn add_operand(numbers: &mut Numbers, operand: &Option<Operand>) -> Result<(), AllocError>
    ensures { OnOk result (numbers.new ≡ with_numbers numbers.old (operand_numbers operand.now)) }
{
    match operand {
        Some(of) => add_all(numbers, &of.words),
        None => Ok(()),
    }
}

fn add_operands(numbers: &mut Numbers, operands: &[Option<Operand>]) -> Result<(), AllocError>
    ensures { OnOk result (numbers.new ≡ with_numbers numbers.old (flat_map operand_numbers operands.now)) }
{
    for operand in operands {
        add_operand(numbers, operand)?;
    }
    Ok(())
}

fn add_instr(numbers: &mut Numbers, instr: &Instr) -> Result<(), AllocError>
    ensures { OnOk result (numbers.new ≡ with_numbers numbers.old (instr_numbers instr.now)) }
{
    add_operands(numbers, &instr.sources)
}

fn add_test(numbers: &mut Numbers, test: &Option<Test>) -> Result<(), AllocError>
    ensures { OnOk result (numbers.new ≡ with_numbers numbers.old (test_numbers test.now)) }
{
    match test {
        Some(test) => add_all(numbers, &test.value.words),
        None => Ok(()),
    }
}

#[cycle(collect)]
fn add_nodes(numbers: &mut Numbers, nodes: &[Node]) -> Result<(), AllocError>
    ensures { OnOk result (numbers.new ≡ with_numbers numbers.old (body_numbers (body_of nodes.now))) }
{
    for node in nodes {
        add_node(numbers, node)?;
    }
    Ok(())
}

#[cycle(collect)]
fn add_node(numbers: &mut Numbers, node: &Node) -> Result<(), AllocError>
    ensures { OnOk result (Numbered numbers.old numbers.new node.now) }
{
    match node {
        Node::Plain(instr) => {
            add_instr(numbers, instr)?;
            Ok(())
        }
        Node::If { test, yes, no } => {
            add_all(numbers, &test.value.words)?;
            add_nodes(numbers, yes.as_slice())?;
            add_nodes(numbers, no.as_slice())?;
            Ok(())
        }
        Node::Loop { body } => {
            add_nodes(numbers, body.as_slice())?;
            Ok(())
        }
        Node::Break(test) => {
            add_test(numbers, test)?;
            Ok(())
        }
        Node::Continue(test) => {
            add_test(numbers, test)?;
            Ok(())
        }
        Node::Return(test) => {
            add_test(numbers, test)?;
            Ok(())
        }
    }
}

fn add_declared(numbers: &mut Numbers, declared: &[Declared]) -> Result<(), AllocError>
    ensures { OnOk result (numbers.new ≡ with_numbers numbers.old (flat_map declared_numbers declared.now)) }
{
    for one in declared {
        add_all(numbers, &[one.parameter, one.parameter / 4])?;
    }
    Ok(())
}

/// All numbers of a shader's module.
pub fn numbers_of(alloc: Global, shader: &Shader) -> Result<Numbers, AllocError>
    ensures { IfOk result (λ numbers. numbers ≡ numbers_of (program_of shader.now)) }
{
    let mut numbers = Numbers::new(alloc);
    add_below(&mut numbers, MODULE_BINDINGS)?;
    add_all(&mut numbers, &[LOOP_TURNS, 0xffff_ffff])?;
    add_declared(&mut numbers, shader.declared())?;
    add_nodes(&mut numbers, shader.body())?;
    Ok(numbers)
}
