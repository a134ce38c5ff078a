// The code of blocks of nodes.

ghost use Rattle.std.specs.Prelude.{IsTrue, not, OnOk, IfOk};
ghost use Rattle.shader_model.specs.Body.{End, body_of, node_before};
ghost use Rattle.spirv_emit.specs.Code.{body_ops, body_end};
ghost use Rattle.spirv_emit.specs.Emits.{layout_of, Appends, Ready, Joins, Stops};

use crate::code::Code;
use crate::flow::Out;
use crate::lower::test_calculation;
use crate::plan::Plan;
use shader_model::{Declared, Node};
use std::alloc::AllocError;

/// Where a block's end, a break and a continue lead.
#[derive(Clone, Copy)]
pub struct Exits {
    pub end: u32,
    pub brk: u32,
    pub cont: u32,
}

/// The code of a block.
#[cycle(nodes)]
pub fn emit_nodes(
    plan: &Plan,
    declared: &[Declared],
    code: &mut Code,
    nodes: &[Node],
    exits: Exits,
) -> Result<(), AllocError>
    requires { Ready declared.now (body_of nodes.now) code.old.next }
    ensures { let at = layout_of plan.now in let ds = declared.now in let b = body_of nodes.now in OnOk result (Appends code.old code.new (body_ops ds at b code.old.next exits.end exits.brk exits.cont) (body_end ds b code.old.next)) }
{
    for node in nodes {
        let on = emit_node(plan, declared, code, node, exits)?;
        if !on {
            return Ok(());
        }
    }
    code.branch(exits.end)?;
    Ok(())
}

// Whether what stands behind the node may be run.
#[cycle(nodes)]
fn emit_node(
    plan: &Plan,
    declared: &[Declared],
    code: &mut Code,
    node: &Node,
    exits: Exits,
) -> Result<bool, AllocError>
    requires { Ready declared.now (node_before node.now End) code.old.next }
    ensures joins { IfOk result (λ on. IsTrue on → Joins declared.now (layout_of plan.now) code.old code.new node.now exits.end exits.brk exits.cont) }
    ensures stops { IfOk result (λ on. IsTrue (not on) → Stops declared.now (layout_of plan.now) code.old code.new node.now exits.end exits.brk exits.cont) }
{
    match node {
        Node::Plain(instr) => {
            code.instr(plan, declared, instr)?;
            Ok(true)
        }
        Node::If { test, yes, no } => {
            code.fetch_test(plan, test)?;
            let condition = code.calculation(plan, &test_calculation(test))?;
            let choice = code.open_choice(condition)?;
            let inner = Exits {
                end: choice.behind,
                brk: exits.brk,
                cont: exits.cont,
            };
            emit_nodes(plan, declared, code, yes.as_slice(), inner)?;
            code.label(choice.second)?;
            emit_nodes(plan, declared, code, no.as_slice(), inner)?;
            code.label(choice.behind)?;
            Ok(true)
        }
        Node::Loop { body } => {
            let turn = code.open_loop(plan)?;
            let inner = Exits {
                end: turn.again,
                brk: turn.behind,
                cont: turn.again,
            };
            emit_nodes(plan, declared, code, body.as_slice(), inner)?;
            code.close_loop(turn)?;
            Ok(true)
        }
        Node::Break(test) => {
            let on = code.leave_maybe(plan, test, Out::To(exits.brk))?;
            Ok(on)
        }
        Node::Continue(test) => {
            let on = code.leave_maybe(plan, test, Out::To(exits.cont))?;
            Ok(on)
        }
        Node::Return(test) => {
            let on = code.leave_maybe(plan, test, Out::End)?;
            Ok(on)
        }
    }
}
