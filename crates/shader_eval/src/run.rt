// The blocks of a shader, node by node.

ghost use Rattle.std.specs.Prelude.{◌≡◌, ◌≤◌};
ghost use Rattle.shader_model.specs.Body.{Body, body_of, node_before};
ghost use Rattle.shader_model.specs.Invocation as model;
ghost use Rattle.shader_eval.specs.Frames.{seen, flow_of};

use crate::action::{Action, action_of};
use crate::frame::Frame;
use crate::thread::Thread;
use crate::way::Way;
use shader_model::{Declared, Instr, Node, Test};
use shader_slots::Slots;

/// One plain instruction.
fn act(
    thread: &Thread,
    declared: &[Declared],
    instr: &Instr,
    frame: &mut Frame,
    slots: &mut Slots<'_>,
)
    ensures state { seen frame.new slots.new.words ≡ model.done declared.now thread.now instr.now (seen frame.old slots.old.words) }
    ensures around { slots.new.around ≡ slots.old.around }
{
    let Some(action) = action_of(instr.opcode) else {
        return;
    };
    match action {
        Action::One(of) => frame.by_one(of, thread, slots, instr),
        Action::Two(of) => frame.by_two(of, thread, slots, instr),
        Action::Three(of) => frame.by_three(of, thread, slots, instr),
        Action::Insert => frame.insert(thread, slots, instr),
        Action::Pair(of) => frame.by_pair(of, thread, slots, instr),
        Action::Load(form) => frame.load(form, thread, declared, slots, instr),
        Action::Store(form) => frame.store(form, thread, declared, slots, instr),
        Action::Change(of) => frame.change(of, thread, declared, slots, instr),
    }
}

/// Whether a test holds of its source's x.
fn holds(thread: &Thread, test: &Test, frame: &Frame, slots: &Slots<'_>) -> bool
    ensures { result ≡ model.holds thread.now test.now (seen frame.now slots.now.words) }
{
    let x = frame.value(thread, slots, &test.value)[0];
    if test.nonzero { x != 0 } else { x == 0 }
}

/// Whether a test holds, as no test always does.
fn holds_maybe(thread: &Thread, test: Option<Test>, frame: &Frame, slots: &Slots<'_>) -> bool
    ensures { result ≡ model.holds_maybe thread.now test (seen frame.now slots.now.words) }
{
    match test {
        Some(test) => holds(thread, &test, frame, slots),
        None => true,
    }
}

/// Runs the nodes of a block in order, up to its end or to what leaves it.
#[cycle(run)]
pub fn run_nodes(
    thread: &Thread,
    declared: &[Declared],
    nodes: &[Node],
    frame: &mut Frame,
    slots: &mut Slots<'_>,
) -> Way
    ensures flow { flow_of result (seen frame.new slots.new.words) ≡ model.meaning declared.now thread.now (body_of nodes.now) (seen frame.old slots.old.words) }
    ensures around { slots.new.around ≡ slots.old.around }
{
    for node in nodes {
        match run_node(thread, declared, node, frame, slots) {
            Way::Falls => {}
            Way::Breaks => return Way::Breaks,
            Way::Continues => return Way::Continues,
            Way::Ends => return Way::Ends,
        }
    }
    Way::Falls
}

/// Runs one node. A turn is counted each time a loop's body is entered; where none is left the invocation ends.
#[cycle(run)]
fn run_node(
    thread: &Thread,
    declared: &[Declared],
    node: &Node,
    frame: &mut Frame,
    slots: &mut Slots<'_>,
) -> Way
    ensures flow { (rest : Body) → model.meaning declared.now thread.now (node_before node.now rest) (seen frame.old slots.old.words) ≡ model.then_do (flow_of result (seen frame.new slots.new.words)) (model.meaning declared.now thread.now rest) }
    ensures around { slots.new.around ≡ slots.old.around }
{
    match node {
        Node::Plain(instr) => {
            act(thread, declared, instr, frame, slots);
            Way::Falls
        }
        Node::If { test, yes, no } => {
            let holds = holds(thread, test, frame, slots);
            if holds {
                run_nodes(thread, declared, yes.as_slice(), frame, slots)
            } else {
                run_nodes(thread, declared, no.as_slice(), frame, slots)
            }
        }
        Node::Loop { body } => {
            'turns: while frame.turns > 0 {
                frame.turns -= 1;
                match run_nodes(thread, declared, body.as_slice(), frame, slots) {
                    Way::Falls => {}
                    Way::Continues => {}
                    Way::Breaks => return Way::Falls,
                    Way::Ends => return Way::Ends,
                }
            }
            Way::Ends
        }
        Node::Break(test) => {
            let holds = holds_maybe(thread, *test, frame, slots);
            if holds { Way::Breaks } else { Way::Falls }
        }
        Node::Continue(test) => {
            let holds = holds_maybe(thread, *test, frame, slots);
            if holds { Way::Continues } else { Way::Falls }
        }
        Node::Return(test) => {
            let holds = holds_maybe(thread, *test, frame, slots);
            if holds { Way::Ends } else { Way::Falls }
        }
    }
}
