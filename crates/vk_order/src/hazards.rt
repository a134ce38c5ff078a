//! Whether each hazard of a listing is covered.

ghost use Rattle.std.specs.Prelude.{◌≡◌, ℕ, ◌+◌, ◌<◌, ◌≤◌, ◌^◌, ◌↔◌, true, false, Some, IsOk, IfErr, length, slice_get};
ghost use Rattle.vk_types.specs.Hazards.{host_read_touch, host_write_touch};
ghost use Rattle.vk_order.specs.Asks.{are_commands_open, is_write_open, is_read_open, is_command_open, is_pair_open, is_command, ServesIf};
ghost use Rattle.vk_types.specs.Covered.{uncovered, Covered, IsFirstBreak};
ghost use Rattle.vk_types.specs.declared.op.VkOp.TheVariants as op;

use crate::ordered::{is_fenced, orders_commands};
use crate::visible::{command_is_visible_to_host, commands_are_visible, serves};
use dx_types::Range;
use vk_types::{Access, Command, Stage, Touch, VkOp};

/// A hazard that is not covered, by the places of its two acts in the listing, from 0.
#[derive(Clone, Copy, Debug, PartialEq, Eq)]
pub struct Uncovered {
    pub first: u32,
    pub second: u32,
}

fn host_reads(range: Range) -> Touch
    ensures { result ≡ host_read_touch range }
{
    Touch {
        range,
        stage: Stage::Host,
        access: Access::READ,
    }
}

fn host_writes(range: Range) -> Touch
    ensures { result ≡ host_write_touch range }
{
    Touch {
        range,
        stage: Stage::Host,
        access: Access::WRITE,
    }
}

fn commands_open(mid: &[VkOp], c: &Command, d: &Command) -> bool
    ensures { result ≡ are_commands_open mid.now c.now d.now }
{
    c.conflicts(d) && !(orders_commands(mid, c, d) && commands_are_visible(mid, c, d))
}

fn write_open(rest: &[VkOp], mid: &[VkOp], c: &Command, range: Range) -> bool
    ensures { result ≡ is_write_open rest.now mid.now c.now range }
{
    c.clashes(&host_writes(range)) && !is_fenced(rest, mid)
}

fn read_open(rest: &[VkOp], mid: &[VkOp], c: &Command, range: Range) -> bool
    ensures { result ≡ is_read_open rest.now mid.now c.now range }
{
    let u = host_reads(range);
    c.clashes(&u) && !(is_fenced(rest, mid) && command_is_visible_to_host(mid, c, &u))
}

fn command_open(rest: &[VkOp], mid: &[VkOp], c: &Command, p: &VkOp) -> bool
    ensures { result ≡ is_command_open rest.now mid.now c.now p.now }
{
    match p {
        VkOp::Command(d) => commands_open(mid, c, d),
        VkOp::HostWrite { range, .. } => write_open(rest, mid, c, *range),
        VkOp::HostRead { range, .. } => read_open(rest, mid, c, *range),
        _ => false,
    }
}

fn pair_open(rest: &[VkOp], mid: &[VkOp], o: &VkOp, p: &VkOp) -> bool
    ensures { result ≡ is_pair_open rest.now mid.now o.now p.now }
{
    match o {
        VkOp::Command(c) => command_open(rest, mid, c, p),
        _ => false,
    }
}

pub fn is_open(ops: &[VkOp], x: usize, y: usize) -> bool
    requires order { x < y }
    requires within { y < length ops.now }
    ensures { result ≡ uncovered ops.now x y }
{
    pair_open(&ops[x + 1..], &ops[x + 1..y], &ops[x], &ops[y])
}

fn is_command(o: &VkOp) -> bool
    ensures { result ≡ is_command (Some o.now) }
{
    matches!(o, VkOp::Command(_))
}

// The place of the first barrier behind x that serves its command, or the number of operations.
fn served_at(ops: &[VkOp], x: usize, c: &Command) -> usize
    requires { x < length ops.now }
    ensures behind { x < result }
    ensures within { result ≤ length ops.now }
    ensures serves { result < length ops.now → ServesIf c.now (slice_get ops.now result) }
{
    for at in x + 1..ops.len() {
        if serves(c, &ops[at]) {
            return at;
        }
    }
    ops.len()
}

// The first place below `bound` at which an act is open to the one at x, or `bound`.
fn open_near(ops: &[VkOp], x: usize, bound: usize) -> usize
    requires order { x < bound }
    requires within { bound ≤ length ops.now }
    ensures within { result ≤ bound }
    ensures none { (y : ℕ) → y < result → uncovered ops.now x y ≡ false }
    ensures here { result < bound → uncovered ops.now x result ≡ true }
{
    for y in x + 1..bound {
        if is_open(ops, x, y) {
            return y;
        }
    }
    bound
}

// The same where all below `from` is known to be covered, and so are the commands behind it.
fn open_far(ops: &[VkOp], x: usize, from: usize, bound: usize) -> usize
    requires order { x < from }
    requires bounds { from ≤ bound }
    requires within { bound ≤ length ops.now }
    requires none { (y : ℕ) → y < from → uncovered ops.now x y ≡ false }
    requires served { (y : ℕ) → from ≤ y → y < bound → is_command (slice_get ops.now y) ≡ true → uncovered ops.now x y ≡ false }
    ensures within { result ≤ bound }
    ensures none { (y : ℕ) → y < result → uncovered ops.now x y ≡ false }
    ensures here { result < bound → uncovered ops.now x result ≡ true }
{
    for y in from..bound {
        if !is_command(&ops[y]) && is_open(ops, x, y) {
            return y;
        }
    }
    bound
}

// The first place below `bound` at which an act is open to the command at x, or `bound`. Behind a barrier that serves the
// command no other command is compared with it.
fn open_to_command(ops: &[VkOp], x: usize, c: &Command, bound: usize) -> usize
    requires there { slice_get ops.now x ≡ Some (op.Command c.now) }
    requires order { x < bound }
    requires within { bound ≤ length ops.now }
    ensures within { result ≤ bound }
    ensures none { (y : ℕ) → y < result → uncovered ops.now x y ≡ false }
    ensures here { result < bound → uncovered ops.now x result ≡ true }
{
    let served = served_at(ops, x, c).min(bound);
    let near = open_near(ops, x, served);
    if near < served {
        return near;
    }
    open_far(ops, x, served, bound)
}

// The first place below `bound` at which an act is open to the one at x, or `bound`.
fn open_to(ops: &[VkOp], x: usize, bound: usize) -> usize
    requires there { x < length ops.now }
    requires within { bound ≤ length ops.now }
    ensures within { result ≤ bound }
    ensures none { (y : ℕ) → y < result → uncovered ops.now x y ≡ false }
    ensures here { result < bound → uncovered ops.now x result ≡ true }
{
    if x >= bound {
        return bound;
    }
    match &ops[x] {
        VkOp::Command(c) => open_to_command(ops, x, c, bound),
        _ => bound,
    }
}

/// The first hazard that is not covered, if there is one: with the least second place, and then the least first.
///
/// It takes no memory, so it remembers nothing of the operations but where the least break so far is: it goes from each
/// command to all operations behind it, some n * n / 2 looks for n operations. Up to the first barrier that serves the
/// command (a run's listing has it behind the next conflict), a look compares the touches of two commands; behind it
/// commands are passed over, and only what the host does is compared.
pub fn covered(ops: &[VkOp]) -> Result<(), Uncovered>
    requires { length ops.now < 2 ^ 32 }
    ensures ok { IsOk result ↔ Covered ops.now }
    ensures err { IfErr result (λ u. IsFirstBreak ops.now u.first u.second) }
{
    let mut end = Ok(());
    let mut bound = ops.len();
    'firsts: for first in 0..ops.len() {
        let second = open_to(ops, first, bound);
        if second < bound {
            bound = second;
            end = Err(Uncovered {
                first: first as u32,
                second: second as u32,
            });
        }
    }
    end
}
