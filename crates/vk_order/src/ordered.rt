//! Which acts of a listing are ordered.

ghost use Rattle.std.specs.Prelude.{◌≡◌};
ghost use Rattle.std.specs.List.{list_any};
ghost use Rattle.vk_types.specs.Listing.{first_submit};
ghost use Rattle.vk_types.specs.Before.{names_stages_of, barrier_orders, op_orders, op_finishes, is_fenced};

use vk_types::{Barrier, Command, Mask, Stage, VkOp};

/// Whether the mask names each stage of the command.
pub fn names_stages_of(m: &Mask, c: &Command) -> bool
    ensures { result ≡ names_stages_of m.now c.now }
{
    ((!c.has_stage(Stage::Indirect) || m.indirect.is_some())
        && (!c.has_stage(Stage::Compute) || m.compute.is_some()))
        && ((!c.has_stage(Stage::Transfer) || m.transfer.is_some())
            && (!c.has_stage(Stage::Host) || m.host.is_some()))
}

/// Whether the barrier orders commands that stand before it and after it.
pub fn barrier_orders(c: &Command, d: &Command, b: &Barrier) -> bool
    ensures { result ≡ barrier_orders c.now d.now b.now }
{
    names_stages_of(&b.source, c) && names_stages_of(&b.dest, d)
}

fn op_orders(c: &Command, d: &Command, o: &VkOp) -> bool
    ensures { result ≡ op_orders c.now d.now o.now }
{
    match o {
        VkOp::Barrier(b) => barrier_orders(c, d, b),
        _ => false,
    }
}

fn op_finishes(k: u64, o: &VkOp) -> bool
    ensures { result ≡ op_finishes k o.now }
{
    match o {
        VkOp::Fence(j) => k <= *j,
        _ => false,
    }
}

/// Whether a barrier among these operations orders the two commands.
pub fn orders_commands(mid: &[VkOp], c: &Command, d: &Command) -> bool
    ensures { result ≡ list_any (op_orders c.now d.now) mid.now }
{
    mid.iter().any(|o| op_orders(c, d, o))
}

fn first_submit(ops: &[VkOp]) -> Option<u64>
    ensures { result ≡ first_submit ops.now }
{
    for o in ops {
        if let VkOp::Submit(k) = o {
            return Some(*k);
        }
    }
    None
}

/// Whether a fence among `mid` finishes what is submitted first in `rest`.
pub fn is_fenced(rest: &[VkOp], mid: &[VkOp]) -> bool
    ensures { result ≡ is_fenced (first_submit rest.now) mid.now }
{
    match first_submit(rest) {
        Some(k) => has_fence(mid, k),
        None => false,
    }
}

fn has_fence(mid: &[VkOp], k: u64) -> bool
    ensures { result ≡ list_any (op_finishes k) mid.now }
{
    mid.iter().any(|o| op_finishes(k, o))
}
