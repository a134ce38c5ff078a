//! Whether a barrier makes what was written visible.

ghost use Rattle.std.specs.Prelude.{◌≡◌, IsTrue};
ghost use Rattle.std.specs.List.{list_any};
ghost use Rattle.vk_types.specs.declared.touch.Touch.{Touch};
ghost use Rattle.base_lemmas.specs.Lists.{all_pass};
ghost use Rattle.vk_types.specs.Hazards.{touches, host_read_touch};
ghost use Rattle.vk_types.specs.Covered.{makes_visible, makes_host_visible, commands_visible, host_visible, op_barrier, each_pair};
ghost use Rattle.vk_types.specs.Covered as cover;
ghost use Rattle.vk_types.specs.Hazards.{read_write_access};
ghost use Rattle.vk_types.specs.BarrierCauses.{all_device};
ghost use Rattle.vk_types.specs.Serving.{Serves, ServesOp};
ghost use Rattle.vk_order.specs.Asks.{orders_visibly, is_available};

use crate::ordered::{barrier_orders, names_stages_of};
use vk_types::{Access, Barrier, Command, Mask, Stage, Touch, VkOp};

pub fn writes_named(access: Option<Access>) -> bool
    ensures { result ≡ cover.writes_named access }
{
    match access {
        Some(a) => a.writes(),
        None => false,
    }
}

pub fn reads_named(access: Option<Access>) -> bool
    ensures { result ≡ cover.reads_named access }
{
    match access {
        Some(a) => a.reads(),
        None => false,
    }
}

pub fn allowed_by(access: Option<Access>, other: Access) -> bool
    ensures { result ≡ cover.allowed_by access other }
{
    match access {
        Some(a) => a.allows(other),
        None => false,
    }
}

fn makes_visible(t: &Touch, u: &Touch, b: &Barrier) -> bool
    ensures { result ≡ makes_visible t.now u.now b.now }
{
    writes_named(b.source.at(t.stage)) && allowed_by(b.dest.at(u.stage), u.access)
}

fn makes_host_visible(t: &Touch, b: &Barrier) -> bool
    ensures { result ≡ makes_host_visible t.now b.now }
{
    writes_named(b.source.at(t.stage)) && reads_named(b.dest.at(Stage::Host))
}

fn op_shows(c: &Command, d: &Command, t: &Touch, u: &Touch, o: &VkOp) -> bool
    ensures { result ≡ op_barrier (orders_visibly c.now d.now t.now u.now) o.now }
{
    match o {
        VkOp::Barrier(b) => barrier_orders(c, d, b) && makes_visible(t, u, b),
        _ => false,
    }
}

fn op_shows_host(t: &Touch, o: &VkOp) -> bool
    ensures { result ≡ op_barrier (makes_host_visible t.now) o.now }
{
    match o {
        VkOp::Barrier(b) => makes_host_visible(t, b),
        _ => false,
    }
}

fn shown(mid: &[VkOp], c: &Command, d: &Command, t: &Touch, u: &Touch) -> bool
    ensures { result ≡ list_any (op_barrier (orders_visibly c.now d.now t.now u.now)) mid.now }
{
    mid.iter().any(|o| op_shows(c, d, t, u, o))
}

fn shown_to_host(mid: &[VkOp], t: &Touch) -> bool
    ensures { result ≡ list_any (op_barrier (makes_host_visible t.now)) mid.now }
{
    mid.iter().any(|o| op_shows_host(t, o))
}

fn pair_is_visible(mid: &[VkOp], c: &Command, d: &Command, t: &Touch, u: &Touch) -> bool
    ensures { result ≡ commands_visible mid.now c.now d.now t.now u.now }
{
    !(t.access.writes() && t.conflicts(u)) || shown(mid, c, d, t, u)
}

fn touch_is_visible(mid: &[VkOp], c: &Command, d: &Command, t: &Touch) -> bool
    ensures { result ≡ all_pass (commands_visible mid.now c.now d.now t.now) (touches d.now) }
{
    for i in 0..d.touch_count() {
        if let Some(u) = d.touch_at(i) {
            if !pair_is_visible(mid, c, d, t, &u) {
                return false;
            }
        }
    }
    true
}

/// Whether one barrier among `mid` that orders the two commands shows each write of `c` to each touch of `d` that
/// conflicts with it.
pub fn commands_are_visible(mid: &[VkOp], c: &Command, d: &Command) -> bool
    ensures { result ≡ each_pair (commands_visible mid.now c.now d.now) (touches c.now) (touches d.now) }
{
    for i in 0..c.touch_count() {
        if let Some(t) = c.touch_at(i) {
            if !touch_is_visible(mid, c, d, &t) {
                return false;
            }
        }
    }
    true
}

fn touch_is_visible_to_host(mid: &[VkOp], t: &Touch, u: &Touch) -> bool
    ensures { result ≡ host_visible mid.now t.now u.now }
{
    !t.conflicts(u) || shown_to_host(mid, t)
}

/// Whether a barrier among `mid` shows each conflicting write of `c` to the host, which reads as `u` says.
pub fn command_is_visible_to_host(mid: &[VkOp], c: &Command, u: &Touch) -> bool
    ensures { result ≡ all_pass (λ t. host_visible mid.now t u.now) (touches c.now) }
{
    for i in 0..c.touch_count() {
        if let Some(t) = c.touch_at(i) {
            if !touch_is_visible_to_host(mid, &t, u) {
                return false;
            }
        }
    }
    true
}

fn is_available(source: &Mask, t: &Touch) -> bool
    ensures { result ≡ is_available source.now t.now }
{
    !t.access.writes() || writes_named(source.at(t.stage))
}

fn all_available(source: &Mask, c: &Command) -> bool
    ensures { result ≡ all_pass (is_available source.now) (touches c.now) }
{
    for i in 0..c.touch_count() {
        if let Some(t) = c.touch_at(i) {
            if !is_available(source, &t) {
                return false;
            }
        }
    }
    true
}

/// Whether the operation is a barrier that serves the command: it covers each hazard between the command and one behind it.
pub fn serves(c: &Command, o: &VkOp) -> bool
    ensures { IsTrue result → ServesOp c.now o.now }
{
    match o {
        VkOp::Barrier(b) => barrier_serves(c, b),
        _ => false,
    }
}

fn barrier_serves(c: &Command, b: &Barrier) -> bool
    ensures { IsTrue result → Serves c.now b.now }
{
    if !is_whole(&b.dest) {
        return false;
    }
    if !names_stages_of(&b.source, c) {
        return false;
    }
    all_available(&b.source, c)
}

fn is_whole(dest: &Mask) -> bool
    ensures { IsTrue result → dest.now ≡ all_device read_write_access }
{
    *dest == Mask::device(Access::READ_WRITE)
}
