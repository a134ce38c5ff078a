//! Which touches and which commands conflict, and at which stages a command works.

ghost use Rattle.std.specs.Prelude.{◌≡◌, ◌++◌, map};
ghost use Rattle.std.specs.List.{list_any};
ghost use Rattle.vk_types.specs.Memory.{meets};
ghost use Rattle.vk_types.specs.Before.{access_at};
ghost use Rattle.vk_types.specs.BarrierCauses.{all_device};
ghost use Rattle.vk_types.specs.Hazards.{has_read, has_write, allows, has_stage, same_stage, touches, work_touches, groups_touches, cond_touches, slot_touch, touches_conflict, is_dispatch, conflict};

use crate::access::{Access, Mask, Stage};
use crate::command::{Command, Cond, Groups, SlotRange, Work};
use crate::touch::{Touch, reads, writes};
use bitflags::Flags;
use dx_types::Range;

/// Whether the ranges share a byte.
pub fn ranges_meet(a: Range, b: Range) -> bool
    ensures { result ≡ meets a b }
{
    a.block == b.block && (a.from < b.to && b.from < a.to) && (a.from < a.to && b.from < b.to)
}

impl Access {
    /// Whether it writes.
    pub fn writes(&self) -> bool
        ensures { result ≡ has_write self.now }
    {
        self.contains(Access::WRITE)
    }

    /// Whether it reads.
    pub fn reads(&self) -> bool
        ensures { result ≡ has_read self.now }
    {
        self.contains(Access::READ)
    }

    /// Whether it allows all that the other does.
    pub fn allows(&self, other: Access) -> bool
        ensures { result ≡ allows self.now other }
    {
        self.contains(other)
    }
}

impl Mask {
    /// This access at each stage of the device.
    pub fn device(access: Access) -> Mask
        ensures { result ≡ all_device access }
    {
        Mask {
            indirect: Some(access),
            compute: Some(access),
            transfer: Some(access),
            host: None,
        }
    }

    /// The access that it has at the stage, if it names the stage.
    pub fn at(&self, stage: Stage) -> Option<Access>
        ensures { result ≡ access_at self.now stage }
    {
        match stage {
            Stage::Indirect => self.indirect,
            Stage::Compute => self.compute,
            Stage::Transfer => self.transfer,
            Stage::Host => self.host,
        }
    }
}

impl Stage {
    /// Whether it is that stage.
    pub fn is(&self, other: Stage) -> bool
        ensures { result ≡ same_stage self.now other }
    {
        matches!(
            (self, other),
            (Stage::Indirect, Stage::Indirect)
                | (Stage::Compute, Stage::Compute)
                | (Stage::Transfer, Stage::Transfer)
                | (Stage::Host, Stage::Host)
        )
    }
}

impl Touch {
    /// Whether the two share a byte and one of them writes.
    pub fn conflicts(&self, other: &Touch) -> bool
        ensures { result ≡ touches_conflict self.now other.now }
    {
        (self.access.writes() || other.access.writes()) && ranges_meet(self.range, other.range)
    }
}

impl Work {
    fn is_dispatch(&self) -> bool
        ensures { result ≡ is_dispatch self.now }
    {
        matches!(self, Work::Dispatch { .. })
    }
}

impl Groups {
    fn clashes(&self, t: &Touch) -> bool
        ensures { result ≡ list_any (touches_conflict t.now) (groups_touches self.now) }
    {
        match self {
            Groups::Direct { .. } => false,
            Groups::Indirect { at } => t.conflicts(&reads(Stage::Indirect, *at)),
        }
    }
}

fn slots_clash(slots: &[SlotRange], t: &Touch) -> bool
    ensures { result ≡ list_any (λ s. touches_conflict t.now (slot_touch s)) slots.now }
{
    slots.iter().any(|s| t.conflicts(&s.touch()))
}

fn dispatch_clashes(groups: &Groups, slots: &[SlotRange], t: &Touch) -> bool
    ensures { result ≡ list_any (touches_conflict t.now) (groups_touches groups.now ++ map slot_touch slots.now) }
{
    groups.clashes(t) || slots_clash(slots, t)
}

fn cond_clashes(cond: &Option<Cond>, t: &Touch) -> bool
    ensures { result ≡ list_any (touches_conflict t.now) (cond_touches cond.now) }
{
    match cond {
        Some(c) => t.conflicts(&reads(Stage::Indirect, c.at)),
        None => false,
    }
}

impl Work {
    fn clashes(&self, t: &Touch) -> bool
        ensures { result ≡ list_any (touches_conflict t.now) (work_touches self.now) }
    {
        match self {
            Work::Copy { source, target } => {
                t.conflicts(&reads(Stage::Transfer, *source))
                    || t.conflicts(&writes(Stage::Transfer, *target))
            }
            Work::Fill { target, .. } => t.conflicts(&writes(Stage::Transfer, *target)),
            Work::Clear { target, .. } => t.conflicts(&writes(Stage::Compute, *target)),
            Work::Dispatch { groups, slots, .. } => dispatch_clashes(groups, slots.as_slice(), t),
        }
    }
}

impl Command {
    /// Whether a touch of the command conflicts with this one. Checks of listings ask this of each pair of operations, so
    /// the touches are not made one by one.
    pub fn clashes(&self, t: &Touch) -> bool
        ensures { result ≡ list_any (touches_conflict t.now) (touches self.now) }
    {
        self.work.clashes(t) || cond_clashes(&self.cond, t)
    }

    /// Whether some touches of the two conflict.
    pub fn conflicts(&self, other: &Command) -> bool
        ensures { result ≡ conflict self.now other.now }
    {
        for i in 0..self.touch_count() {
            if let Some(t) = self.touch_at(i) {
                if other.clashes(&t) {
                    return true;
                }
            }
        }
        false
    }

    /// Whether the command works at the stage: one of its touches does, and a dispatch always computes.
    pub fn has_stage(&self, stage: Stage) -> bool
        ensures { result ≡ has_stage self.now stage }
    {
        self.touches_at(stage) || (self.work.is_dispatch() && Stage::Compute.is(stage))
    }

    fn touches_at(&self, stage: Stage) -> bool
        ensures { result ≡ list_any (λ t. same_stage t.stage stage) (touches self.now) }
    {
        for i in 0..self.touch_count() {
            if let Some(t) = self.touch_at(i) {
                if t.stage.is(stage) {
                    return true;
                }
            }
        }
        false
    }
}
