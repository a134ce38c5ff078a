//! What a command touches, at which stage and how.

ghost use Rattle.std.specs.Prelude.{◌≡◌, ◌+◌, ◌++◌, ◌^◌, ◌≤◌, length, map, slice_get};
ghost use Rattle.vk_types.specs.Hazards.{read_access, write_access, touch, touches, work_touches, groups_touches, cond_touches, slot_touch};

use crate::access::{Access, Stage};
use crate::command::{Command, Cond, Groups, SlotName, SlotRange, Work};
use dx_types::Range;

/// A range that a command touches, at which stage and how.
#[derive(Clone, Copy, Debug, PartialEq, Eq)]
pub struct Touch {
    pub range: Range,
    pub stage: Stage,
    pub access: Access,
}

/// A touch that reads.
pub(crate) fn reads(stage: Stage, range: Range) -> Touch
    ensures { result ≡ touch stage read_access range }
{
    Touch {
        range,
        stage,
        access: Access::READ,
    }
}

/// A touch that writes.
pub(crate) fn writes(stage: Stage, range: Range) -> Touch
    ensures { result ≡ touch stage write_access range }
{
    Touch {
        range,
        stage,
        access: Access::WRITE,
    }
}

impl SlotRange {
    /// How a dispatch touches the slot's range.
    pub(crate) fn touch(&self) -> Touch
        ensures { result ≡ slot_touch self.now }
    {
        let access = match self.slot {
            SlotName::Constant(_) | SlotName::Srv(_) => Access::READ,
            SlotName::Uav(_) => Access::READ_WRITE,
        };
        Touch {
            range: self.range,
            stage: Stage::Compute,
            access,
        }
    }
}

fn slots_touch(slots: &[SlotRange], i: usize) -> Option<Touch>
    ensures { result ≡ slice_get (map slot_touch slots.now) i }
{
    slots.get(i).map(|s| s.touch())
}

fn dispatch_touch(groups: &Groups, slots: &[SlotRange], i: usize) -> Option<Touch>
    ensures { result ≡ slice_get (groups_touches groups.now ++ map slot_touch slots.now) i }
{
    match (groups, i) {
        (Groups::Direct { .. }, _) => slots_touch(slots, i),
        (Groups::Indirect { at }, 0) => Some(reads(Stage::Indirect, *at)),
        (Groups::Indirect { .. }, _) => slots_touch(slots, i - 1),
    }
}

impl Work {
    fn touch(&self, i: usize) -> Option<Touch>
        ensures { result ≡ slice_get (work_touches self.now) i }
    {
        match (self, i) {
            (Work::Copy { source, .. }, 0) => Some(reads(Stage::Transfer, *source)),
            (Work::Copy { target, .. }, 1) => Some(writes(Stage::Transfer, *target)),
            (Work::Fill { target, .. }, 0) => Some(writes(Stage::Transfer, *target)),
            (Work::Clear { target, .. }, 0) => Some(writes(Stage::Compute, *target)),
            (Work::Dispatch { groups, slots, .. }, _) => dispatch_touch(
                groups,
                slots.as_slice(),
                i,
            ),
            _ => None,
        }
    }

    fn touch_count(&self) -> usize
        ensures count { result ≡ length (work_touches self.now) }
        ensures most { result ≤ 2 ^ 63 }
    {
        match self {
            Work::Copy { .. } => 2,
            Work::Fill { .. } | Work::Clear { .. } => 1,
            Work::Dispatch { groups, slots, .. } => groups.touch_count() + slots.as_slice().len(),
        }
    }
}

impl Groups {
    fn touch_count(&self) -> usize
        ensures count { result ≡ length (groups_touches self.now) }
        ensures most { result ≤ 1 }
    {
        match self {
            Groups::Direct { .. } => 0,
            Groups::Indirect { .. } => 1,
        }
    }
}

fn cond_touch(cond: &Option<Cond>, i: usize) -> Option<Touch>
    ensures { result ≡ slice_get (cond_touches cond.now) i }
{
    match (cond, i) {
        (Some(c), 0) => Some(reads(Stage::Indirect, c.at)),
        _ => None,
    }
}

impl Command {
    /// The i-th of the ranges that the command touches, from 0, and `None` past the last.
    pub fn touch(&self, i: u32) -> Option<Touch>
        ensures { result ≡ slice_get (touches self.now) i }
    {
        self.touch_at(i as usize)
    }

    /// The same by a place in memory's words.
    pub fn touch_at(&self, i: usize) -> Option<Touch>
        ensures { result ≡ slice_get (touches self.now) i }
    {
        let count = self.work.touch_count();
        if i < count {
            self.work.touch(i)
        } else {
            cond_touch(&self.cond, i - count)
        }
    }

    /// How many ranges the command touches.
    pub fn touch_count(&self) -> usize
        ensures { result ≡ length (touches self.now) }
    {
        self.work.touch_count() + self.cond.is_some() as usize
    }
}
