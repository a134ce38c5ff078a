//! Whether a device can run a command: each range lies in a block that it holds, and slots are apart.

ghost use Rattle.std.specs.Prelude.{◌≡◌, true};
ghost use Rattle.std.specs.List.{AllByRecursion};
ghost use Rattle.std.specs.Option.{option_copied};
ghost use Rattle.base_lemmas.specs.Lists.{Pairwise};
ghost use Rattle.device_memory.specs.Held.{IsHeld};
ghost use Rattle.device_memory.specs.Ranges.{AreApart, CanBind, CanCount, CanSkip, IsSlot, is_same, is_writable, size_of};
ghost use Rattle.vk_device.specs.Running.{CanRunReady, CanWorkIf, IsDefinedIf};

use crate::device::Device;
use device_memory::DeviceMemory;
use dx_types::Range;
use dx_types::limits::{CONSTANT_SLOTS, MAX_BUFFER_SIZE, SRV_SLOTS, UAV_SLOTS};
use spirv_words::Module;
use vk_types::{Cond, Groups, SlotName, SlotRange, Work};

impl Device {
    /// Whether the ready command `j` is there and can be run with this module, if the module has an outcome: a module is given
    /// exactly where it is a dispatch, all that the command names lies in blocks that are held, and a module that is kept of its
    /// shader has the same words, which are compared.
    pub fn can_run(&self, j: u32, module: Option<&Module>) -> bool
        ensures { result ≡ true → IsDefinedIf (option_copied «module».entry) → CanRunReady self.now j (option_copied «module».entry) }
    {
        match self.ready_command(j) {
            Some(command) => {
                can_work(&self.memory, &command.work, module.is_some())
                    && (can_skip(&self.memory, &command.cond)
                        && self.machines.agree(&command.work, module))
            }
            None => false,
        }
    }
}

fn can_work(memory: &DeviceMemory, work: &Work, has_module: bool) -> bool
    ensures { result ≡ true → CanWorkIf memory.now work.now has_module }
{
    match work {
        Work::Copy { source, target } => {
            !has_module
                && has(memory, source)
                && has(memory, target)
                && size(source) == size(target)
        }
        Work::Fill { target, .. } => !has_module && has(memory, target),
        Work::Clear { target, unit, .. } => {
            !has_module && has(memory, target) && *unit >= 1 && *unit <= 4
        }
        Work::Dispatch { groups, slots, .. } => {
            has_module && can_dispatch(memory, groups, slots.as_slice())
        }
    }
}

fn can_dispatch(memory: &DeviceMemory, groups: &Groups, slots: &[SlotRange]) -> bool
    ensures { result ≡ true → CanCount memory.now groups.now × AllByRecursion (CanBind memory.now) slots.now × Pairwise AreApart slots.now }
{
    can_count(memory, groups) && can_bind_all(memory, slots) && are_apart(slots)
}

/// Whether a range lies in a block that is held.
fn has(memory: &DeviceMemory, r: &Range) -> bool
    ensures { result ≡ true → IsHeld memory.now r.now }
{
    match memory.block(r.block) {
        Some(block) => r.from <= r.to && r.to <= block.len(),
        None => false,
    }
}

pub(crate) fn size(r: &Range) -> u64
    ensures { result ≡ size_of r.now }
{
    r.to.saturating_sub(r.from)
}

fn can_skip(memory: &DeviceMemory, cond: &Option<Cond>) -> bool
    ensures { result ≡ true → CanSkip memory.now cond.now }
{
    match cond {
        Some(c) => has(memory, &c.at) && size(&c.at) == 4,
        None => true,
    }
}

fn can_count(memory: &DeviceMemory, groups: &Groups) -> bool
    ensures { result ≡ true → CanCount memory.now groups.now }
{
    match groups {
        Groups::Direct { .. } => true,
        Groups::Indirect { at } => has(memory, at) && size(at) == 12,
    }
}

fn can_bind_all(memory: &DeviceMemory, slots: &[SlotRange]) -> bool
    ensures { result ≡ true → AllByRecursion (CanBind memory.now) slots.now }
{
    'each: for s in slots {
        if !can_bind(memory, s) {
            return false;
        }
    }
    true
}

fn can_bind(memory: &DeviceMemory, s: &SlotRange) -> bool
    ensures { result ≡ true → CanBind memory.now s.now }
{
    let size = size(&s.range);
    is_slot(s.slot) && has(memory, &s.range) && size % 4 == 0 && size <= MAX_BUFFER_SIZE
}

fn is_slot(slot: SlotName) -> bool
    ensures { result ≡ true → IsSlot slot }
{
    match slot {
        SlotName::Constant(i) => usize::from(i) < CONSTANT_SLOTS,
        SlotName::Srv(i) => usize::from(i) < SRV_SLOTS,
        SlotName::Uav(i) => usize::from(i) < UAV_SLOTS,
    }
}

fn are_apart(slots: &[SlotRange]) -> bool
    ensures { result ≡ true → Pairwise AreApart slots.now }
{
    'each: for i in 0..slots.len() {
        if !is_apart_from(&slots[i], &slots[i + 1..]) {
            return false;
        }
    }
    true
}

fn is_apart_from(s: &SlotRange, others: &[SlotRange]) -> bool
    ensures { result ≡ true → AllByRecursion (AreApart s.now) others.now }
{
    'each: for t in others {
        if !is_apart(s, t) {
            return false;
        }
    }
    true
}

fn is_apart(s: &SlotRange, t: &SlotRange) -> bool
    ensures { result ≡ true → AreApart s.now t.now }
{
    !is_same(s.slot, t.slot)
        && (!(is_writable(s.slot) || is_writable(t.slot)) || s.range.block != t.range.block)
}

fn is_same(s: SlotName, t: SlotName) -> bool
    ensures { result ≡ is_same s t }
{
    match (s, t) {
        (SlotName::Constant(i), SlotName::Constant(j)) => i == j,
        (SlotName::Srv(i), SlotName::Srv(j)) => i == j,
        (SlotName::Uav(i), SlotName::Uav(j)) => i == j,
        _ => false,
    }
}

fn is_writable(slot: SlotName) -> bool
    ensures { result ≡ is_writable slot }
{
    matches!(slot, SlotName::Uav(_))
}
