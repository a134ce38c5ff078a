// The slots of a dispatch, bound to parts of blocks.

ghost use Rattle.std.specs.Prelude.{◌≡◌, ◌<◌, slice_index_or, slice_set, None};
ghost use Rattle.std.specs.List.{AllByRecursion};
ghost use Rattle.base_lemmas.specs.Lists.{Pairwise};
ghost use Rattle.device_memory.specs.Ranges.{AreApart, CanBind, HasSlot};
ghost use Rattle.device_memory.specs.Binding.{CanLend, given, lent, returned, returned_part, taken};

use crate::DeviceMemory;
use dx_types::limits::UAV_SLOTS;
use shader_slots::{Slots, Whole};
use vk_types::{SlotName, SlotRange};

impl DeviceMemory {
    /// Binds the slots that may be written, each with its block's bytes, which leave the block.
    pub(crate) fn take_parts(&mut self, slots: &[SlotRange], bound: &mut Slots<'_>)
        requires bound { AllByRecursion (CanBind self.old) slots.now }
        requires apart { Pairwise AreApart slots.now }
        ensures blocks { self.new ≡ taken slots.now self.old }
        ensures bound { bound.new ≡ given self.old slots.now bound.old }
    {
        'slots: for s in slots {
            match s.slot {
                SlotName::Uav(i) => {
                    let bytes = self.take_bytes(s.range.block);
                    let part = Whole::new(bytes, s.range.from as usize, s.range.to as usize);
                    bound.bind_write(i as usize, part);
                }
                SlotName::Constant(_) => (),
                SlotName::Srv(_) => (),
            }
        }
    }

    /// Binds the slots that are read, each to its part of a block.
    pub(crate) fn lend_parts<'a>(&'a self, slots: &[SlotRange], bound: &mut Slots<'a>)
        requires { AllByRecursion (CanLend self.now) slots.now }
        ensures { bound.new ≡ lent self.now slots.now bound.old }
    {
        'slots: for s in slots {
            match s.slot {
                SlotName::Constant(i) => bound.bind_constant(i as usize, self.part(&s.range)),
                SlotName::Srv(i) => bound.bind_read(i as usize, self.part(&s.range)),
                SlotName::Uav(_) => (),
            }
        }
    }

    /// Gives the bytes of the parts that a dispatch could write back to their blocks.
    pub(crate) fn return_parts(
        &mut self,
        slots: &[SlotRange],
        mut parts: [Option<Whole>; UAV_SLOTS],
    )
        requires { AllByRecursion HasSlot slots.now }
        ensures { self.new ≡ returned slots.now parts self.old }
    {
        'slots: for s in slots {
            match s.slot {
                SlotName::Uav(i) => self.return_part(s, take_part(&mut parts, i as usize)),
                SlotName::Constant(_) => (),
                SlotName::Srv(_) => (),
            }
        }
    }

    fn return_part(&mut self, s: &SlotRange, part: Option<Whole>)
        ensures { self.new ≡ returned_part part s.now.range self.old }
    {
        if let Some(part) = part {
            self.put_bytes(s.range.block, part.into_bytes());
        }
    }
}

/// Takes the part of a slot out.
fn take_part(parts: &mut [Option<Whole>; UAV_SLOTS], slot: usize) -> Option<Whole>
    requires { slot < UAV_SLOTS }
    ensures part { result ≡ slice_index_or parts.old slot None }
    ensures rest { parts.new ≡ slice_set parts.old slot None }
{
    parts[slot].take()
}
