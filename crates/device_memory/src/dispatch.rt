// Dispatches of a module.

ghost use Rattle.std.specs.Prelude.{◌≡◌, ◌*◌, cond, Some};
ghost use Rattle.std.specs.List.{AllByRecursion};
ghost use Rattle.shader_model.specs.Dispatch.{is_allowed, volume};
ghost use Rattle.spirv_model.specs.Meaning.ModuleDispatch.{IsDefined, group_of, module_dispatched};
ghost use Rattle.base_lemmas.specs.Lists.{Pairwise};
ghost use Rattle.vk_types.specs.Effects.{group_counts, put_slots, slots_words};
ghost use Rattle.device_memory.specs.Held.{AreAlike, memory_of};
ghost use Rattle.device_memory.specs.Meant.{module_meaning_of};
ghost use Rattle.device_memory.specs.Ranges.{AreApart, CanBind};
ghost use Rattle.device_memory.specs.Runs.{CanDispatch};

use crate::DeviceMemory;
use shader_model::is_allowed;
use shader_slots::Slots;
use spirv_run::Machine;
use vk_types::{Groups, SlotRange};

/// Runs so many groups of a machine's module, and answers how many invocations ran. Where they are too many none does.
fn run_allowed(machine: &mut Machine, counts: [u32; 3], bound: &mut Slots<'_>) -> u64
    requires { IsDefined machine.old }
    ensures words { Some bound.new.words
        ≡ cond (is_allowed counts (group_of machine.old)) (module_dispatched machine.old counts bound.old.words) (Some bound.old.words) }
    ensures around { bound.new.around ≡ bound.old.around }
    ensures count { result ≡ cond (is_allowed counts (group_of machine.old)) (volume counts * volume (group_of machine.old)) 0 }
    ensures machine { machine.new ≡ machine.old }
{
    if is_allowed(counts, machine.group()) {
        machine.dispatch(counts, bound)
    } else {
        0
    }
}

impl DeviceMemory {
    /// Runs a dispatch of a machine's module, and answers how many invocations ran. Where it is too large none does.
    pub(crate) fn dispatch_groups(
        &mut self,
        machine: &mut Machine,
        groups: &Groups,
        slots: &[SlotRange],
    ) -> u64
        requires { CanDispatch self.old groups.now slots.now machine.old }
        ensures memory { let m = memory_of self.old in memory_of self.new
            ≡ put_slots ((module_meaning_of machine.old).words 0 (group_counts m groups.now) (slots_words m slots.now)) slots.now m }
        ensures count { result ≡ (module_meaning_of machine.old).count 0 (group_counts (memory_of self.old) groups.now) }
        ensures alike { AreAlike self.old self.new }
        ensures machine { machine.new ≡ machine.old }
    {
        let counts = self.counts(groups);
        self.dispatch_counted(machine, counts, slots)
    }

    // Bytes that may be written leave their blocks, so that the others can be lent beside them, and come back after it.
    fn dispatch_counted(
        &mut self,
        machine: &mut Machine,
        counts: [u32; 3],
        slots: &[SlotRange],
    ) -> u64
        requires defined { IsDefined machine.old }
        requires bound { AllByRecursion (CanBind self.old) slots.now }
        requires apart { Pairwise AreApart slots.now }
        ensures memory { let m = memory_of self.old in memory_of self.new
            ≡ put_slots ((module_meaning_of machine.old).words 0 counts (slots_words m slots.now)) slots.now m }
        ensures count { result ≡ (module_meaning_of machine.old).count 0 counts }
        ensures alike { AreAlike self.old self.new }
        ensures machine { machine.new ≡ machine.old }
    {
        let mut bound = Slots::new();
        self.take_parts(slots, &mut bound);
        self.lend_parts(slots, &mut bound);
        let count = run_allowed(machine, counts, &mut bound);
        let parts = bound.into_writes();
        self.return_parts(slots, parts);
        count
    }
}
