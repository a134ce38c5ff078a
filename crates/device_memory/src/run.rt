// What the device does at a command.

ghost use Rattle.std.specs.Prelude.{◌≡◌, None, Some};
ghost use Rattle.vk_types.specs.Effects.{effect, invocations};
ghost use Rattle.device_memory.specs.Held.{AreAlike, memory_of};
ghost use Rattle.device_memory.specs.Meant.{module_meaning_of, no_meaning};
ghost use Rattle.device_memory.specs.Runs.{CanRun};

use crate::DeviceMemory;
use spirv_run::Machine;
use vk_types::{Command, Work};

impl DeviceMemory {
    /// Runs a command that is no dispatch, and answers that no invocation ran. The predicate's word is read before the
    /// first write.
    pub fn run(&mut self, c: &Command) -> u64
        requires { CanRun self.old c.now None }
        ensures memory { memory_of self.new ≡ effect no_meaning c.now (memory_of self.old) }
        ensures count { result ≡ invocations no_meaning c.now (memory_of self.old) }
        ensures alike { AreAlike self.old self.new }
    {
        if self.is_skipped(&c.cond) {
            return 0;
        }
        match &c.work {
            Work::Copy { source, target } => {
                self.copy(source, target);
                0
            }
            Work::Fill { target, word } => {
                self.clear(target, &[*word; 4], 1);
                0
            }
            Work::Clear {
                target,
                words,
                unit,
            } => {
                self.clear(target, words, *unit);
                0
            }
            Work::Dispatch { .. } => unreachable!(),
        }
    }

    /// Runs a dispatch by a machine of its module, and answers how many invocations ran. The indirect counts and the
    /// predicate's word are read before the first write.
    pub fn dispatch(&mut self, c: &Command, machine: &mut Machine) -> u64
        requires { CanRun self.old c.now (Some machine.old) }
        ensures memory { memory_of self.new ≡ effect (module_meaning_of machine.old) c.now (memory_of self.old) }
        ensures count { result ≡ invocations (module_meaning_of machine.old) c.now (memory_of self.old) }
        ensures alike { AreAlike self.old self.new }
        ensures machine { machine.new ≡ machine.old }
    {
        if self.is_skipped(&c.cond) {
            return 0;
        }
        match &c.work {
            Work::Dispatch { groups, slots, .. } => {
                self.dispatch_groups(machine, groups, slots.as_slice())
            }
            Work::Copy { .. } | Work::Fill { .. } | Work::Clear { .. } => unreachable!(),
        }
    }
}
