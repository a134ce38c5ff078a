//! The machines of modules, kept by the shaders that they are of.

ghost use Rattle.std.specs.Prelude.{◌≡◌, ◌==◌, ℕ, [], cond, IfOk, IsSome, OnOk, Some, true};
ghost use Rattle.std.specs.Option.{option_copied};
ghost use Rattle.spirv_model.specs.Meaning.ModuleDispatch.{IsDefined};
ghost use Rattle.vk_types.specs.Effects.{effect, invocations};
ghost use Rattle.device_memory.specs.Held.{AreAlike, memory_of};
ghost use Rattle.device_memory.specs.Meant.{meaning_by, module_meaning_of};
ghost use Rattle.device_memory.specs.Runs.{CanRun};
ghost use Rattle.vk_device.specs.Modules.{Agrees, MeansTheSame, kept_or, module_of, modules_after, with_module};

use device_memory::DeviceMemory;
use dx_types::CallNo;
use spirv_run::Machine;
use spirv_words::Module;
use std::alloc::{AllocError, Global};
use std::collections::BTreeMap;
use std::marker::Model;
use vk_types::{Command, Work};

/// A machine of each shader that was dispatched: its module is decoded once. A clause sees the modules' words, by the numbers of
/// their shaders.
#[derive(Drop)]
pub(crate) struct Machines {
    alloc: Global,
    machines: BTreeMap<CallNo, Machine>,
}

impl Model for Machines {
    ghost use Rattle.std.specs.List.{AllByRecursion};
    ghost use Rattle.vk_device.specs.Modules.{HasOutcome, Modules};

    ghost Value = { Modules };

    ghost view = { λ m. m.machines.entries };

    ghost invariant = { λ m. AllByRecursion HasOutcome m.machines.entries };
}

impl Machines {
    /// None is kept.
    pub fn new(alloc: Global) -> Machines
        ensures { result ≡ [] }
    {
        Machines {
            alloc,
            machines: BTreeMap::new(alloc),
        }
    }

    /// Runs a command, and answers how many invocations ran. A dispatch is run by the machine that is kept of its shader, which is
    /// made of the given module where there is none. A lack of memory comes before anything is written.
    pub fn run(
        &mut self,
        memory: &mut DeviceMemory,
        c: &Command,
        module: Option<&Module>,
    ) -> Result<u64, AllocError>
        requires can { CanRun memory.old c.now (option_copied «module») }
        requires agrees { Agrees (option_copied «module») c.now.work (module_of self.old) }
        ensures memory { OnOk result (memory_of memory.new ≡ effect (meaning_by (option_copied «module».entry)) c.now (memory_of memory.old)) }
        ensures count { IfOk result (λ n. n ≡ invocations (meaning_by (option_copied «module».entry)) c.now (memory_of memory.old)) }
        ensures alike { OnOk result (AreAlike memory.old memory.new) }
        ensures modules { OnOk result (module_of self.new ≡ modules_after (option_copied «module».entry) c.now.work (module_of self.old)) }
    {
        match module {
            None => Ok(memory.run(c)),
            Some(module) => match &c.work {
                Work::Dispatch { shader, .. } => self.dispatch(*shader, module, memory, c),
                Work::Copy { .. } | Work::Fill { .. } | Work::Clear { .. } => unreachable!(),
            },
        }
    }

    fn dispatch(
        &mut self,
        shader: CallNo,
        module: &Module,
        memory: &mut DeviceMemory,
        c: &Command,
    ) -> Result<u64, AllocError>
        requires defined { IsDefined «module».now }
        requires can { CanRun memory.old c.now (Some «module».now) }
        requires same { MeansTheSame (module_of self.old shader) «module».now }
        ensures memory { OnOk result (memory_of memory.new ≡ effect (module_meaning_of «module».now) c.now (memory_of memory.old)) }
        ensures count { IfOk result (λ n. n ≡ invocations (module_meaning_of «module».now) c.now (memory_of memory.old)) }
        ensures alike { OnOk result (AreAlike memory.old memory.new) }
        ensures modules { OnOk result (module_of self.new ≡ with_module shader «module».now (module_of self.old)) }
    {
        self.keep(shader, module)?;
        Ok(self.dispatch_kept(shader, memory, c))
    }

    /// Keeps a machine of the module, where none of its shader is kept.
    fn keep(&mut self, shader: CallNo, module: &Module) -> Result<(), AllocError>
        requires { IsDefined «module».now }
        ensures kept { OnOk result (module_of self.new ≡ with_module shader «module».now (module_of self.old)) }
        ensures defined { IsDefined (kept_or (module_of self.old shader) «module».now) }
    {
        if self.machines.contains_key(&shader) {
            return Ok(());
        }
        let machine = Machine::new(self.alloc, module)?;
        self.add(shader, machine)
    }

    fn add(&mut self, shader: CallNo, machine: Machine) -> Result<(), AllocError>
        requires { IsDefined machine }
        ensures { OnOk result ((n : ℕ) → module_of self.new n ≡ cond (n == shader) (Some machine) (module_of self.old n)) }
    {
        self.machines.insert(shader, machine)?;
        Ok(())
    }

    /// Runs a dispatch by the machine that is kept of a shader.
    fn dispatch_kept(&mut self, shader: CallNo, memory: &mut DeviceMemory, c: &Command) -> u64
        requires kept { IsSome (module_of self.old shader) }
        requires can { CanRun memory.old c.now (module_of self.old shader) }
        ensures memory { memory_of memory.new ≡ effect (meaning_by (module_of self.old shader)) c.now (memory_of memory.old) }
        ensures count { result ≡ invocations (meaning_by (module_of self.old shader)) c.now (memory_of memory.old) }
        ensures alike { AreAlike memory.old memory.new }
        ensures unchanged { self.new ≡ self.old }
    {
        match self.machines.get_mut(&shader) {
            Some(machine) => memory.dispatch(c, machine),
            None => unreachable!(),
        }
    }

    /// Whether the work is no dispatch, or no other module is kept of its shader than the given one.
    pub fn agree(&self, work: &Work, module: Option<&Module>) -> bool
        ensures { result ≡ true → Agrees (option_copied «module».entry) work.now (module_of self.now) }
    {
        match module {
            None => true,
            Some(module) => match work {
                Work::Dispatch { shader, .. } => self.is_same(*shader, module),
                Work::Copy { .. } | Work::Fill { .. } | Work::Clear { .. } => true,
            },
        }
    }

    fn is_same(&self, shader: CallNo, module: &Module) -> bool
        ensures { result ≡ true → MeansTheSame (module_of self.now shader) «module».now }
    {
        match self.machines.get(&shader) {
            Some(machine) => machine.words() == module.words(),
            None => true,
        }
    }
}
