// The machine of a module.

ghost use Rattle.std.specs.Prelude.{◌≡◌, ◌*◌, ◌<◌, ◌≤◌, ℕ, slice_index, IfOk, Some};
ghost use Rattle.shader_model.specs.Dispatch.{volume};
ghost use Rattle.spirv_model.specs.Meaning.ModuleDispatch.{IsDefined, group_of, module_dispatched};
ghost use Rattle.dx_types.specs.declared.limits.TheConstants.{MAX_GROUPS, MAX_INVOCATIONS};

use crate::dispatch::run_groups;
use crate::frame::Frame;
use crate::table::Table;
use shader_slots::Slots;
use spirv_words::Module;
use std::alloc::{AllocError, Global};
use std::marker::Model;

/// A module's table, and room for one invocation. It can be kept for as long as the module may be dispatched. A clause sees
/// the module's words.
#[derive(Drop)]
pub struct Machine {
    table: Table,
    frame: Frame,
}

impl Model for Machine {
    ghost use Rattle.std.specs.Prelude.{ℕ, List};
    ghost use Rattle.spirv_run.specs.Tables.{IsFor};

    ghost Value = { List ℕ };

    ghost view = { λ m. m.table };

    ghost invariant = { λ m. IsFor m.frame m.table };
}

impl Machine {
    /// Decodes the words of a module once. It takes memory for each instruction, and for each id below the greatest,
    /// which SPIR-V 1.6, section 2.3, wants to be small.
    pub fn new(alloc: Global, from: &Module) -> Result<Machine, AllocError>
        ensures { IfOk result (λ machine. machine ≡ from.now) }
    {
        let table = Table::new(alloc, from.words())?;
        let frame = table.frame(alloc)?;
        Ok(Machine { table, frame })
    }

    /// The module's words.
    pub fn words(&self) -> &[u32]
        ensures { result.now ≡ self.now }
    {
        self.table.words()
    }

    /// The sizes of the module's group: those of its first LocalSize, and 1, 1, 1 where it has none.
    pub fn group(&self) -> [u32; 3]
        ensures { result ≡ group_of self.now }
    {
        self.table.group()
    }

    /// Runs the invocations of so many groups in index order, and answers how many ran. It takes no memory.
    pub fn dispatch(&mut self, groups: [u32; 3], slots: &mut Slots<'_>) -> u64
        requires defined { IsDefined self.old }
        requires groups { (c : ℕ) → c < 3 → slice_index groups c ≤ MAX_GROUPS }
        requires count { volume groups * volume (group_of self.old) ≤ MAX_INVOCATIONS }
        ensures words { Some slots.new.words ≡ module_dispatched self.old groups slots.old.words }
        ensures around { slots.new.around ≡ slots.old.around }
        ensures count { result ≡ volume groups * volume (group_of self.old) }
        ensures unchanged { self.new ≡ self.old }
    {
        run_groups(&self.table, groups, &mut self.frame, slots)
    }
}
