// How reading ends where it gives no module.

use spirv_model::ModuleFault;
use std::alloc::AllocError;

/// The first bad word of a module, or want of memory.
#[derive(Clone, Copy, PartialEq, Eq, Debug)]
pub enum ModuleEnd {
    Bad(ModuleFault),
    NoMemory,
}

impl From<AllocError> for ModuleEnd {
    ghost use Rattle.spirv_words.specs.declared.end.ModuleEnd.TheVariants.{NoMemory};
    ghost use Rattle.std.specs.Prelude.{◌≡◌};

    ghost from_gives = { λ _ e. e ≡ NoMemory };

    fn from(_: AllocError) -> ModuleEnd {
        ModuleEnd::NoMemory
    }
}
