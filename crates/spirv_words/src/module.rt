// Modules that the profile takes.

ghost use Rattle.std.specs.Prelude.{◌≡◌, ◌<◌, ◌^◌, length, None, Some, IfOk, OnOk};
ghost use Rattle.spirv_model.specs.FirstBad.{first_bad};
ghost use Rattle.spirv_words.specs.Reading.{IfBad};

use crate::end::ModuleEnd;
use crate::reading::check_words;
use std::alloc::Global;
use std::marker::Model;

/// A module of the profile: its words, header and all. A clause sees the list of them.
#[derive(Drop)]
pub struct Module {
    words: Vec<u32>,
}

impl Model for Module {
    ghost use Rattle.std.specs.Prelude.{◌≡◌, List, ℕ, None};
    ghost use Rattle.spirv_model.specs.FirstBad.{first_bad};

    ghost Value = { List ℕ };

    ghost view = { λ m. m.words.items };

    ghost invariant = { λ m. first_bad m.words.items ≡ None };
}

impl Module {
    /// The words.
    pub fn words(&self) -> &[u32]
        ensures words { result.now ≡ self.now }
        ensures well_formed { first_bad self.now ≡ None }
    {
        self.words.as_slice()
    }

    /// A module of these words, where the profile takes them.
    pub fn from_words(alloc: Global, words: Vec<u32>) -> Result<Module, ModuleEnd>
        requires { length words.items < 2 ^ 32 }
        ensures words { IfOk result (λ read. read ≡ words.items) }
        ensures well_formed { OnOk result (first_bad words.items ≡ None) }
        ensures first_bad_word { IfBad result (λ fault. first_bad words.items ≡ Some fault) }
    {
        match check_words(alloc, words.as_slice()) {
            Ok(()) => Ok(Module { words }),
            Err(end) => Err(end),
        }
    }
}

/// A module of these words. Bad says the first word that the profile refuses, and the first kind of what is wrong
/// with it.
pub fn read_module(alloc: Global, words: &[u32]) -> Result<Module, ModuleEnd>
    requires { length words.now < 2 ^ 32 }
    ensures words { IfOk result (λ read. read ≡ words.now) }
    ensures well_formed { OnOk result (first_bad words.now ≡ None) }
    ensures first_bad_word { IfBad result (λ fault. first_bad words.now ≡ Some fault) }
{
    if let Err(end) = check_words(alloc, words) {
        return Err(end);
    }
    match Vec::from_slice(alloc, words) {
        Ok(words) => Ok(Module { words }),
        Err(_) => Err(ModuleEnd::NoMemory),
    }
}
