// The numbers of a module, each once, in the order in which they were first named.

ghost use Rattle.std.specs.Prelude.{◌≡◌, ◌≤◌, [], length, OnOk};
ghost use Rattle.spirv_emit.specs.Numbers.{place, with_number};

use indexmap::IndexSet;
use std::alloc::{AllocError, Global};
use std::marker::Model;

/// Numbers, with their places. A clause sees the list of them.
#[derive(Drop)]
pub struct Numbers {
    seen: IndexSet<u32>,
}

impl Model for Numbers {
    ghost use Rattle.std.specs.Prelude.{ℕ, List};

    ghost Value = { List ℕ };

    ghost view = { λ n. n.seen.keys };
}

#[tactic(auto, using(crate::proofs::Words::NumberPlaces::added_number))]
impl Numbers {
    pub fn new(alloc: Global) -> Numbers
        ensures { result ≡ [] }
    {
        Numbers {
            seen: IndexSet::new(alloc),
        }
    }

    /// Adds a number at the end, where it isn't there yet.
    pub fn add(&mut self, number: u32) -> Result<(), AllocError>
        ensures { OnOk result (self.new ≡ with_number self.old number) }
    {
        self.seen.insert(number)?;
        Ok(())
    }

    /// The place of a number; how many there are where it isn't there.
    pub fn place(&self, number: u32) -> usize
        ensures value { result ≡ place number self.now }
        ensures within { result ≤ length self.now }
    {
        match self.seen.get_index_of(&number) {
            Some(place) => place,
            None => self.seen.len(),
        }
    }

    pub fn len(&self) -> usize
        ensures { result ≡ length self.now }
    {
        self.seen.len()
    }

    pub fn as_slice(&self) -> &[u32]
        ensures { result.now ≡ self.now }
    {
        self.seen.as_slice()
    }
}
