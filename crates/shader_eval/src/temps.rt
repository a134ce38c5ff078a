// The temporaries of an invocation.

ghost use Rattle.std.specs.Prelude.{◌≡◌, ◌*◌, ◌<◌, replicate, length, slice_index, List, ℕ, IfOk, Some};
ghost use Rattle.shader_model.specs.Invocation.{with_component, with_target};

use shader_model::Target;
use std::alloc::{AllocError, Global};
use std::marker::Model;

/// The words of the temporaries, four each. A clause sees the list of them. A word that isn't there reads as 0 and takes
/// no write.
#[derive(Drop)]
pub struct Temps {
    words: Vec<u32>,
}

impl Model for Temps {
    ghost Value = { List ℕ };

    ghost view = { λ t. t.words.items };
}

impl Temps {
    /// So many temporaries, all of whose words are 0.
    pub fn new(alloc: Global, count: u32) -> Result<Temps, AllocError>
        ensures { IfOk result (λ temps. temps ≡ replicate (4 * count) 0) }
    {
        let words = vec![in alloc; 0; 4 * count as usize]?;
        Ok(Temps { words })
    }

    /// Sets all words to 0.
    pub fn clear(&mut self)
        ensures { self.new ≡ replicate (length self.old) 0 }
    {
        for word in self.words.iter_mut() {
            *word = 0;
        }
    }

    pub fn word(&self, at: usize) -> u32
        ensures { result ≡ slice_index self.now at }
    {
        if at < self.words.len() {
            self.words[at]
        } else {
            0
        }
    }

    /// Sets the components that a target's mask has.
    pub fn set(&mut self, target: &Target, values: [u32; 4])
        ensures { self.new ≡ with_target (Some target.now) (λ c. slice_index values c) self.old }
    {
        self.set_one(target, 0, values[0]);
        self.set_one(target, 1, values[1]);
        self.set_one(target, 2, values[2]);
        self.set_one(target, 3, values[3]);
    }

    /// Sets one component, where a target's mask has it.
    fn set_one(&mut self, target: &Target, component: u32, value: u32)
        requires { component < 4 }
        ensures { self.new ≡ with_component target.now (λ c. value) component self.old }
    {
        let at = 4 * target.index as usize + component as usize;
        if (target.mask as u32 >> component) % 2 == 1 && at < self.words.len() {
            self.words[at] = value;
        }
    }
}
