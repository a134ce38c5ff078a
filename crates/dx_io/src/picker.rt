ghost use Rattle.std.specs.Prelude.{◌≡◌, ◌<◌, ◌%◌};
ghost use Rattle.rand_core.specs.Pcg32Seed.{pcg32_seed};
ghost use Rattle.rand_pcg.specs.Pcg.{pcg64, pcg64_of_seed};

use rand_core::SeedableRng;
use rand_core::utils::NextWord;
use rand_pcg::Pcg64;
use std::marker::Model;

/// Chooses one of several things that may come next.
pub trait Picker {
    /// A number below `below`, which is above 0.
    fn pick(&mut self, below: u64) -> u64
        requires { 0 < below }
        ensures { result < below };
}

/// Chooses by a PCG generator of 64-bit words (XSL RR 128/64). A clause sees the generator.
#[derive(Drop)]
pub struct PcgPicker {
    words: Pcg64,
}

impl Model for PcgPicker {
    ghost use Rattle.rand_pcg.specs.Lcg.{Lcg};

    ghost Value = { Lcg };

    ghost view = { λ p. p.words };
}

impl PcgPicker {
    /// A picker whose generator is seeded from a number, as `seed_from_u64` does it.
    pub fn new(seed: u64) -> PcgPicker
        ensures { result ≡ pcg64_of_seed (pcg32_seed 32 seed) }
    {
        PcgPicker {
            words: Pcg64::seed_from_u64(seed),
        }
    }
}

impl Picker for PcgPicker {
    fn pick(&mut self, below: u64) -> u64
        requires { 0 < below }
        ensures below { result < below }

        // What this picker does beside: it answers the generator's next word modulo `below`.
        ensures word { result ≡ (pcg64 self.old).0 % below }
        ensures next { self.new ≡ (pcg64 self.old).1 }
    {
        self.words.next_word() % below
    }
}
