//! Pipeline stages, access flags, and the masks of barriers.

ghost use Rattle.std.specs.Prelude.{⊤, [], ◌∷◌, codes};

use bitflags::{Flag, Flags, bitflag_items};

/// Where in its run a command touches memory (after VkPipelineStageFlagBits2).
#[derive(Clone, Copy, Debug, PartialEq, Eq)]
pub enum Stage {
    Indirect,
    Compute,
    Transfer,
    Host,
}

/// How memory is touched (after VkAccessFlagBits2).
#[derive(Clone, Copy, Debug, PartialEq, Eq)]
pub struct Access(u8);

bitflag_items! {
    impl Access: u8 {
        const READ = 1;
        const WRITE = 2;
    }
}

impl Access {
    /// Neither.
    pub const NONE: Access = Access(0);

    /// Both reads and writes.
    pub const READ_WRITE: Access = Access(3);
}

impl Flags for Access {
    type Bits = u8;

    ghost exact = { ⊤ };

    ghost table = { (codes "READ", 1) ∷ (codes "WRITE", 2) ∷ [] };

    ghost set_of = { λ a. a.0 };

    fn flags<'a>() -> &'a [Flag<Access>] {
        Access::FLAGS
    }

    fn bits(&self) -> u8 {
        self.0
    }

    fn from_bits_retain(bits: u8) -> Access {
        Access(bits)
    }
}

/// The stages that one side of a barrier names, each with the access that it names there.
#[derive(Clone, Copy, Debug, PartialEq, Eq)]
pub struct Mask {
    pub indirect: Option<Access>,
    pub compute: Option<Access>,
    pub transfer: Option<Access>,
    pub host: Option<Access>,
}
