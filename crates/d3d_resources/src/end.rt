ghost use Rattle.std.specs.Prelude.{◌≡◌};
ghost use Rattle.d3d_resources.specs.declared.end.TableEnd.TheVariants.{NoMemory};

use dx_types::Refusal;
use std::alloc::AllocFailed;

/// Why a buffer was not created.
#[derive(Clone, Copy, Debug, PartialEq, Eq)]
pub enum TableEnd {
    Refused(Refusal),
    NoMemory,
}

impl<T: Drop> From<AllocFailed<T>> for TableEnd {
    ghost from_gives = { λ _ e. e ≡ NoMemory };

    fn from(_: AllocFailed<T>) -> TableEnd {
        TableEnd::NoMemory
    }
}
