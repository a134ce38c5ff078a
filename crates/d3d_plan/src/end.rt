ghost use Rattle.std.specs.Prelude.{◌≡◌};
ghost use Rattle.d3d_plan.specs.declared.end.PlanEnd.TheVariants.{NoMemory};

use dx_types::CallNo;
use std::alloc::AllocError;

/// Why there is no plan.
#[derive(Clone, Copy, Debug, PartialEq, Eq)]
pub enum PlanEnd {
    /// Call n is the first draw; draws are not played.
    Unsupported { n: CallNo, kind: u16 },
    NoMemory,
}

impl From<AllocError> for PlanEnd {
    ghost from_gives = { λ _ e. e ≡ NoMemory };

    fn from(_: AllocError) -> PlanEnd {
        PlanEnd::NoMemory
    }
}
