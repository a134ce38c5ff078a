ghost use Rattle.std.specs.Prelude.{◌≡◌};
ghost use Rattle.vk_trace.specs.declared.trace_end.TraceEnd.TheVariants.{NoMemory};
ghost use Rattle.vk_trace.specs.declared.trace_end.Stop.TheVariants as stops;

use std::alloc::{AllocError, AllocFailed};
use thiserror::Error;
use vk_types::VkOp;

/// Why a text gives no listing: its first bad line, from 1, or want of memory.
#[derive(Debug, Drop, Error)]
pub enum TraceEnd {
    #[error("line {line} is not a line of a listing")]
    Bad { line: u64 },
    #[error("out of memory")]
    NoMemory,
}

impl From<AllocError> for TraceEnd {
    ghost from_gives = { λ _ e. e ≡ NoMemory };

    fn from(_: AllocError) -> TraceEnd {
        TraceEnd::NoMemory
    }
}

impl From<AllocFailed<VkOp>> for TraceEnd {
    ghost from_gives = { λ _ e. e ≡ NoMemory };

    fn from(_: AllocFailed<VkOp>) -> TraceEnd {
        TraceEnd::NoMemory
    }
}

/// Why a line gives no operation: it is none's, or memory ran out.
#[derive(Clone, Copy, Debug, PartialEq, Eq)]
pub enum Stop {
    Bad,
    NoMemory,
}

impl From<AllocError> for Stop {
    ghost from_gives = { λ _ e. e ≡ stops.NoMemory };

    fn from(_: AllocError) -> Stop {
        Stop::NoMemory
    }
}
