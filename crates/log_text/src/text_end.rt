ghost use Rattle.std.specs.Prelude.{◌≡◌};
ghost use Rattle.log_text.specs.declared.text_end.TextEnd.TheVariants.{NoMemory};
ghost use Rattle.log_text.specs.declared.text_end.Stop.TheVariants as stops;

use std::alloc::{AllocError, AllocFailed};
use thiserror::Error;

/// Why a text gives no log: its first bad line, from 1, or want of memory.
#[derive(Debug, Drop, Error)]
pub enum TextEnd {
    #[error("line {line} is not a line of a log's text")]
    Bad { line: u64 },
    #[error("out of memory")]
    NoMemory,
}

impl From<AllocError> for TextEnd {
    ghost from_gives = { λ _ e. e ≡ NoMemory };

    fn from(_: AllocError) -> TextEnd {
        TextEnd::NoMemory
    }
}

/// Why a line gives no record.
#[derive(Clone, Copy, Debug, PartialEq, Eq)]
pub(crate) enum Stop {
    Bad,
    NoMemory,
}

impl From<AllocError> for Stop {
    ghost from_gives = { λ _ e. e ≡ stops.NoMemory };

    fn from(_: AllocError) -> Stop {
        Stop::NoMemory
    }
}
