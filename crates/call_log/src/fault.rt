ghost use Rattle.std.specs.Prelude.{◌≡◌};
ghost use Rattle.call_log.specs.declared.fault.LogEnd.TheVariants.{NoMemory};

use std::alloc::{AllocError, AllocFailed};

/// Where a log is broken, in bytes from its start, and how: the first fault from the front.
#[derive(Clone, Copy, Debug, PartialEq, Eq)]
pub struct LogFault {
    pub at: u64,
    pub kind: LogKind,
}

/// How a log is broken.
#[derive(Clone, Copy, Debug, PartialEq, Eq)]
pub enum LogKind {
    /// The first bytes aren't `D3L1`.
    Magic,
    /// The version isn't 1.
    Version,
    /// The input ends within the version, a record's first 8 bytes or its body.
    Truncated,
    /// A body's length doesn't fit its kind, or an end record has a body or a context.
    BodyLength,
    /// No record is of this kind.
    UnknownKind,
    /// Bytes follow the end record.
    Trailing,
    /// The input ends where a record would begin.
    NoEnd,
}

/// Why there is no log.
#[derive(Clone, Copy, Debug, PartialEq, Eq)]
pub enum LogEnd {
    /// The bytes aren't a log; this is their first fault.
    Bad(LogFault),
    /// Memory for the index was refused.
    NoMemory,
}

/// What stands at a place of a log: a record, the end of the log, or a fault.
#[derive(Clone, Copy, Debug, PartialEq, Eq)]
pub(crate) enum Head {
    Whole,
    End,
    Broken(LogFault),
}

impl From<AllocError> for LogEnd {
    ghost from_gives = { λ _ e. e ≡ NoMemory };

    fn from(_: AllocError) -> LogEnd {
        LogEnd::NoMemory
    }
}

impl<T: Drop> From<AllocFailed<T>> for LogEnd {
    ghost from_gives = { λ _ e. e ≡ NoMemory };

    fn from(_: AllocFailed<T>) -> LogEnd {
        LogEnd::NoMemory
    }
}
