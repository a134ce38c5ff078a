ghost use Rattle.std.specs.Prelude.{◌≡◌, ℕ, List, []};

use std::marker::Brand;

/// The log that a run plays. It is a meaning alone: `Brand` leaves it to the call which log that is.
pub trait LogName {
    /// Its bytes.
    ghost log: { List ℕ };
}

impl LogName for Brand {
    ghost log = { [] };
}

/// A message with a number. What it may say, and after which messages, hangs on the log of the run.
pub trait Numbered {
    ghost number_of: { Self → ℕ };
    /// It may be the first message of this log.
    ghost first: { List ℕ → Self → Type 0 };
    /// It may come after these messages of this log.
    ghost follows: { List ℕ → List Self → Self → Type 0 };

    /// The number of the message, from 1.
    fn number(&self) -> u64
        ensures { result ≡ number_of self.now };
}
