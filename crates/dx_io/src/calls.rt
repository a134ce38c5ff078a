ghost use Rattle.std.specs.Prelude.{◌≡◌, ◌+◌, ◌≤◌, ◌==◌, is_err};
ghost use Rattle.std.specs.List.{list_any};

use crate::Failed;

/// Counts the calls of a source or a sink in memory, which fails at those that it is told.
#[derive(Drop)]
pub(crate) struct Calls {
    /// The numbers of the calls that fail. The first call has number 1.
    fails: Vec<u64>,
    made: u64,
    faults: u64,
}

impl Calls {
    ghost use Rattle.dx_io.specs.Memory.{no_calls, is_due, after_call, after_fault};

    pub(crate) fn new(fails: Vec<u64>) -> Calls
        ensures { result ≡ no_calls fails }
    {
        Calls {
            fails,
            made: 0,
            faults: 0,
        }
    }

    /// Counts a call, and fails where it is one of those that fail.
    pub(crate) fn begin(&mut self) -> Result<(), Failed>
        ensures due { is_err result ≡ is_due self.old }
        ensures counted { self.new ≡ after_call self.old (is_due self.old) }
        ensures later { self.old.faults ≤ self.new.faults }
    {
        let due = stands_next(&self.fails, self.made);
        self.made = self.made.saturating_add(1);
        if due {
            return Err(self.fault());
        }
        Ok(())
    }

    /// Counts a fault.
    pub(crate) fn fault(&mut self) -> Failed
        ensures counted { self.new ≡ after_fault self.old }
        ensures later { self.old.faults ≤ self.new.faults }
    {
        self.faults = self.faults.saturating_add(1);
        Failed
    }
}

// Whether the number after `made` is in the list. No list has the one after the last `u64`.
fn stands_next(numbers: &[u64], made: u64) -> bool
    ensures { result ≡ list_any (λ number. number == made + 1) numbers.now }
{
    match made.checked_add(1) {
        Some(next) => numbers.contains(&next),
        None => false,
    }
}
