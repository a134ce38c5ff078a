// A read or a write that fails is counted, so that a caller can say why it stopped.
ghost use Rattle.std.specs.Prelude.{◌≡◌, ℕ, ◌<◌, ◌≤◌, List, [], Option, length, take, IfOk, OnErr, IfSome};
ghost use Rattle.dx_io.specs.Faults.{Rose};
ghost use Rattle.dx_io.specs.Told.{Gives, Appends};

/// The outside did not do what it was asked.
#[derive(Clone, Copy, Debug, PartialEq, Eq)]
pub struct Failed;

/// Bytes that come in.
pub trait Source {
    /// What is left to read, where the source tells it.
    ghost left: { Self → Option (List ℕ) };

    /// How often a read has failed. The count never falls, and stands still at the end of a `u64`.
    ghost faults: { Self → ℕ };

    /// Moves the next bytes to the front of `into`, and says how many. 0 into a nonempty buffer is the
    /// end of the input. A failed read moves nothing and is counted.
    fn read(&mut self, into: &mut [u8]) -> Result<usize, Failed>
        ensures later { faults self.old ≤ faults self.new }
        ensures failed { OnErr result (Rose (faults self.old) (faults self.new)) }
        ensures kept { OnErr result (left self.new ≡ left self.old) }
        ensures fits { IfOk result (λ n. n ≤ length into.old) }
        ensures moved { IfOk result (λ n. Gives (left self.old) (take n into.new) (left self.new)) }
        ensures end { IfOk result (λ n. n ≡ 0 → 0 < length into.old → IfSome (left self.old) (λ l. l ≡ [])) };
}

/// Where bytes go.
pub trait Sink {
    /// What it holds, where the sink tells it.
    ghost held: { Self → Option (List ℕ) };

    /// How often a write has failed. The count never falls, and stands still at the end of a `u64`.
    ghost faults: { Self → ℕ };

    /// Takes some of the first bytes, at least one where there is one, and says how many. A failed
    /// write takes nothing and is counted.
    fn write(&mut self, from: &[u8]) -> Result<usize, Failed>
        ensures later { faults self.old ≤ faults self.new }
        ensures failed { OnErr result (Rose (faults self.old) (faults self.new)) }
        ensures kept { OnErr result (held self.new ≡ held self.old) }
        ensures fits { IfOk result (λ n. n ≤ length from.now) }
        ensures taken { IfOk result (λ n. Appends (held self.old) (take n from.now) (held self.new)) }
        ensures some { IfOk result (λ n. 0 < length from.now → 0 < n) };
}
