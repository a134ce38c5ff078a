// Running sums of what commands ran.

ghost use Rattle.std.specs.Prelude.{◌≡◌, ◌+◌, ◌<◌, ◌≤◌, ◌^◌, OnErr, OnOk, false, length, true};
ghost use Rattle.std.specs.List.{insert};
ghost use Rattle.query_pool.specs.Running.{AllFit, Climbs, below, placed, raised, raised_from, sum_at};

use std::alloc::AllocError;

/// How many invocations were counted of the commands up to number `command`, its own included.
#[derive(Clone, Copy, Debug)]
pub struct Sum {
    pub command: u64,
    pub upto: u64,
}

/// How many of the sums are of smaller commands. It halves the sums.
pub(crate) fn below(sums: &[Sum], command: u64) -> usize
    requires { Climbs 0 0 sums.now }
    ensures { result ≡ below command sums.now }
{
    let mut low = 0;
    let mut high = sums.len();
    'halves: while low < high {
        let middle = low + (high - low) / 2;
        if sums[middle].command < command {
            low = middle + 1;
        } else {
            high = middle;
        }
    }
    low
}

/// The sum of so many of the first commands.
pub(crate) fn sum_at(sums: &[Sum], count: usize) -> u64
    requires { count ≤ length sums.now }
    ensures { result ≡ sum_at 0 sums.now count }
{
    if count == 0 {
        return 0;
    }
    sums[count - 1].upto
}

/// The sum of all smaller commands.
pub(crate) fn sum_below(sums: &[Sum], command: u64) -> u64
    requires { Climbs 0 0 sums.now }
    ensures { result ≡ sum_at 0 sums.now (below command sums.now) }
{
    let count = below(sums, command);
    sum_at(sums, count)
}

/// Puts a command in that ran nothing yet, if it isn't there.
pub(crate) fn place(sums: &mut Vec<Sum>, at: usize, command: u64) -> Result<(), AllocError>
    requires { at ≡ below command sums.old.items }
    ensures ok { OnOk result (sums.new.items ≡ placed command 0 sums.old.items) }
    ensures err { OnErr result (sums.new.items ≡ sums.old.items) }
{
    if has(sums, at, command) {
        return Ok(());
    }
    let upto = sum_at(sums, at);
    sums.insert(at, Sum { command, upto })?;
    Ok(())
}

/// Whether the command at this place is there.
fn has(sums: &[Sum], at: usize, command: u64) -> bool
    requires { at ≡ below command sums.now }
    ensures yes { result ≡ true → placed command 0 sums.now ≡ sums.now }
    ensures no { result ≡ false → placed command 0 sums.now ≡ insert sums.now at (record { command = command; upto = sum_at 0 sums.now at }) }
{
    at < sums.len() && sums[at].command == command
}

/// Adds so many invocations to each sum from this one on.
pub(crate) fn raise_from(sums: &mut Vec<Sum>, at: usize, invocations: u64)
    requires { AllFit invocations sums.old.items }
    ensures { sums.new.items ≡ raised_from invocations at sums.old.items }
{
    'later: for i in at..sums.len() {
        sums[i] = raise(sums[i], invocations);
    }
}

fn raise(sum: Sum, invocations: u64) -> Sum
    requires { sum.upto + invocations < 2 ^ 64 }
    ensures { result ≡ raised invocations sum }
{
    Sum {
        command: sum.command,
        upto: sum.upto + invocations,
    }
}
