ghost use Rattle.std.specs.Prelude.{◌≡◌, ◌≤◌, length};
ghost use Rattle.call_log.specs.Grammar.{calls_of};
ghost use Rattle.call_log.specs.View.{call_view};
ghost use Rattle.core_machine.specs.Commands.{makes_command, writes};
ghost use Rattle.core_machine.specs.Keeping.{IsPlanned};

use call_log::{Call, Log};
use d3d_model::codes::MAP_WRITE;
use d3d_plan::{Plan, Verdict};
use dx_types::CallNo;

/// Whether call n of a log makes a command of the device: it is accepted, and writes at least one byte of a buffer.
pub(crate) fn makes_command(log: &Log<'_>, plan: &Plan, n: CallNo) -> bool
    requires first { 1 ≤ n }
    requires last { n ≤ length log.now.frames }
    requires plan { IsPlanned log.now.frames plan.now }
    ensures { result ≡ makes_command (calls_of log.now.frames) n }
{
    match log.item(n) {
        None => false,
        Some(item) => match plan.verdict(n) {
            Verdict::Refused(_) => false,
            Verdict::Go => writes(&item.call()),
        },
    }
}

fn writes(call: &Call<'_>) -> bool
    ensures { result ≡ writes (call_view call.now) }
{
    match *call {
        Call::CopyRegion { length, .. } => length != 0,
        Call::Update { bytes, .. } => !bytes.is_empty(),
        Call::MapWrite { mode, bytes, .. } => mode == MAP_WRITE && !bytes.is_empty(),
        Call::Copy { .. } | Call::ClearUav { .. } => true,
        _ => false,
    }
}
