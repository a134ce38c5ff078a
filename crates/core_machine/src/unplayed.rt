ghost use Rattle.std.specs.Prelude.{◌≡◌, ◌||◌};
ghost use Rattle.call_log.specs.View.{call_view, frame_view};
ghost use Rattle.d3d_checks.specs.Accepted.{is_recorded};
ghost use Rattle.core_machine.specs.Unplayed.{FirstUnplayed, is_left_out, is_unplayed_record};

use call_log::{Call, Item, Log};
use d3d_model::codes::{DO_NOT_WAIT, DYNAMIC_USAGE, WORD_PREDICATE};
use dx_types::CallNo;
use dx_types::limits::DEFERRED_CONTEXTS;

/// The first call that the machine does not play yet, if there is one: it creates a shader, a query or a dynamic buffer,
/// sets a word of a buffer as predicate, reads back without waiting, or stands on a deferred context.
pub fn first_unbuilt(log: &Log<'_>) -> Option<CallNo>
    ensures { FirstUnplayed log.now.frames result }
{
    'calls: for i in 0..log.count() {
        let Some(item) = log.item(i + 1) else {
            return None;
        };
        if is_unplayed(&item) {
            return Some(i + 1);
        }
    }
    None
}

fn is_unplayed(item: &Item<'_>) -> bool
    ensures { result ≡ is_unplayed_record (frame_view item.now) }
{
    let call = item.call();
    is_left_out(&call) || is_recorded(item.context, &call)
}

fn is_left_out(call: &Call<'_>) -> bool
    ensures { result ≡ is_left_out (call_view call.now) }
{
    match *call {
        Call::CreateShader { .. } | Call::Query { .. } => true,
        Call::Buffer { usage, .. } => usage == DYNAMIC_USAGE,
        Call::SetPredication { kind, .. } => kind == WORD_PREDICATE,
        Call::MapRead { flag, .. } => flag == DO_NOT_WAIT,
        _ => false,
    }
}

/// Whether a deferred context would record the call.
fn is_recorded(context: u16, call: &Call<'_>) -> bool
    ensures { result ≡ is_recorded (record { context = context; call = call_view call.now }) }
{
    match call {
        Call::Buffer { .. }
        | Call::View { .. }
        | Call::CreateShader { .. }
        | Call::Query { .. }
        | Call::Destroy { .. }
        | Call::MapRead { .. }
        | Call::GetData { .. }
        | Call::Flush
        | Call::ExecuteList { .. } => false,
        _ => 1 <= context && context <= DEFERRED_CONTEXTS,
    }
}
