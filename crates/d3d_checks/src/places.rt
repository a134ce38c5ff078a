ghost use Rattle.std.specs.Prelude.{◌≡◌, ◌<◌};
ghost use Rattle.call_log.specs.View.{call_view};
ghost use Rattle.d3d_lists.specs.declared.recorder.TheConstants.{CONTEXTS};
ghost use Rattle.d3d_model.specs.Verdict.{is_too_long, is_wrong_at, place_of};
ghost use Rattle.d3d_state.specs.Meaning.{objects_of};

use call_log::{Call, Place};
use d3d_state::Objects;
use dx_types::limits::{DEFERRED_CONTEXTS, MAX_LIST_CALLS};

/// On which contexts a call may stand.
pub fn place_of(call: &Call<'_>) -> Place
    ensures { result ≡ place_of (call_view call.now) }
{
    match call {
        Call::Buffer { .. }
        | Call::View { .. }
        | Call::CreateShader { .. }
        | Call::Query { .. }
        | Call::Destroy { .. } => Place::OnDevice,
        Call::MapRead { .. } | Call::GetData { .. } | Call::Flush | Call::ExecuteList { .. } => {
            Place::OnImmediate
        }
        Call::FinishList { .. } => Place::OnDeferred,
        _ => Place::OnEach,
    }
}

/// Whether a call of this place may not stand on a context.
pub(crate) fn is_wrong_at(place: Place, context: u16) -> bool
    ensures { result ≡ is_wrong_at place context }
{
    match place {
        Place::OnDevice | Place::OnImmediate => context != 0,
        Place::OnEach => context > DEFERRED_CONTEXTS,
        Place::OnDeferred => context == 0 || context > DEFERRED_CONTEXTS,
    }
}

/// Whether the open list of a context has no room for a call of this place.
pub(crate) fn is_too_long(objects: &Objects<'_>, context: u16, place: Place) -> bool
    requires { context < CONTEXTS }
    ensures { result ≡ is_too_long (objects_of objects.now) context place }
{
    match place {
        Place::OnEach => context != 0 && objects.recorded_count(context) >= MAX_LIST_CALLS,
        Place::OnDevice | Place::OnImmediate | Place::OnDeferred => false,
    }
}
