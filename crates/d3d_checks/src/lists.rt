ghost use Rattle.std.specs.Prelude.{◌≡◌, ◌<◌};
ghost use Rattle.std.specs.List.{list_any};
ghost use Rattle.call_log.specs.Call as calls;
ghost use Rattle.call_log.specs.View.{call_view};
ghost use Rattle.d3d_checks.specs.Asked.{refusal_of, refusal_of_calls, refusal_on};
ghost use Rattle.d3d_lists.specs.declared.recorder.TheConstants.{CONTEXTS};
ghost use Rattle.d3d_lists.specs.declared.numbered.Numbered.{Numbered as RecordedCall};
ghost use Rattle.d3d_lists.specs.Calls.{calls_in};
ghost use Rattle.d3d_model.specs.Check.{first_failed};
ghost use Rattle.d3d_model.specs.Past.{Past};
ghost use Rattle.d3d_model.specs.Stream.{begins, begun_in_list};
ghost use Rattle.d3d_model.specs.Verdict.{known_list, query_is};
ghost use Rattle.d3d_state.specs.Meaning.{objects_of};

use call_log::Call;
use d3d_lists::Numbered;
use d3d_model::codes::RESTORE_STATE;
use d3d_resources::is_id;
use d3d_state::Objects;
use dx_types::Refusal;

/// Why a list is not destroyed: a list is never in use.
pub(crate) fn known_refusal(objects: &Objects<'_>, list: u32) -> Option<Refusal>
    ensures { result ≡ first_failed (known_list (objects_of objects.now) list) }
{
    match objects.list(list) {
        Some(_) => None,
        None => Some(Refusal::UnknownList),
    }
}

/// Why a list is not executed.
pub(crate) fn execute_refusal(objects: &Objects<'_>, list: u32, flag: u32) -> Option<Refusal>
    ensures { (past : Past) → result ≡ refusal_of (objects_of objects.now) past (calls.ExecuteList list flag) }
{
    match objects.list(list) {
        Some(calls) => calls_refusal(objects, calls, flag),
        None => Some(Refusal::UnknownList),
    }
}

/// Why a live list of these calls is not executed.
fn calls_refusal(objects: &Objects<'_>, calls: &[Numbered<'_>], flag: u32) -> Option<Refusal>
    ensures { result ≡ refusal_of_calls (objects_of objects.now) (calls_in calls.now) flag }
{
    if flag > RESTORE_STATE {
        Some(Refusal::BadUsage)
    } else if begin_begun(objects, calls) {
        Some(Refusal::QueryState)
    } else {
        None
    }
}

/// Whether a call begins a query that is begun on the immediate context.
fn begins_begun(objects: &Objects<'_>, call: &Call<'_>) -> bool
    ensures { result ≡ list_any (λ q. query_is (objects_of objects.now) q (λ s. s.begun)) (begins (call_view call.now)) }
{
    match *call {
        Call::Begin { query } => objects.is_begun(query),
        _ => false,
    }
}

/// Whether a call of a list begins a query that is begun on the immediate context.
fn begin_begun(objects: &Objects<'_>, calls: &[Numbered<'_>]) -> bool
    ensures { result ≡ list_any (λ q. query_is (objects_of objects.now) q (λ s. s.begun)) (begun_in_list (calls_in calls.now)) }
{
    any_begins(objects, calls)
}

// The same, call by call.
fn any_begins(objects: &Objects<'_>, calls: &[Numbered<'_>]) -> bool
    ensures { let o = objects_of objects.now in
        result ≡ list_any (λ (c : RecordedCall). list_any (λ q. query_is o q (λ s. s.begun)) (begins (call_view c.call))) calls.now }
{
    calls.iter().any(|c| begins_begun(objects, &c.call))
}

/// Why the open list of a context is not finished under an id.
pub(crate) fn finish_refusal(objects: &Objects<'_>, context: u16, list: u32) -> Option<Refusal>
    requires { context < CONTEXTS }
    ensures { (past : Past) → result ≡ refusal_on (objects_of objects.now) past context (calls.FinishList list) }
{
    if !is_id(list) {
        Some(Refusal::OutOfRange)
    } else if objects.list(list).is_some() {
        Some(Refusal::IdInUse)
    } else if objects.leaves_begun(context) {
        Some(Refusal::QueryState)
    } else {
        None
    }
}
