ghost use Rattle.std.specs.Prelude.{◌≡◌};
ghost use Rattle.call_log.specs.Call as calls;
ghost use Rattle.std.specs.Prelude.{◌<◌};
ghost use Rattle.d3d_checks.specs.Asked.{refusal_of, refusal_on};
ghost use Rattle.d3d_lists.specs.declared.recorder.TheConstants.{CONTEXTS};
ghost use Rattle.d3d_model.specs.Verdict.{is_begun_on};
ghost use Rattle.d3d_model.specs.Past.{Past};
ghost use Rattle.d3d_state.specs.Meaning.{objects_of};

use d3d_model::codes::DO_NOT_WAIT;
use d3d_resources::is_id;
use d3d_state::{Objects, Sort};
use dx_types::Refusal;

/// Why a query is not created.
pub(crate) fn create_query_refusal(objects: &Objects<'_>, id: u32, sort: u32) -> Option<Refusal>
    ensures { (past : Past) → result ≡ refusal_of (objects_of objects.now) past (calls.Query id sort) }
{
    if !is_id(id) {
        Some(Refusal::OutOfRange)
    } else if objects.query(id).is_some() {
        Some(Refusal::IdInUse)
    } else if Sort::from_number(sort).is_none() {
        Some(Refusal::BadUsage)
    } else {
        None
    }
}

/// Whether a query is begun on a context: on a deferred one, in its open list.
fn is_begun_on(objects: &Objects<'_>, context: u16, id: u32) -> bool
    requires { context < CONTEXTS }
    ensures { result ≡ is_begun_on (objects_of objects.now) context id }
{
    if context == 0 {
        objects.is_begun(id)
    } else {
        objects.is_begun_in_list(context, id)
    }
}

/// Why a query does not begin.
pub(crate) fn begin_refusal(objects: &Objects<'_>, context: u16, id: u32) -> Option<Refusal>
    requires { context < CONTEXTS }
    ensures { (past : Past) → result ≡ refusal_on (objects_of objects.now) past context (calls.Begin id) }
{
    let Some(query) = objects.query(id) else {
        return Some(Refusal::UnknownId);
    };
    if query.is_event() || is_begun_on(objects, context, id) {
        Some(Refusal::QueryState)
    } else {
        None
    }
}

/// Why a query does not end.
pub(crate) fn end_refusal(objects: &Objects<'_>, context: u16, id: u32) -> Option<Refusal>
    requires { context < CONTEXTS }
    ensures { (past : Past) → result ≡ refusal_on (objects_of objects.now) past context (calls.EndQuery id) }
{
    let Some(query) = objects.query(id) else {
        return Some(Refusal::UnknownId);
    };
    if !query.is_event() && !is_begun_on(objects, context, id) {
        Some(Refusal::QueryState)
    } else {
        None
    }
}

/// Why a query's result may not be asked for.
pub(crate) fn get_data_refusal(objects: &Objects<'_>, id: u32, flag: u32) -> Option<Refusal>
    ensures { (past : Past) → result ≡ refusal_of (objects_of objects.now) past (calls.GetData id flag) }
{
    let Some(query) = objects.query(id) else {
        return Some(Refusal::UnknownId);
    };
    if flag > DO_NOT_WAIT {
        Some(Refusal::BadUsage)
    } else if !query.has_result() {
        Some(Refusal::QueryState)
    } else {
        None
    }
}
