ghost use Rattle.std.specs.Prelude.{◌≡◌, ◌++◌, false, map};
ghost use Rattle.std.specs.Option.{option_to_list};
ghost use Rattle.call_log.specs.View.{call_view};
ghost use Rattle.d3d_model.specs.Stream.{names};
ghost use Rattle.d3d_lists.specs.Names.{is_copy, name_view};

use call_log::Call;
use d3d_model::codes::QUERY_PREDICATE;

/// An object that a call names, by its id. No object has id 0.
#[derive(Clone, Copy, Debug, PartialEq, Eq)]
pub enum Name {
    Buffer(u32),
    View(u32),
    Shader(u32),
    Query(u32),
}

/// The objects that a call on a deferred context names: at most two, in order.
pub(crate) fn names_of(call: &Call<'_>) -> (Option<Name>, Option<Name>)
    ensures { map name_view (option_to_list result.0 ++ option_to_list result.1) ≡ names (call_view call.now) }
{
    match *call {
        Call::CopyRegion { target, source, .. } | Call::Copy { target, source } => {
            (Some(Name::Buffer(target)), Some(Name::Buffer(source)))
        }
        _ => (name_of(call), None),
    }
}

/// The object that a call on a deferred context names, if it is no copy of a buffer.
fn name_of(call: &Call<'_>) -> Option<Name>
    requires { is_copy (call_view call.now) ≡ false }
    ensures { map name_view (option_to_list result) ≡ names (call_view call.now) }
{
    match *call {
        Call::SetShader { id } => Some(Name::Shader(id)),
        Call::SetConstant { res, .. }
        | Call::DispatchIndirect { res, .. }
        | Call::Update { res, .. }
        | Call::MapWrite { res, .. } => Some(Name::Buffer(res)),
        Call::SetSrv { view, .. } | Call::SetUav { view, .. } | Call::ClearUav { view, .. } => {
            Some(Name::View(view))
        }
        Call::SetPredication { kind, id, .. } if kind == QUERY_PREDICATE => Some(Name::Query(id)),
        Call::SetPredication { id, .. } => Some(Name::Buffer(id)),
        Call::Begin { query } | Call::EndQuery { query } => Some(Name::Query(query)),
        _ => None,
    }
}
