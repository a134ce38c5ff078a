ghost use Rattle.std.specs.Prelude.{◌≡◌, ◌<◌, false};
ghost use Rattle.call_log.specs.View.{call_view};
ghost use Rattle.d3d_checks.specs.Accepted.{Tells, is_making, is_setting};
ghost use Rattle.d3d_checks.specs.Asked.{asked_past, refusal_on};
ghost use Rattle.d3d_checks.specs.Created.{spells_shader};
ghost use Rattle.d3d_lists.specs.declared.recorder.TheConstants.{CONTEXTS};
ghost use Rattle.d3d_model.specs.Past.{Past};
ghost use Rattle.d3d_model.specs.Verdict as model;
ghost use Rattle.d3d_model.specs.Verdict.{is_wrong_at, place_of};
ghost use Rattle.d3d_state.specs.Meaning.{objects_of};

use crate::dispatches::{dispatch_refusal, indirect_refusal};
use crate::lists::{execute_refusal, finish_refusal};
use crate::maps::{map_read_refusal, map_write_refusal};
use crate::new_view::NewView;
use crate::numbers::shape_from;
use crate::places::{is_too_long, is_wrong_at, place_of};
use crate::queries::{begin_refusal, create_query_refusal, end_refusal, get_data_refusal};
use crate::resources::{buffer_refusal, destroy_refusal, view_refusal};
use crate::settings::{constant_refusal, predication_refusal, srv_refusal, uav_refusal};
use crate::shaders::{creation_refusal, shader_refusal};
use crate::work::{clear_refusal, copy_refusal, copy_region_refusal, update_refusal};
use call_log::Call;
use d3d_state::Objects;
use d3d_uses::Uses;
use dx_types::Refusal;

/// Why a call on a context is refused, if it is. `uses` is what is kept of the past that the context asks: of the immediate
/// one that of all calls so far, of a deferred one that of its open list. `spells` says whether the call creates a shader whose
/// token words spell one.
pub fn verdict(
    objects: &Objects<'_>,
    uses: &Uses,
    context: u16,
    call: &Call<'_>,
    spells: bool,
) -> Option<Refusal>
    requires { spells ≡ spells_shader (call_view call.now) }
    ensures { (past : Past)
        → (is_wrong_at (place_of (call_view call.now)) context ≡ false
        → Tells (asked_past past (objects_of objects.now) context) (objects_of objects.now) uses.now)
        → result ≡ model.verdict (objects_of objects.now) past (record { context = context; call = call_view call.now }) }
{
    let place = place_of(call);
    if is_wrong_at(place, context) {
        return Some(Refusal::WrongContext);
    }
    if let Some(why) = call_refusal(objects, uses, context, call, spells) {
        return Some(why);
    }
    if is_too_long(objects, context, place) {
        Some(Refusal::TooMuchMemory)
    } else {
        None
    }
}

/// Why a call is refused on a context on which it may stand, by its own checks.
fn call_refusal(
    objects: &Objects<'_>,
    uses: &Uses,
    context: u16,
    call: &Call<'_>,
    spells: bool,
) -> Option<Refusal>
    requires context { context < CONTEXTS }
    requires spells { spells ≡ spells_shader (call_view call.now) }
    ensures { (past : Past) → Tells (asked_past past (objects_of objects.now) context) (objects_of objects.now) uses.now
        → result ≡ refusal_on (objects_of objects.now) past context (call_view call.now) }
{
    match *call {
        Call::Buffer {
            id,
            size,
            usage,
            bind,
            misc,
            stride,
            bytes,
        } => {
            let shape = shape_from(size, usage, bind, misc, stride);
            buffer_refusal(objects, id, usage, &shape, bytes)
        }
        Call::View {
            view,
            res,
            kind,
            form,
            components,
            first,
            count,
        } => {
            let ask = NewView {
                view,
                res,
                kind,
                form,
                components,
                first,
                count,
            };
            view_refusal(objects, &ask)
        }
        Call::CreateShader { id, .. } => creation_refusal(objects, id, spells),
        Call::Destroy { class, id } => destroy_refusal(objects, class, id),
        _ => setting_refusal(objects, uses, context, call),
    }
}

/// Why a call is refused that sets something, or that is about a query.
fn setting_refusal(
    objects: &Objects<'_>,
    uses: &Uses,
    context: u16,
    call: &Call<'_>,
) -> Option<Refusal>
    requires context { context < CONTEXTS }
    requires makes_none { is_making (call_view call.now) ≡ false }
    ensures { (past : Past) → Tells (asked_past past (objects_of objects.now) context) (objects_of objects.now) uses.now
        → result ≡ refusal_on (objects_of objects.now) past context (call_view call.now) }
{
    match *call {
        Call::SetShader { id } => shader_refusal(objects, id),
        Call::SetConstant { slot, res } => constant_refusal(objects, slot, res),
        Call::SetSrv { slot, view } => srv_refusal(objects, slot, view),
        Call::SetUav { slot, view } => uav_refusal(objects, slot, view),
        Call::SetPredication {
            kind,
            id,
            offset,
            value,
        } => predication_refusal(objects, kind, id, offset, value),
        Call::Query { id, sort } => create_query_refusal(objects, id, sort),
        Call::Begin { query } => begin_refusal(objects, context, query),
        Call::EndQuery { query } => end_refusal(objects, context, query),
        Call::GetData { query, flag } => get_data_refusal(objects, query, flag),
        _ => work_refusal(objects, uses, context, call),
    }
}

/// Why a call is refused that reads or writes buffers, or that is about a command list.
fn work_refusal(
    objects: &Objects<'_>,
    uses: &Uses,
    context: u16,
    call: &Call<'_>,
) -> Option<Refusal>
    requires context { context < CONTEXTS }
    requires makes_none { is_making (call_view call.now) ≡ false }
    requires sets_none { is_setting (call_view call.now) ≡ false }
    ensures { (past : Past) → Tells (asked_past past (objects_of objects.now) context) (objects_of objects.now) uses.now
        → result ≡ refusal_on (objects_of objects.now) past context (call_view call.now) }
{
    match *call {
        Call::Dispatch { x, y, z } => dispatch_refusal(objects, context, x, y, z),
        Call::DispatchIndirect { res, offset } => indirect_refusal(objects, context, res, offset),
        Call::CopyRegion {
            target,
            target_offset,
            source,
            source_offset,
            length,
        } => copy_region_refusal(
            objects,
            target,
            target_offset,
            source,
            source_offset,
            length,
        ),
        Call::Copy { target, source } => copy_refusal(objects, target, source),
        Call::Update { res, offset, bytes } => update_refusal(objects, res, offset, bytes),
        Call::ClearUav { view, .. } => clear_refusal(objects, view),
        Call::MapWrite {
            res,
            mode,
            offset,
            bytes,
        } => map_write_refusal(objects, uses, context, res, mode, offset, bytes),
        Call::MapRead {
            res,
            flag,
            offset,
            length,
        } => map_read_refusal(objects, res, flag, offset, length),
        Call::FinishList { list } => finish_refusal(objects, context, list),
        Call::ExecuteList { list, flag } => execute_refusal(objects, list, flag),
        _ => None,
    }
}
