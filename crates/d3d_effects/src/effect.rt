ghost use Rattle.std.specs.Prelude.{◌≡◌, ◌<◌, None, IfSome, IsSome, OnErr, OnOk};
ghost use Rattle.base_lemmas.specs.IdMap as ids;
ghost use Rattle.call_log.specs.View.{call_view};
ghost use Rattle.d3d_checks.specs.Accepted.{Accepted};
ghost use Rattle.d3d_checks.specs.Created.{shader_made};
ghost use Rattle.d3d_checks.specs.NewViews.{view_call};
ghost use Rattle.d3d_effects.specs.Played.{SlotFits};
ghost use Rattle.d3d_lists.specs.declared.recorder.TheConstants.{CONTEXTS};
ghost use Rattle.call_log.specs.Call as calls;
ghost use Rattle.d3d_model.specs.Effect.{destroyed, finished, immediate_effect, list_of, made_by, objects_after, recorded_on};
ghost use Rattle.d3d_state.specs.Meaning.{objects_of, with_shader};
ghost use Rattle.d3d_state.specs.Sorts.{sort_from};

use crate::played::{execute, play, set_on};
use call_log::{Call, Place};
use d3d_checks::{NewView, described, place_of, shape_from};
use d3d_model::ObjectClass;
use d3d_model::codes::{EVENT_QUERY, OCCLUSION_QUERY, STATISTICS_QUERY};
use d3d_state::{LiveShader, Objects, Query, Sort};
use dx_types::CallNo;
use std::alloc::AllocError;

/// Does to the objects what call n does, accepted on a context. `shader` is the shader that it creates, if it creates one. Want
/// of memory changes nothing.
pub fn apply<'a>(
    objects: &mut Objects<'a>,
    n: CallNo,
    context: u16,
    call: &Call<'a>,
    shader: Option<LiveShader>,
) -> Result<(), AllocError>
    requires accepted { Accepted (objects_of objects.old) context (call_view call.now) }
    requires shader { shader ≡ shader_made n (call_view call.now) }
    ensures applied { OnOk result (objects_of objects.new
        ≡ objects_after n (objects_of objects.old) context (call_view call.now)) }
    ensures unchanged { OnErr result (objects_of objects.new ≡ objects_of objects.old) }
{
    match place_of(call) {
        Place::OnDevice => make(objects, n, call, shader),
        Place::OnImmediate => {
            execute_if_list(objects, n, call);
            Ok(())
        }
        Place::OnEach => {
            if context == 0 {
                play(objects, n, call);
                Ok(())
            } else {
                record(objects, n, context, call)
            }
        }
        Place::OnDeferred => finish(objects, context, call),
    }
}

/// Does what a call of the device does.
fn make(
    objects: &mut Objects<'_>,
    n: CallNo,
    call: &Call<'_>,
    shader: Option<LiveShader>,
) -> Result<(), AllocError>
    requires accepted { Accepted (objects_of objects.old) 0 (call_view call.now) }
    requires shader { shader ≡ shader_made n (call_view call.now) }
    ensures applied { OnOk result (objects_of objects.new ≡ made_by n (objects_of objects.old) (call_view call.now)) }
    ensures unchanged { OnErr result (objects_of objects.new ≡ objects_of objects.old) }
{
    match *call {
        Call::Buffer {
            id,
            size,
            usage,
            bind,
            misc,
            stride,
            ..
        } => {
            let shape = shape_from(size, usage, bind, misc, stride);
            objects.create_buffer(id, shape)
        }
        Call::View {
            view,
            res,
            kind,
            form,
            components,
            first,
            count,
        } => {
            let ask = NewView {
                view,
                res,
                kind,
                form,
                components,
                first,
                count,
            };
            create_view(objects, &ask)
        }
        Call::CreateShader { id, .. } => create_shader(objects, id, shader),
        Call::Query { id, sort } => objects.create_query(id, Query::new(sort_from(sort))),
        Call::Destroy { class, id } => {
            destroy(objects, class, id);
            Ok(())
        }
        _ => Ok(()),
    }
}

/// Creates the view that is asked for.
fn create_view(objects: &mut Objects<'_>, ask: &NewView) -> Result<(), AllocError>
    requires { Accepted (objects_of objects.old) 0 (view_call ask.now) }
    ensures applied { OnOk result (objects_of objects.new ≡ made_by 0 (objects_of objects.old) (view_call ask.now)) }
    ensures unchanged { OnErr result (objects_of objects.new ≡ objects_of objects.old) }
{
    match objects.buffer(ask.res) {
        Some(shape) => objects.create_view(ask.view, described(&shape, ask)),
        None => unreachable!(),
    }
}

/// Creates a shader, which there is where its creation is accepted.
fn create_shader(
    objects: &mut Objects<'_>,
    id: u32,
    shader: Option<LiveShader>,
) -> Result<(), AllocError>
    requires { IsSome shader }
    ensures applied { OnOk result (IfSome shader (λ s. objects_of objects.new ≡ with_shader (objects_of objects.old) id s)) }
    ensures unchanged { OnErr result (objects_of objects.new ≡ objects_of objects.old) }
{
    match shader {
        Some(shader) => objects.create_shader(id, shader),
        None => unreachable!(),
    }
}

/// Destroys a live object.
fn destroy(objects: &mut Objects<'_>, class: u32, id: u32)
    requires { Accepted (objects_of objects.old) 0 (calls.Destroy class id) }
    ensures { objects_of objects.new ≡ destroyed (objects_of objects.old) class id }
{
    let Some(class) = ObjectClass::from_number(class) else {
        unreachable!()
    };
    match class {
        ObjectClass::Buffer => objects.destroy_buffer(id),
        ObjectClass::View => objects.destroy_view(id),
        ObjectClass::Shader => objects.destroy_shader(id),
        ObjectClass::Query => objects.destroy_query(id),
        ObjectClass::List => objects.destroy_list(id),
    }
}

/// Does what a call of the immediate context alone does: an ExecuteList plays its list.
fn execute_if_list(objects: &mut Objects<'_>, n: CallNo, call: &Call<'_>)
    ensures { objects_of objects.new ≡ immediate_effect n (objects_of objects.old) (call_view call.now) }
{
    match *call {
        Call::ExecuteList { list, flag } => execute(objects, n, list, flag),
        _ => {}
    }
}

/// Records call n in the open list of a context, and sets there what it sets. Want of memory changes nothing.
fn record<'a>(
    objects: &mut Objects<'a>,
    n: CallNo,
    context: u16,
    call: &Call<'a>,
) -> Result<(), AllocError>
    requires context { context < CONTEXTS }
    requires fits { SlotFits (call_view call.now) }
    ensures applied { OnOk result (objects_of objects.new
        ≡ recorded_on n (objects_of objects.old) context (call_view call.now)) }
    ensures unchanged { OnErr result (objects_of objects.new ≡ objects_of objects.old) }
{
    objects.record(context, n, *call)?;
    set_on(objects, context, call);
    Ok(())
}

/// The list that a call finishes.
fn list_of(call: &Call<'_>) -> u32
    ensures { result ≡ list_of (call_view call.now) }
{
    match *call {
        Call::FinishList { list } => list,
        _ => 0,
    }
}

/// Finishes the open list of a context. Want of memory changes nothing.
fn finish(objects: &mut Objects<'_>, context: u16, call: &Call<'_>) -> Result<(), AllocError>
    requires context { context < CONTEXTS }
    requires free { ids.get (objects_of objects.old).lists (list_of (call_view call.now)) ≡ None }
    ensures applied { OnOk result (objects_of objects.new
        ≡ finished (objects_of objects.old) context (list_of (call_view call.now))) }
    ensures unchanged { OnErr result (objects_of objects.new ≡ objects_of objects.old) }
{
    objects.finish_list(context, list_of(call))
}

/// The sort of query of a number from 0 to 3.
fn sort_from(number: u32) -> Sort
    ensures { result ≡ sort_from number }
{
    match number {
        EVENT_QUERY => Sort::Event,
        OCCLUSION_QUERY => Sort::Occlusion,
        STATISTICS_QUERY => Sort::PipelineStatistics,
        _ => Sort::OcclusionPredicate,
    }
}
