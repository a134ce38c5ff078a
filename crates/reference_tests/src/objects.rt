//! What the calls of a log make live and set, with no checks but those that the objects' own functions ask for.

use call_log::Call;
use d3d_state::{LiveShader, Objects, Query, Setting, Sort};
use d3d_views::Predicate;
use dx_types::{CallNo, Form, Shape, Usage, ViewShape};
use std::alloc::{AllocError, Global};

/// The objects after call n, of those that the logs here have.
pub(crate) fn set(
    alloc: Global,
    objects: &mut Objects<'_>,
    n: CallNo,
    call: &Call<'_>,
) -> Result<(), AllocError> {
    match call {
        Call::Buffer {
            id,
            size,
            usage,
            bind,
            misc,
            stride,
            ..
        } => {
            let shape = Shape {
                size: u64::from(*size),
                usage: usage_of(*usage),
                bind: *bind,
                misc: *misc,
                stride: *stride,
            };
            create_buffer(objects, *id, shape)
        }
        Call::View {
            view,
            res,
            form,
            ..
        } => create_view(objects, *view, *res, *form),
        Call::CreateShader { id, words } => create_shader(alloc, objects, n, *id, words),
        Call::Query { id, sort } => objects.create_query(*id, Query::new(sort_of(*sort))),
        _ => {
            set_on_context(objects, n, call);
            Ok(())
        }
    }
}

fn usage_of(number: u32) -> Usage {
    match number {
        0 => Usage::Default,
        1 => Usage::Immutable,
        2 => Usage::Dynamic,
        _ => Usage::Staging,
    }
}

fn sort_of(number: u32) -> Sort {
    match number {
        0 => Sort::Event,
        1 => Sort::Occlusion,
        2 => Sort::PipelineStatistics,
        _ => Sort::OcclusionPredicate,
    }
}

fn create_buffer(objects: &mut Objects<'_>, id: u32, shape: Shape) -> Result<(), AllocError> {
    if objects.buffer_refusal(id, &shape).is_none() {
        objects.create_buffer(id, shape)?;
    }
    Ok(())
}

// A view of the first word of a buffer, raw or typed.
fn create_view(objects: &mut Objects<'_>, id: u32, res: u32, form: u32) -> Result<(), AllocError> {
    if objects.view(id).is_none() {
        let shape = ViewShape {
            res,
            writable: true,
            form: if form == 0 { Form::Raw } else { Form::Typed },
            unit: 4,
            first: 0,
            count: 1,
        };
        objects.create_view(id, shape)?;
    }
    Ok(())
}

fn create_shader(
    alloc: Global,
    objects: &mut Objects<'_>,
    n: CallNo,
    id: u32,
    words: &[u8],
) -> Result<(), AllocError> {
    if let Some(shader) = LiveShader::decode(alloc, n, words)? {
        objects.create_shader(id, shader)?;
    }
    Ok(())
}

fn set_on_context(objects: &mut Objects<'_>, n: CallNo, call: &Call<'_>) {
    match call {
        Call::SetPredication {
            kind,
            id,
            offset,
            value,
        } => set_predicate(objects, *kind, *id, *offset, *value),
        Call::Begin { query } => objects.begin(*query),
        Call::EndQuery { query } => objects.end(*query, n),
        Call::SetShader { id } => objects.set(0, Setting::Shader(*id)),
        _ => set_slot(objects, call),
    }
}

fn set_predicate(objects: &mut Objects<'_>, kind: u32, id: u32, offset: u32, value: u32) {
    let predicate = match kind {
        0 => Predicate::Never,
        1 => Predicate::Query { id, value },
        _ => Predicate::Word {
            res: id,
            offset: u64::from(offset),
            value,
        },
    };
    objects.set(0, Setting::Predicate(predicate));
}

fn set_slot(objects: &mut Objects<'_>, call: &Call<'_>) {
    match call {
        Call::SetConstant { slot, res } if *slot < 14 => {
            let (slot, res) = (*slot, *res);
            objects.set(0, Setting::Constant { slot, res });
        }
        Call::SetSrv { slot, view } if *slot < 16 => {
            let view = objects.bound_view(*view);
            objects.set(0, Setting::Srv { slot: *slot, view });
        }
        Call::SetUav { slot, view } if *slot < 8 => {
            let view = objects.bound_view(*view);
            objects.set(0, Setting::Uav { slot: *slot, view });
        }
        _ => (),
    }
}
