// What is live, and what of it is in use: buffers and their views.

mod queries;
mod shaders;

use crate::live::{add_buffer, add_view, four_words, set_constant, set_srv, set_uav};
use crate::same::same;
use d3d_state::{Objects, Setting};
use dx_types::{Shape, Usage, ViewShape};
use std::process::Abort;
use std::test::Fail;

const BUFFER: Shape = Shape {
    size: 64,
    usage: Usage::Default,
    bind: 6,
    misc: 1,
    stride: 0,
};

// What is done with buffers and views, or asked of them with the answer. What is added says whether its id went. A view is
// given by its id, its buffer, and whether it is for writes.
enum Step {
    AddBuffer(u32, bool),
    AddView(u32, u32, bool, bool),
    SetConstant(u32, u32),
    SetSrv(u32, u32),
    SetUav(u32, u32),
    ClearState,
    DestroyBuffer(u32),
    DestroyView(u32),
    Buffer(u32, Option<Shape>),
    View(u32, Option<(u32, bool)>),
    BoundView(u32, bool),
    UsesBuffer(u32, bool),
    UsesView(u32, bool),
}

struct Row {
    shows: &'static str,
    steps: &'static [Step],
}

static BUFFERS_AND_VIEWS: [Row; 9] = [
    Row {
        shows: "buffers",
        steps: &[
            Step::Buffer(1, None),
            Step::AddBuffer(1, true),
            Step::AddBuffer(2, true),
            Step::AddBuffer(3, true),
            Step::AddBuffer(2, false),
            Step::Buffer(2, Some(BUFFER)),
            Step::UsesBuffer(1, false),
        ],
    },
    Row {
        shows: "views",
        steps: &[
            Step::AddView(7, 1, false, true),
            Step::AddView(8, 1, true, true),
            Step::AddView(9, 2, false, true),
            Step::AddView(8, 3, true, false),
            Step::View(8, Some((1, true))),
        ],
    },
    Row {
        shows: "a buffer is in use by its views",
        steps: &[
            Step::UsesBuffer(1, true),
            Step::UsesBuffer(2, true),
            Step::UsesBuffer(3, false),
        ],
    },
    Row {
        shows: "a view is in use where it is set",
        steps: &[
            Step::SetSrv(0, 7),
            Step::UsesView(7, true),
            Step::SetUav(3, 8),
            Step::UsesView(7, false),
            Step::UsesView(8, true),
        ],
    },
    Row {
        shows: "one of two views is destroyed",
        steps: &[
            Step::DestroyView(7),
            Step::View(7, None),
            Step::BoundView(7, false),
            Step::UsesBuffer(1, true),
        ],
    },
    Row {
        shows: "nothing is set any more",
        steps: &[Step::ClearState, Step::UsesView(8, false)],
    },
    Row {
        shows: "the other view is destroyed",
        steps: &[Step::DestroyView(8), Step::UsesBuffer(1, false)],
    },
    Row {
        shows: "a buffer is in use where it is set",
        steps: &[Step::SetConstant(13, 1), Step::UsesBuffer(1, true)],
    },
    Row {
        shows: "a buffer is destroyed",
        steps: &[
            Step::SetConstant(13, 0),
            Step::DestroyBuffer(1),
            Step::Buffer(1, None),
            Step::UsesBuffer(2, true),
        ],
    },
];

fn take(rt: &impl Abort, objects: &mut Objects<'_>, shows: &str, step: &Step) -> Result<(), Fail> {
    match step {
        Step::AddBuffer(id, goes) => same(rt, &add_buffer(objects, *id, BUFFER)?, goes, shows),
        Step::AddView(id, res, writable, goes) => {
            same(rt, &add_view(objects, *id, *res, *writable)?, goes, shows);
        }
        Step::SetConstant(slot, res) => set_constant(objects, *slot, *res)?,
        Step::SetSrv(slot, view) => set_srv(objects, *slot, *view)?,
        Step::SetUav(slot, view) => set_uav(objects, *slot, *view)?,
        Step::ClearState => objects.set(0, Setting::Default),
        Step::DestroyBuffer(id) => objects.destroy_buffer(*id),
        Step::DestroyView(id) => objects.destroy_view(*id),
        Step::Buffer(id, want) => same(rt, &objects.buffer(*id), want, shows),
        Step::View(id, want) => same(rt, &objects.view(*id), &wanted(want), shows),
        Step::BoundView(id, want) => same(rt, &objects.bound_view(*id).is_some(), want, shows),
        Step::UsesBuffer(id, want) => same(rt, &objects.uses_buffer(*id), want, shows),
        Step::UsesView(id, want) => same(rt, &objects.uses_view(*id), want, shows),
    }
    Ok(())
}

fn wanted(view: &Option<(u32, bool)>) -> Option<ViewShape> {
    match view {
        Some((res, writable)) => Some(four_words(*res, *writable)),
        None => None,
    }
}

// A buffer is in use by each of its views, and by what is set.
#[test]
fn buffers_and_views(rt: HostRuntime) -> Result<(), Fail> {
    let mut objects = Objects::new(rt.alloc())?;
    for row in &BUFFERS_AND_VIEWS {
        for step in row.steps {
            take(&rt, &mut objects, row.shows, step)?;
        }
    }
    Ok(())
}
