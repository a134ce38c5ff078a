// Shaders that are live, and which of them are in use.
use crate::live::add_shader;
use crate::same::same;
use d3d_state::{LiveShader, Objects, Setting};
use dx_types::CallNo;
use std::alloc::Global;
use std::process::Abort;
use std::test::Fail;

// What is done with shaders, or asked of them with the answer: which call created one, the size of a group of the one that
// is set, and how many temporaries one has.
enum Step {
    Create(u32, CallNo, &'static [u8]),
    Set(u32),
    ClearState,
    Destroy(u32),
    Call(u32, Option<CallNo>),
    Group(Option<[u32; 3]>),
    Temps(u32, u32),
    IsUsed(u32, bool),
}

struct Row {
    shows: &'static str,
    steps: &'static [Step],
}

static SHADERS: [Row; 7] = [
    Row {
        shows: "nothing is live, and nothing is set",
        steps: &[Step::Call(3, None)],
    },
    Row {
        shows: "a shader of one thread that does nothing",
        steps: &[
            Step::Create(
                3,
                7,
                &[
                    1, 0, 0, 0, 6, 0, 0, 0, 1, 4, 0, 0, 1, 0, 0, 0, 1, 0, 0, 0, 1, 0, 0, 0,
                ],
            ),
            Step::Call(3, Some(7)),
            Step::IsUsed(3, false),
        ],
    },
    Row {
        shows: "one that also declares that it has no temporaries",
        steps: &[
            Step::Create(
                4,
                9,
                &[
                    1, 0, 0, 0, 8, 0, 0, 0, 1, 4, 0, 0, 2, 0, 0, 0, 3, 0, 0, 0, 4, 0, 0, 0, 2, 2,
                    0, 0, 0, 0, 0, 0,
                ],
            ),
            Step::Call(4, Some(9)),
            Step::IsUsed(4, false),
            Step::Group(None),
        ],
    },
    Row {
        shows: "the first is set",
        steps: &[
            Step::Set(3),
            Step::Group(Some([1, 1, 1])),
            Step::IsUsed(3, true),
            Step::IsUsed(4, false),
        ],
    },
    Row {
        shows: "the second is set",
        steps: &[
            Step::Set(4),
            Step::Group(Some([2, 3, 4])),
            Step::IsUsed(4, true),
            Step::IsUsed(3, false),
        ],
    },
    Row {
        shows: "the first is destroyed",
        steps: &[Step::Destroy(3), Step::Call(3, None), Step::Temps(4, 0)],
    },
    Row {
        shows: "nothing is set any more",
        steps: &[Step::ClearState, Step::Group(None)],
    },
];

fn creator(objects: &Objects<'_>, id: u32) -> Option<CallNo> {
    match objects.shader(id) {
        Some(shader) => Some(shader.call()),
        None => None,
    }
}

fn group_now(objects: &Objects<'_>) -> Option<[u32; 3]> {
    match objects.shader_on(0) {
        Some(shader) => Some(shader.group()),
        None => None,
    }
}

fn temps(objects: &Objects<'_>, id: u32) -> Result<u32, Fail> {
    Ok(objects.shader(id).ok_or("live")?.tree().temps())
}

fn take(
    rt: &impl Abort,
    alloc: Global,
    objects: &mut Objects<'_>,
    shows: &str,
    step: &Step,
) -> Result<(), Fail> {
    match step {
        Step::Create(id, call, words) => add_shader(alloc, objects, *id, *call, words)?,
        Step::Set(id) => objects.set(0, Setting::Shader(*id)),
        Step::ClearState => objects.set(0, Setting::Default),
        Step::Destroy(id) => objects.destroy_shader(*id),
        Step::Call(id, want) => same(rt, &creator(objects, *id), want, shows),
        Step::Group(want) => same(rt, &group_now(objects), want, shows),
        Step::Temps(id, want) => same(rt, &temps(objects, *id)?, want, shows),
        Step::IsUsed(id, want) => same(rt, &objects.uses_shader(*id), want, shows),
    }
    Ok(())
}

// A shader is in use where it is set, and its tree is what its bytes spell.
#[test]
fn shaders(rt: HostRuntime) -> Result<(), Fail> {
    let bad = LiveShader::decode(rt.alloc(), 1, &[1, 0, 0, 0])?;
    same(&rt, &bad.is_none(), &true, "a bad word");
    let mut objects = Objects::new(rt.alloc())?;
    for row in &SHADERS {
        for step in row.steps {
            take(&rt, rt.alloc(), &mut objects, row.shows, step)?;
        }
    }
    Ok(())
}
