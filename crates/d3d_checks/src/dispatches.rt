ghost use Rattle.std.specs.Prelude.{◌≡◌, ◌≤◌, ◌<◌, ◌^◌};
ghost use Rattle.call_log.specs.Call as calls;
ghost use Rattle.d3d_checks.specs.Asked.{refusal_on};
ghost use Rattle.d3d_lists.specs.declared.recorder.TheConstants.{CONTEXTS};
ghost use Rattle.d3d_checks.specs.Dispatched.{allows, threads_of};
ghost use Rattle.d3d_model.specs.Past.{Past};
ghost use Rattle.d3d_model.specs.Verdict.{has_shader};
ghost use Rattle.d3d_state.specs.Meaning.{objects_of};
ghost use Rattle.shader_model.specs.Dispatch.{volume};
ghost use Rattle.dx_types.specs.declared.limits.TheConstants.{MAX_THREADS};

use crate::numbers::passes_end;
use d3d_model::codes::COUNT_BYTES;
use d3d_resources::has_bit;
use d3d_state::Objects;
use dx_types::Refusal;
use dx_types::limits::{INDIRECT_ARGUMENTS, MAX_GROUPS, MAX_INVOCATIONS};

/// Whether a shader is set on a context.
fn has_shader(objects: &Objects<'_>, context: u16) -> bool
    requires { context < CONTEXTS }
    ensures { result ≡ has_shader (objects_of objects.now) context }
{
    objects.bindings(context).shader() > 0
}

/// How many places there are below sizes.
fn volume(sizes: [u32; 3]) -> u64
    requires { volume sizes < 2 ^ 64 }
    ensures { result ≡ volume sizes }
{
    u64::from(sizes[0]) * u64::from(sizes[1]) * u64::from(sizes[2])
}

/// The threads of a group of the shader that is set, 0 where none is.
fn threads_on(objects: &Objects<'_>, context: u16) -> u64
    requires { context < CONTEXTS }
    ensures value { result ≡ threads_of (objects_of objects.now) context }
    ensures small { result ≤ MAX_THREADS }
{
    match objects.shader_on(context) {
        Some(shader) => {
            // What a shader keeps of the size of its group is learnt with its nodes.
            let _nodes = shader.body();
            volume(shader.group())
        }
        None => 0,
    }
}

/// Whether a dispatch of so many groups may be so large.
fn is_allowed(groups: [u32; 3], threads: u64) -> bool
    requires { threads ≤ MAX_THREADS }
    ensures { result ≡ allows groups threads }
{
    if groups[0] > MAX_GROUPS || groups[1] > MAX_GROUPS || groups[2] > MAX_GROUPS {
        return false;
    }
    volume(groups) * threads <= MAX_INVOCATIONS
}

/// Why a dispatch is refused.
pub(crate) fn dispatch_refusal(
    objects: &Objects<'_>,
    context: u16,
    x: u32,
    y: u32,
    z: u32,
) -> Option<Refusal>
    requires { context < CONTEXTS }
    ensures { (past : Past) → result ≡ refusal_on (objects_of objects.now) past context (calls.Dispatch x y z) }
{
    if !has_shader(objects, context) {
        Some(Refusal::BadShader)
    } else if !is_allowed([x, y, z], threads_on(objects, context)) {
        Some(Refusal::TooManyGroups)
    } else {
        None
    }
}

/// Why a dispatch is refused whose counts stand in a buffer. The counts are not asked: they are read as it runs.
pub(crate) fn indirect_refusal(
    objects: &Objects<'_>,
    context: u16,
    res: u32,
    offset: u32,
) -> Option<Refusal>
    requires { context < CONTEXTS }
    ensures { (past : Past) → result ≡ refusal_on (objects_of objects.now) past context (calls.DispatchIndirect res offset) }
{
    let Some(shape) = objects.buffer(res) else {
        return Some(Refusal::UnknownId);
    };
    if !has_bit(shape.misc, INDIRECT_ARGUMENTS) {
        Some(Refusal::BadBind)
    } else if offset % 4 != 0 || passes_end(&shape, offset, COUNT_BYTES) {
        Some(Refusal::OutOfRange)
    } else if !has_shader(objects, context) {
        Some(Refusal::BadShader)
    } else {
        None
    }
}
