// Dispatches of shaders: by their trees, and by their modules.

ghost use Rattle.std.specs.Prelude.{◌≡◌, true};
ghost use Rattle.shader_model.specs.Dispatch.{is_allowed};

use crate::building::{bytes_of, part, shader_of};
use crate::shaders::Runs;
use shader_eval::{Frame, run_groups};
use shader_model::Shader;
use shader_slots::Slots;
use spirv_emit::emit;
use spirv_run::Machine;
use std::alloc::{AllocError, Global};
use std::process::Abort;
use std::test::Fail;

/// What runs a dispatch: the shader's tree, or its module.
#[derive(Clone, Copy)]
pub enum By {
    Tree,
    Module,
}

pub const BOTH: [By; 2] = [By::Tree, By::Module];

/// How many invocations ran, and the bytes of unordered access view 0 afterwards.
#[derive(Drop)]
struct Outcome {
    count: u64,
    bytes: Vec<u8>,
}

/// Whether a dispatch of a module may have so many groups of this size.
fn is_few(groups: [u32; 3], size: [u32; 3]) -> bool
    ensures { result ≡ true → is_allowed groups size ≡ true }
{
    let [x, y, z] = groups;
    let [a, b, c] = size;
    if x > 65_535 || y > 65_535 || z > 65_535 || a > 1024 || b > 1024 || c > 1024 {
        return false;
    }
    let count = x as u128 * y as u128 * z as u128;
    let threads = a as u128 * b as u128 * c as u128;
    count * threads <= 16_777_216
}

/// Runs a dispatch, and answers how many invocations ran. A module of a dispatch that is too large isn't run.
fn dispatch(
    alloc: Global,
    by: By,
    shader: &Shader,
    groups: [u32; 3],
    slots: &mut Slots<'_>,
) -> Result<u64, AllocError> {
    match by {
        By::Tree => {
            let mut frame = Frame::new(alloc, shader)?;
            Ok(run_groups(shader, groups, &mut frame, slots))
        }
        By::Module => {
            let module = emit(alloc, shader)?;
            let mut machine = Machine::new(alloc, &module)?;
            if !is_few(groups, machine.group()) {
                return Ok(0);
            }
            Ok(machine.dispatch(groups, slots))
        }
    }
}

/// Runs a dispatch over bytes in slot 0.
fn run_over(
    alloc: Global,
    by: By,
    shader: &Shader,
    groups: [u32; 3],
    [constants, reads, writes]: [&[u8]; 3],
) -> Result<Outcome, Fail> {
    if constants.len() % 4 != 0 || constants.len() > 65_536 {
        return Err("no constants".into());
    }
    if reads.len() % 4 != 0 || reads.len() > 65_536 {
        return Err("no resource".into());
    }
    let mut slots = Slots::new();
    slots.bind_constant(0, constants);
    slots.bind_read(0, reads);
    slots.bind_write(0, part(alloc, writes, 0, writes.len())?);
    let count = dispatch(alloc, by, shader, groups, &mut slots)?;
    let bytes = slots.take_write(0).ok_or("no view")?.into_bytes();
    Ok(Outcome { count, bytes })
}

/// Runs a dispatch of a shader over its words.
fn ran(alloc: Global, by: By, groups: [u32; 3], runs: &Runs<'_>) -> Result<Outcome, Fail> {
    let shader = shader_of(alloc, runs.items)?;
    let constants = bytes_of(alloc, runs.constants)?;
    let reads = bytes_of(alloc, runs.reads)?;
    let writes = bytes_of(alloc, runs.writes)?;
    run_over(alloc, by, &shader, groups, [&constants, &reads, &writes])
}

/// A dispatch leaves what it shall. It answers how many invocations ran.
pub fn leaves(
    rt: &impl Abort,
    alloc: Global,
    by: By,
    groups: [u32; 3],
    runs: &Runs<'_>,
) -> Result<u64, Fail> {
    let ran = ran(alloc, by, groups, runs)?;
    let left = bytes_of(alloc, runs.left)?;
    assert_eq!(rt; ran.bytes.as_slice(), left.as_slice(), "{}", runs.shows);
    Ok(ran.count)
}
