ghost use Rattle.std.specs.Prelude.{◌≡◌, ◌≤◌, ◌<◌, map, slice_index_or, slice_set, None, IfOk, OnErr, OnOk};
ghost use Rattle.shader_model.specs.Dispatch.{count_of, dispatched as run_by};
ghost use Rattle.shader_model.specs.Shader.{program_of};
ghost use Rattle.shader_slots.specs.Bound.{around_bound, words_bound};
ghost use Rattle.d3d_model.specs.Memory.{dispatched, slots_seen, stored, uavs_shown};
ghost use Rattle.d3d_state.specs.Meaning.{objects_of};
ghost use Rattle.d3d_memory.specs.Limits.{InLimits};
ghost use Rattle.d3d_memory.specs.Ran.{ran_by};
ghost use Rattle.d3d_memory.specs.Shown.{around_one, stored_one, uav_around};
ghost use Rattle.dx_types.specs.declared.limits.TheConstants.{MAX_INVOCATIONS};

use crate::Memory;
use crate::bind::{bind_constants, bind_reads, bind_writes};
use crate::shown::uav_shown;
use d3d_state::Objects;
use d3d_views::Bindings;
use dx_types::ResRange;
use dx_types::limits::UAV_SLOTS;
use shader_eval::{Frame, run_groups};
use shader_model::{Declared, Shader};
use shader_slots::{Slots, Whole};
use std::alloc::AllocError;

/// What a dispatch left: the parts that it could write, by slot, and how many invocations ran.
#[derive(Drop)]
struct Ran {
    parts: [Option<Whole>; UAV_SLOTS],
    count: u64,
}

/// Runs a shader on what the slots show, so many groups of it. The memory stays: the parts are copies.
fn run_shader(
    memory: &Memory,
    objects: &Objects<'_>,
    bindings: &Bindings,
    shader: &Shader,
    groups: [u32; 3],
) -> Result<Ran, AllocError>
    requires { InLimits memory.now }
    ensures words { let o = objects_of objects.now in IfOk result (λ ran.
        map words_bound ran.parts ≡ (run_by (program_of shader.now) groups (slots_seen o memory.now bindings.now shader.now.declared)).writes) }
    ensures around { IfOk result (λ ran. map around_bound ran.parts ≡ uav_around bindings.now shader.now.declared) }
    ensures count { IfOk result (λ ran. ran.count ≡ count_of (program_of shader.now) groups) }
    ensures limit { IfOk result (λ ran. ran.count ≤ MAX_INVOCATIONS) }
{
    let mut frame = Frame::new(memory.alloc(), shader)?;
    let mut slots = Slots::new();
    bind_constants(&mut slots, memory, objects, bindings, shader.declared());
    bind_reads(&mut slots, memory, bindings, shader.declared());
    bind_writes(&mut slots, memory, bindings, shader.declared())?;
    let count = run_groups(shader, groups, &mut frame, &mut slots);
    Ok(Ran {
        parts: slots.into_writes(),
        count,
    })
}

/// Takes the part of a slot out.
fn take_part(parts: &mut [Option<Whole>; UAV_SLOTS], slot: usize) -> Option<Whole>
    requires { slot < UAV_SLOTS }
    ensures part { result ≡ slice_index_or parts.old slot None }
    ensures rest { parts.new ≡ slice_set parts.old slot None }
{
    parts[slot].take()
}

/// A part over the bytes that its slot shows.
fn store_one(memory: &mut Memory, shown: Option<ResRange>, part: Option<Whole>)
    requires { around_bound part ≡ around_one shown }
    ensures { memory.new ≡ stored_one memory.old shown (words_bound part) }
{
    if let Some(range) = shown {
        if let Some(part) = part {
            let bytes = part.into_bytes();
            memory.write_at(range.res, range.from, &bytes);
        }
    }
}

/// The parts that a dispatch wrote, each over the bytes that its slot shows, by rising slot.
fn store(
    memory: &mut Memory,
    bindings: &Bindings,
    declared: &[Declared],
    mut parts: [Option<Whole>; UAV_SLOTS],
)
    requires { map around_bound parts ≡ uav_around bindings.now declared.now }
    ensures { memory.new ≡ stored memory.old (uavs_shown bindings.now declared.now) (map words_bound parts) }
{
    bindings.has_all_slots();
    'slots: for slot in 0..8 {
        let part = take_part(&mut parts, slot);
        store_one(memory, uav_shown(bindings, declared, slot), part);
    }
}

/// A dispatch of a shader where these bindings are set, of so many groups. Want of memory changes nothing.
pub(crate) fn dispatch_shader(
    memory: &mut Memory,
    objects: &Objects<'_>,
    bindings: &Bindings,
    shader: &Shader,
    groups: [u32; 3],
) -> Result<(), AllocError>
    requires { InLimits memory.old }
    ensures ok { OnOk result (memory.new ≡ ran_by (program_of shader.now) (objects_of objects.now) bindings.now groups memory.old) }
    ensures err { OnErr result (memory.new ≡ memory.old) }
{
    let ran = run_shader(memory, objects, bindings, shader, groups)?;
    store(memory, bindings, shader.declared(), ran.parts);
    memory.count_ran(ran.count);
    Ok(())
}

/// A dispatch of the shader that is set, of so many groups; where none is set nothing runs. Want of memory changes nothing.
pub(crate) fn dispatch(
    memory: &mut Memory,
    objects: &Objects<'_>,
    bindings: &Bindings,
    groups: [u32; 3],
) -> Result<(), AllocError>
    requires { InLimits memory.old }
    ensures ok { OnOk result (memory.new ≡ dispatched (objects_of objects.now) bindings.now groups memory.old) }
    ensures err { OnErr result (memory.new ≡ memory.old) }
{
    match objects.shader(bindings.shader()) {
        Some(shader) => dispatch_shader(memory, objects, bindings, shader.tree(), groups),
        None => Ok(()),
    }
}
