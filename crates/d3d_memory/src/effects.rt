ghost use Rattle.std.specs.Prelude.{◌≡◌, ℕ, false, OnOk, OnErr};
ghost use Rattle.call_log.specs.View.{call_view};
ghost use Rattle.d3d_model.specs.Memory.{made, memory_after, run};
ghost use Rattle.d3d_state.specs.Meaning.{objects_of};
ghost use Rattle.d3d_memory.specs.Commands.{commanded, executes, is_made, seen};
ghost use Rattle.d3d_memory.specs.Limits.{InLimits};

use crate::Memory;
use crate::dispatch::dispatch;
use call_log::Call;
use d3d_model::codes::{BUFFER_CLASS, MAP_DISCARD};
use d3d_state::Objects;
use d3d_views::Bindings;
use std::alloc::AllocError;

/// What a call of the device does to the memory.
fn make(memory: &mut Memory, call: &Call<'_>) -> Result<(), AllocError>
    ensures ok { OnOk result (memory.new ≡ made memory.old (call_view call.now)) }
    ensures err { OnErr result (memory.new ≡ memory.old) }
{
    match call {
        Call::Buffer {
            id,
            size,
            bytes,
            ..
        } => memory.create(*id, *size, bytes),
        Call::Query { id, .. } => {
            memory.forget_query(*id);
            Ok(())
        }
        Call::Destroy { class, id } => {
            if *class == BUFFER_CLASS {
                memory.destroy(*id);
            }
            Ok(())
        }
        _ => Ok(()),
    }
}

/// What a call does, of the kinds that a predicate may skip, where it isn't skipped.
fn command(
    memory: &mut Memory,
    objects: &Objects<'_>,
    bindings: &Bindings,
    call: &Call<'_>,
) -> Result<(), AllocError>
    requires { InLimits memory.old }
    ensures ok { OnOk result (memory.new ≡ commanded (objects_of objects.now) bindings.now memory.old (call_view call.now)) }
    ensures err { OnErr result (memory.new ≡ memory.old) }
{
    match call {
        Call::Dispatch { x, y, z } => return dispatch(memory, objects, bindings, [*x, *y, *z]),
        Call::DispatchIndirect { res, offset } => {
            let groups = memory.counts_at(*res, *offset);
            return dispatch(memory, objects, bindings, groups);
        }
        Call::CopyRegion {
            target,
            target_offset,
            source,
            source_offset,
            length,
        } => memory.copy_region(*target, *target_offset, *source, *source_offset, *length),
        Call::Copy { target, source } => memory.copy(*target, *source),
        Call::Update { res, offset, bytes } => memory.write(*res, *offset, bytes),
        Call::ClearUav {
            view,
            v0,
            v1,
            v2,
            v3,
        } => memory.clear(objects.bound_view(*view), &[*v0, *v1, *v2, *v3]),
        _ => (),
    }
    Ok(())
}

/// What a call that may stand in a command list does, played on the immediate context where these bindings are set. Want of
/// memory changes nothing.
pub fn run(
    memory: &mut Memory,
    objects: &Objects<'_>,
    bindings: &Bindings,
    call: &Call<'_>,
) -> Result<(), AllocError>
    requires { InLimits memory.old }
    ensures ok { OnOk result (memory.new ≡ run (seen (objects_of objects.now) bindings.now) memory.old (call_view call.now)) }
    ensures err { OnErr result (memory.new ≡ memory.old) }
{
    match call {
        Call::Begin { query } => memory.begin(*query),
        Call::EndQuery { query } => memory.end(*query),
        Call::MapWrite {
            res,
            mode,
            offset,
            bytes,
        } => {
            if *mode == MAP_DISCARD {
                memory.discard(*res, *offset, bytes);
            } else {
                memory.write(*res, *offset, bytes);
            }
            Ok(())
        }
        _ => {
            if memory.is_skipped(bindings.predicate()) {
                return Ok(());
            }
            command(memory, objects, bindings, call)
        }
    }
}

/// Whether a call of the device changes the memory.
fn is_made(call: &Call<'_>) -> bool
    ensures { result ≡ is_made (call_view call.now) }
{
    matches!(
        call,
        Call::Buffer { .. } | Call::Query { .. } | Call::Destroy { .. }
    )
}

/// What an accepted call on a context does to the memory, with the objects that it meets, if it executes no list. Want of memory
/// changes nothing.
pub fn accept(
    memory: &mut Memory,
    objects: &Objects<'_>,
    context: u16,
    call: &Call<'_>,
) -> Result<(), AllocError>
    requires limit { InLimits memory.old }
    ensures ok { executes (call_view call.now) ≡ false
        → (n : ℕ) → OnOk result (memory.new ≡ memory_after n (objects_of objects.now) memory.old context (call_view call.now)) }
    ensures err { OnErr result (memory.new ≡ memory.old) }
{
    if is_made(call) {
        make(memory, call)
    } else if context == 0 {
        run(memory, objects, objects.bindings(0), call)
    } else {
        Ok(())
    }
}
