ghost use Rattle.std.specs.Prelude.{◌≡◌, ◌+◌, [], ℕ, List, OnOk};
ghost use Rattle.dx_types.specs.declared.range.Span.{Span};
ghost use Rattle.call_log.specs.Call as calls;
ghost use Rattle.vk_types.specs.declared.command.Work.{Work as Done};
ghost use Rattle.vk_types.specs.declared.message.Placed.{Placed};
ghost use Rattle.core_model.specs.Batching.{Made, make_play};
ghost use Rattle.core_model.specs.Renaming.{work_on};
ghost use Rattle.core_model.specs.Script.{Script};
ghost use Rattle.d3d_model.specs.D3dState.{Objects as Live, buffer_of};
ghost use Rattle.d3d_model.specs.Resource.{size_of};
ghost use Rattle.d3d_model.specs.Past.{Past};
ghost use Rattle.d3d_state.specs.Meaning.{objects_of};
ghost use Rattle.log_script.specs.Plays.{play_of, predicated};
ghost use Rattle.item_work.specs.Placed.{NamesBlocks};
ghost use Rattle.item_make.specs.Making.{Makes};

use batch_make::{Parts, Stream};
use d3d_state::Objects;
use d3d_views::Bindings;
use dx_types::{CallNo, ResRange};
use item_work::{BufferBlocks, clear, condition, copy, dispatch, range_on, skips};
use std::alloc::{AllocError, Global};
use vk_types::{Groups, Work};

/// The bytes of an indirect dispatch's three counts.
const COUNTS: u32 = 12;

// A command that a call makes where these bindings are set: a query's predicate may skip it, and a predicate's word is
// read as it runs.
fn predicated(
    stream: &mut Stream,
    parts: &mut Parts,
    blocks: &BufferBlocks,
    set: &Bindings,
    call: CallNo,
    work: Work,
) -> Result<(), AllocError>
    ensures { OnOk result ((part : Span → List ℕ) (script : Script) (past : Past) (p : Placed) (m : Made) (w : Done)
        → NamesBlocks past blocks.now m.blocks → work ≡ work_on m.blocks w → Makes part m stream.old parts.old
        → Makes part (make_play script call (predicated past set.now.predicate w) [] p m) stream.new parts.new) }
{
    if skips(set) {
        return Ok(());
    }
    let cond = condition(blocks, set);
    stream.command(parts, call, work, cond)?;
    Ok(())
}

// Some bytes of a buffer from a place on.
fn bytes_at(res: u32, from: u32, len: u32) -> ResRange
    ensures { result ≡ record { res = res; from = from; to = from + len } }
{
    let from = u64::from(from);
    ResRange {
        res,
        from,
        to: from + u64::from(len),
    }
}

/// A copy of so many bytes of a buffer, from an offset in bytes on, to another one. Of no bytes it is no command.
pub fn copy_region(
    stream: &mut Stream,
    parts: &mut Parts,
    blocks: &BufferBlocks,
    set: &Bindings,
    call: CallNo,
    target: u32,
    target_offset: u32,
    source: u32,
    source_offset: u32,
    length: u32,
) -> Result<(), AllocError>
    ensures { OnOk result ((part : Span → List ℕ) (script : Script) (past : Past) (o : Live) (p : Placed) (m : Made)
        → NamesBlocks past blocks.now m.blocks → Makes part m stream.old parts.old
        → Makes part (make_play script call
        (play_of past o set.now (calls.CopyRegion target target_offset source source_offset length)) [] p m)
        stream.new parts.new) }
{
    if length == 0 {
        return Ok(());
    }
    let from = bytes_at(source, source_offset, length);
    let to = bytes_at(target, target_offset, length);
    let work = copy(blocks, &from, &to);
    predicated(stream, parts, blocks, set, call, work)
}

// All bytes of a live buffer; none of another.
fn whole(objects: &Objects, res: u32) -> ResRange
    ensures { result ≡ record { res = res; from = 0; to = size_of (buffer_of (objects_of objects.now) res) } }
{
    let to = match objects.buffer(res) {
        Some(shape) => shape.size,
        None => 0,
    };
    ResRange { res, from: 0, to }
}

/// A copy of a whole buffer to another one of its size.
pub fn copy_whole(
    stream: &mut Stream,
    parts: &mut Parts,
    blocks: &BufferBlocks,
    objects: &Objects,
    set: &Bindings,
    call: CallNo,
    target: u32,
    source: u32,
) -> Result<(), AllocError>
    ensures { OnOk result ((part : Span → List ℕ) (script : Script) (past : Past) (p : Placed) (m : Made)
        → NamesBlocks past blocks.now m.blocks → Makes part m stream.old parts.old
        → Makes part (make_play script call
        (play_of past (objects_of objects.now) set.now (calls.Copy target source)) [] p m) stream.new parts.new) }
{
    let from = whole(objects, source);
    let to = whole(objects, target);
    let work = copy(blocks, &from, &to);
    predicated(stream, parts, blocks, set, call, work)
}

/// A clear of all elements of a view.
pub fn clear_view(
    stream: &mut Stream,
    parts: &mut Parts,
    blocks: &BufferBlocks,
    objects: &Objects,
    set: &Bindings,
    call: CallNo,
    view: u32,
    v0: u32,
    v1: u32,
    v2: u32,
    v3: u32,
) -> Result<(), AllocError>
    ensures { OnOk result ((part : Span → List ℕ) (script : Script) (past : Past) (p : Placed) (m : Made)
        → NamesBlocks past blocks.now m.blocks → Makes part m stream.old parts.old
        → Makes part (make_play script call
        (play_of past (objects_of objects.now) set.now (calls.ClearUav view v0 v1 v2 v3)) [] p m)
        stream.new parts.new) }
{
    let Some(bound) = objects.bound_view(view) else {
        return Ok(());
    };
    let work = clear(blocks, &bound.shape, v0, v1, v2, v3);
    predicated(stream, parts, blocks, set, call, work)
}

/// A dispatch of the shader that is set, of so many groups.
pub fn dispatch_groups(
    alloc: Global,
    stream: &mut Stream,
    parts: &mut Parts,
    blocks: &BufferBlocks,
    objects: &Objects,
    set: &Bindings,
    call: CallNo,
    x: u32,
    y: u32,
    z: u32,
) -> Result<(), AllocError>
    ensures { OnOk result ((part : Span → List ℕ) (script : Script) (past : Past) (p : Placed) (m : Made)
        → NamesBlocks past blocks.now m.blocks → Makes part m stream.old parts.old
        → Makes part (make_play script call
        (play_of past (objects_of objects.now) set.now (calls.Dispatch x y z)) [] p m) stream.new parts.new) }
{
    let work = dispatch(alloc, blocks, objects, set, Groups::Direct { x, y, z })?;
    predicated(stream, parts, blocks, set, call, work)
}

/// A dispatch of the shader that is set, of as many groups as the three words say that stand from an offset in bytes on.
pub fn dispatch_counts(
    alloc: Global,
    stream: &mut Stream,
    parts: &mut Parts,
    blocks: &BufferBlocks,
    objects: &Objects,
    set: &Bindings,
    call: CallNo,
    res: u32,
    offset: u32,
) -> Result<(), AllocError>
    ensures { OnOk result ((part : Span → List ℕ) (script : Script) (past : Past) (p : Placed) (m : Made)
        → NamesBlocks past blocks.now m.blocks → Makes part m stream.old parts.old
        → Makes part (make_play script call
        (play_of past (objects_of objects.now) set.now (calls.DispatchIndirect res offset)) [] p m)
        stream.new parts.new) }
{
    let counts = bytes_at(res, offset, COUNTS);
    let at = range_on(blocks, &counts);
    let work = dispatch(alloc, blocks, objects, set, Groups::Indirect { at })?;
    predicated(stream, parts, blocks, set, call, work)
}
