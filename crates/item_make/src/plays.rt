ghost use Rattle.std.specs.Prelude.{◌≡◌, ◌+◌, ◌<◌, ◌^◌, [], ℕ, List, length, false, OnOk};
ghost use Rattle.dx_types.specs.declared.range.Span.{Span as Part};
ghost use Rattle.call_log.specs.Call as calls;
ghost use Rattle.call_log.specs.View.{call_view};
ghost use Rattle.core_model.specs.Batching.{Made, make_play};
ghost use Rattle.core_model.specs.Renaming.{BlockMap};
ghost use Rattle.core_model.specs.Script.{Script};
ghost use Rattle.core_model.specs.Succession.{PlacesPlay};
ghost use Rattle.d3d_model.specs.D3dState.{Objects as Live};
ghost use Rattle.d3d_model.specs.Past.{Past};
ghost use Rattle.d3d_state.specs.Meaning.{objects_of};
ghost use Rattle.log_script.specs.Plays.{maps, play_of};
ghost use Rattle.item_work.specs.Placed.{NamesBlocks};
ghost use Rattle.item_make.specs.Calls.{DiscardsAlone, bytes_of, is_map};
ghost use Rattle.item_make.specs.Making.{Makes};

use crate::commands::{clear_view, copy_region, copy_whole, dispatch_counts, dispatch_groups};
use crate::queries::mark_query;
use crate::staged::stage;
use crate::writes::{discard, overwrite_none};
use batch_make::{Parts, Stream};
use call_log::Call;
use d3d_model::codes::{MAP_DISCARD, MAP_NO_OVERWRITE};
use d3d_state::Objects;
use d3d_views::Bindings;
use dx_types::{ResRange, Span};
use item_work::{BufferBlocks, condition, skips};
use std::alloc::{AllocError, Global};
use vk_types::Placed;

// The bytes of a buffer to which a part of the log goes, from an offset in bytes on.
fn target_of(res: u32, offset: u32, span: Span) -> ResRange
    requires { span.len < 2 ^ 32 }
    ensures { result ≡ record { res = res; from = offset; to = offset + span.len } }
{
    let from = u64::from(offset);
    ResRange {
        res,
        from,
        to: from + span.len,
    }
}

// A map for writing, by its mode: a discard, a no-overwrite, or one of a staging buffer, whose bytes are staged.
fn map_write(
    stream: &mut Stream,
    parts: &mut Parts,
    blocks: &mut BufferBlocks,
    place: &Placed,
    res: u32,
    mode: u32,
    offset: u32,
    span: Span,
) -> Result<(), AllocError>
    requires { span.len < 2 ^ 32 }
    ensures made { OnOk result ((part : Part → List ℕ) (script : Script) (past : Past) (after : BlockMap) (m : Made)
        (bytes : List ℕ) → part span ≡ bytes → length bytes ≡ span.len
        → DiscardsAlone script past (calls.MapWrite res mode offset bytes)
        → PlacesPlay script (maps past res mode offset bytes) place.now m.blocks after
        → NamesBlocks past blocks.old m.blocks → Makes part m stream.old parts.old
        → Makes part (make_play script place.now.call (maps past res mode offset bytes) [] place.now m)
        stream.new parts.new) }
    ensures named { OnOk result ((script : Script) (past : Past) (after : BlockMap) (m : Made) (bytes : List ℕ)
        → DiscardsAlone script past (calls.MapWrite res mode offset bytes)
        → PlacesPlay script (maps past res mode offset bytes) place.now m.blocks after
        → NamesBlocks past blocks.old m.blocks
        → NamesBlocks past blocks.new
        (make_play script place.now.call (maps past res mode offset bytes) [] place.now m).blocks) }
{
    if mode == MAP_DISCARD {
        let Some(block) = place.block else {
            return Ok(());
        };
        return discard(stream, parts, blocks, res, block, u64::from(offset), span);
    }
    if mode == MAP_NO_OVERWRITE {
        return overwrite_none(parts, blocks, res, u64::from(offset), span);
    }
    let target = target_of(res, offset, span);
    stage(
        stream,
        parts,
        blocks,
        place.call,
        span,
        place.staged,
        &target,
        false,
        None,
    )
}

// An update of some bytes of a buffer, from an offset in bytes on.
fn update(
    stream: &mut Stream,
    parts: &mut Parts,
    blocks: &BufferBlocks,
    set: &Bindings,
    place: &Placed,
    res: u32,
    offset: u32,
    span: Span,
) -> Result<(), AllocError>
    requires { span.len < 2 ^ 32 }
    ensures { OnOk result ((part : Part → List ℕ) (script : Script) (past : Past) (o : Live) (after : BlockMap) (m : Made)
        (bytes : List ℕ) → part span ≡ bytes → length bytes ≡ span.len
        → PlacesPlay script (play_of past o set.now (calls.Update res offset bytes)) place.now m.blocks after
        → NamesBlocks past blocks.now m.blocks → Makes part m stream.old parts.old
        → Makes part (make_play script place.now.call (play_of past o set.now (calls.Update res offset bytes)) []
        place.now m) stream.new parts.new) }
{
    let target = target_of(res, offset, span);
    let cond = condition(blocks, set);
    stage(
        stream,
        parts,
        blocks,
        place.call,
        span,
        place.staged,
        &target,
        skips(set),
        cond,
    )
}

// A call that is no map, beside the staging buffers that it uses.
fn play_fixed(
    alloc: Global,
    stream: &mut Stream,
    parts: &mut Parts,
    blocks: &BufferBlocks,
    objects: &Objects,
    set: &Bindings,
    place: &Placed,
    call: &Call<'_>,
    span: Span,
) -> Result<(), AllocError>
    requires { span.len < 2 ^ 32 }
    ensures { OnOk result ((part : Part → List ℕ) (script : Script) (past : Past) (after : BlockMap) (m : Made)
        → is_map (call_view call.now) ≡ false → part span ≡ bytes_of (call_view call.now)
        → length (bytes_of (call_view call.now)) ≡ span.len
        → PlacesPlay script (play_of past (objects_of objects.now) set.now (call_view call.now)) place.now m.blocks after
        → NamesBlocks past blocks.now m.blocks → Makes part m stream.old parts.old
        → Makes part (make_play script place.now.call
        (play_of past (objects_of objects.now) set.now (call_view call.now)) [] place.now m) stream.new parts.new) }
{
    let n = place.call;
    match *call {
        Call::Dispatch { x, y, z } => {
            dispatch_groups(alloc, stream, parts, blocks, objects, set, n, x, y, z)
        }
        Call::DispatchIndirect { res, offset } => {
            dispatch_counts(alloc, stream, parts, blocks, objects, set, n, res, offset)
        }
        Call::CopyRegion {
            target,
            target_offset,
            source,
            source_offset,
            length,
        } => copy_region(
            stream,
            parts,
            blocks,
            set,
            n,
            target,
            target_offset,
            source,
            source_offset,
            length,
        ),
        Call::Copy { target, source } => {
            copy_whole(stream, parts, blocks, objects, set, n, target, source)
        }
        Call::Update { res, offset, .. } => {
            update(stream, parts, blocks, set, place, res, offset, span)
        }
        Call::ClearUav {
            view,
            v0,
            v1,
            v2,
            v3,
        } => clear_view(stream, parts, blocks, objects, set, n, view, v0, v1, v2, v3),
        Call::Begin { query } => mark_query(stream, parts, objects, n, query, true),
        Call::EndQuery { query } => mark_query(stream, parts, objects, n, query, false),
        _ => Ok(()),
    }
}

/// A call that may stand in a list, on the objects and bindings that it meets, beside the staging buffers that it uses.
/// `span` is where its bytes stand in the log, if it has bytes, and `place` where they go.
pub fn play(
    alloc: Global,
    stream: &mut Stream,
    parts: &mut Parts,
    blocks: &mut BufferBlocks,
    objects: &Objects,
    set: &Bindings,
    place: &Placed,
    call: &Call<'_>,
    span: Span,
) -> Result<(), AllocError>
    requires { span.len < 2 ^ 32 }
    ensures made { OnOk result ((part : Part → List ℕ) (script : Script) (past : Past) (after : BlockMap) (m : Made)
        → part span ≡ bytes_of (call_view call.now) → length (bytes_of (call_view call.now)) ≡ span.len
        → DiscardsAlone script past (call_view call.now)
        → PlacesPlay script (play_of past (objects_of objects.now) set.now (call_view call.now)) place.now m.blocks after
        → NamesBlocks past blocks.old m.blocks → Makes part m stream.old parts.old
        → Makes part (make_play script place.now.call
        (play_of past (objects_of objects.now) set.now (call_view call.now)) [] place.now m) stream.new parts.new) }
    ensures named { OnOk result ((script : Script) (past : Past) (after : BlockMap) (m : Made)
        → DiscardsAlone script past (call_view call.now)
        → PlacesPlay script (play_of past (objects_of objects.now) set.now (call_view call.now)) place.now m.blocks after
        → NamesBlocks past blocks.old m.blocks
        → NamesBlocks past blocks.new (make_play script place.now.call
        (play_of past (objects_of objects.now) set.now (call_view call.now)) [] place.now m).blocks) }
{
    if let Call::MapWrite {
        res,
        mode,
        offset,
        ..
    } = *call
    {
        return map_write(stream, parts, blocks, place, res, mode, offset, span);
    }
    play_fixed(
        alloc, stream, parts, blocks, objects, set, place, call, span,
    )
}
