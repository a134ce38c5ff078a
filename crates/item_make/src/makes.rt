ghost use Rattle.std.specs.Prelude.{◌≡◌, [], ℕ, List, length, OnOk};
ghost use Rattle.dx_types.specs.declared.range.Span.{Span as Part};
ghost use Rattle.call_log.specs.Call as calls;
ghost use Rattle.call_log.specs.View.{call_view};
ghost use Rattle.vk_types.specs.declared.message.Placed.{Placed as Place};
ghost use Rattle.batch_make.specs.declared.stream.Stream.{Stream as Goes};
ghost use Rattle.core_model.specs.Batching.{Made, make_play};
ghost use Rattle.core_model.specs.Renaming.{BlockMap};
ghost use Rattle.core_model.specs.Script.{Script};
ghost use Rattle.core_model.specs.Succession.{PlacesPlay};
ghost use Rattle.d3d_model.specs.Past.{Past, then_done};
ghost use Rattle.d3d_model.specs.Resource.{is_staging, usage_from};
ghost use Rattle.d3d_model.specs.Stream.{makings};
ghost use Rattle.log_script.specs.Plays.{making_of};
ghost use Rattle.item_work.specs.Placed.{NamesBlocks};
ghost use Rattle.item_make.specs.Calls.{NamesAlone, TellsStaging, bytes_of};
ghost use Rattle.item_make.specs.Making.{Makes};

use crate::writes::{create, destroy};
use batch_make::{Parts, Stream};
use call_log::Call;
use d3d_model::codes::{BUFFER_CLASS, DEFAULT_USAGE, DYNAMIC_USAGE, IMMUTABLE_USAGE};
use dx_types::Span;
use item_work::BufferBlocks;
use std::alloc::AllocError;
use vk_types::Placed;

// Whether a buffer of this usage is a staging buffer.
fn is_staging(usage: u32) -> bool
    ensures { result ≡ is_staging (usage_from usage) }
{
    !matches!(usage, DEFAULT_USAGE | IMMUTABLE_USAGE | DYNAMIC_USAGE)
}

// A buffer is created in the block of its place.
fn make_buffer(
    stream: &mut Stream,
    parts: &mut Parts,
    blocks: &mut BufferBlocks,
    place: &Placed,
    id: u32,
    usage: u32,
    span: Span,
) -> Result<(), AllocError>
    ensures made { OnOk result ((part : Part → List ℕ) (script : Script) (past : Past) (after : BlockMap) (m : Made)
        (size bind misc stride : ℕ) (bytes : List ℕ) → part span ≡ bytes → length bytes ≡ span.len
        → script.is_staging place.now.call ≡ is_staging (usage_from usage)
        → PlacesPlay script (making_of place.now.call past (calls.Buffer id size usage bind misc stride bytes)) place.now
        m.blocks after → Makes part m stream.old parts.old
        → Makes part (make_play script place.now.call
        (making_of place.now.call past (calls.Buffer id size usage bind misc stride bytes)) [] place.now m)
        stream.new parts.new) }
    ensures named { OnOk result ((script : Script) (past : Past) (after : BlockMap) (m : Made)
        (size bind misc stride : ℕ) (bytes : List ℕ)
        → NamesAlone place.now.call past (calls.Buffer id size usage bind misc stride bytes)
        → PlacesPlay script (making_of place.now.call past (calls.Buffer id size usage bind misc stride bytes)) place.now
        m.blocks after → NamesBlocks past blocks.old m.blocks
        → NamesBlocks (then_done place.now.call past (makings (calls.Buffer id size usage bind misc stride bytes)))
        blocks.new (make_play script place.now.call
        (making_of place.now.call past (calls.Buffer id size usage bind misc stride bytes)) [] place.now m).blocks) }
{
    let Some(block) = place.block else {
        return Ok(());
    };
    create(stream, parts, blocks, id, block, is_staging(usage), span)
}

// An object is destroyed: a buffer, or one that stands in no block.
fn destroy_object(parts: &mut Parts, blocks: &mut BufferBlocks, class: u32, id: u32)
    ensures made { (part : Part → List ℕ) (script : Script) (call : ℕ) (past : Past) (p : Place) (m : Made) (s : Goes)
        → NamesBlocks past blocks.old m.blocks → Makes part m s parts.old
        → Makes part (make_play script call (making_of call past (calls.Destroy class id)) [] p m) s parts.new }
    ensures named { (script : Script) (call : ℕ) (past : Past) (p : Place) (m : Made)
        → NamesAlone call past (calls.Destroy class id) → NamesBlocks past blocks.old m.blocks
        → NamesBlocks past blocks.new
        (make_play script call (making_of call past (calls.Destroy class id)) [] p m).blocks }
{
    if class == BUFFER_CLASS {
        destroy(parts, blocks, id);
    }
}

/// A call of the device: the creation of a buffer, whose first bytes stand at `span` in the log, in the block of its
/// place, the destruction of a buffer, or nothing that blocks know of.
pub fn make(
    stream: &mut Stream,
    parts: &mut Parts,
    blocks: &mut BufferBlocks,
    place: &Placed,
    call: &Call<'_>,
    span: Span,
) -> Result<(), AllocError>
    ensures made { OnOk result ((part : Part → List ℕ) (script : Script) (past : Past) (after : BlockMap) (m : Made)
        → part span ≡ bytes_of (call_view call.now) → length (bytes_of (call_view call.now)) ≡ span.len
        → TellsStaging script place.now.call (call_view call.now)
        → PlacesPlay script (making_of place.now.call past (call_view call.now)) place.now m.blocks after
        → NamesBlocks past blocks.old m.blocks → Makes part m stream.old parts.old
        → Makes part (make_play script place.now.call (making_of place.now.call past (call_view call.now)) [] place.now m)
        stream.new parts.new) }
    ensures named { OnOk result ((script : Script) (past : Past) (after : BlockMap) (m : Made)
        → NamesAlone place.now.call past (call_view call.now)
        → PlacesPlay script (making_of place.now.call past (call_view call.now)) place.now m.blocks after
        → NamesBlocks past blocks.old m.blocks
        → NamesBlocks (then_done place.now.call past (makings (call_view call.now))) blocks.new
        (make_play script place.now.call (making_of place.now.call past (call_view call.now)) [] place.now m).blocks) }
{
    match *call {
        Call::Buffer { id, usage, .. } => {
            make_buffer(stream, parts, blocks, place, id, usage, span)
        }
        Call::Destroy { class, id } => {
            destroy_object(parts, blocks, class, id);
            Ok(())
        }
        _ => Ok(()),
    }
}
