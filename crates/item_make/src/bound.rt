ghost use Rattle.std.specs.Prelude.{◌≡◌, ℕ, List, OnOk};
ghost use Rattle.dx_types.specs.declared.range.Span.{Span};
ghost use Rattle.batch_make.specs.declared.stream.Stream.{Stream};
ghost use Rattle.batch_make.specs.Making.{Has};
ghost use Rattle.core_model.specs.Batching.{Made, make_staging};
ghost use Rattle.core_model.specs.Script.{Script};
ghost use Rattle.d3d_model.specs.Past.{Past};
ghost use Rattle.d3d_model.specs.Resource.{is_staging};
ghost use Rattle.d3d_state.specs.Meaning.{objects_of};
ghost use Rattle.log_script.specs.Makers.{of_makers};
ghost use Rattle.item_work.specs.Placed.{NamesBlocks};
ghost use Rattle.item_make.specs.Bound.{AllLive, Sized, with_buffer, with_range, with_ranges};
ghost use Rattle.item_make.specs.Making.{Makes};

use batch_make::Parts;
use d3d_state::Objects;
use dx_types::{BlockNo, ResRange, Shape, Usage};
use item_work::{BufferBlocks, range_on};
use std::alloc::AllocError;

// Whether it is a staging buffer.
fn is_staging(shape: &Shape) -> bool
    ensures { result ≡ is_staging shape.now.usage }
{
    matches!(shape.usage, Usage::Staging)
}

// A buffer in this block is used, if it is live.
fn use_buffer(parts: &mut Parts, block: BlockNo, shape: Option<Shape>) -> Result<(), AllocError>
    ensures { OnOk result ((part : Span → List ℕ) (m : Made) → Has part m parts.old
        → Has part (record m { staging = with_buffer block shape m.staging }) parts.new) }
{
    let Some(shape) = shape else {
        return Ok(());
    };
    if !is_staging(&shape) {
        return Ok(());
    }
    parts.use_staging(block, shape.size)
}

// A range is bound.
fn use_range(
    parts: &mut Parts,
    blocks: &BufferBlocks,
    objects: &Objects,
    r: &ResRange,
) -> Result<(), AllocError>
    ensures { OnOk result ((part : Span → List ℕ) (m : Made) → Has part m parts.old
        → Has part (record m { staging = with_range blocks.now (objects_of objects.now) m.staging r.now }) parts.new) }
{
    let block = range_on(blocks, r).block;
    use_buffer(parts, block, objects.buffer(r.res))
}

// Ranges are bound, one after another.
fn use_ranges(
    parts: &mut Parts,
    blocks: &BufferBlocks,
    objects: &Objects,
    ranges: &[ResRange],
) -> Result<(), AllocError>
    ensures { OnOk result ((part : Span → List ℕ) (m : Made) → Has part m parts.old
        → Has part (record m { staging = with_ranges blocks.now (objects_of objects.now) ranges.now m.staging }) parts.new) }
{
    'each: for r in ranges {
        use_range(parts, blocks, objects, r)?;
    }
    Ok(())
}

/// An item binds these ranges of live buffers: the whole of each staging buffer among them is used by the batch.
pub fn use_bound(
    parts: &mut Parts,
    blocks: &BufferBlocks,
    objects: &Objects,
    ranges: &[ResRange],
) -> Result<(), AllocError>
    ensures { OnOk result ((part : Span → List ℕ) (script : Script) (past : Past) (m : Made) (s : Stream)
        → Sized script past (objects_of objects.now) → AllLive (objects_of objects.now) ranges.now
        → NamesBlocks past blocks.now m.blocks → Makes part m s parts.old
        → Makes part (make_staging script (of_makers past ranges.now) m) s parts.new) }
{
    use_ranges(parts, blocks, objects, ranges)
}
