ghost use Rattle.std.specs.Prelude.{◌≡◌, [], ℕ, List, length, OnOk};
ghost use Rattle.dx_types.specs.declared.range.Span.{Span as Part};
ghost use Rattle.vk_types.specs.declared.message.Placed.{Placed};
ghost use Rattle.core_model.specs.Batching.{Made, make_play};
ghost use Rattle.core_model.specs.Renaming.{cond_on};
ghost use Rattle.core_model.specs.Script.{Script};
ghost use Rattle.core_model.specs.Succession.{IsStagedRange};
ghost use Rattle.d3d_model.specs.Binding.{Predicate};
ghost use Rattle.d3d_model.specs.Past.{Past};
ghost use Rattle.log_script.specs.Makers.{of_maker};
ghost use Rattle.log_script.specs.Plays.{condition, skips, staged};
ghost use Rattle.item_work.specs.Placed.{NamesBlocks};
ghost use Rattle.item_make.specs.Making.{Makes};

use batch_make::{Parts, Stream};
use dx_types::{CallNo, Range, ResRange, Span};
use item_work::{BufferBlocks, range_on};
use std::alloc::AllocError;
use vk_types::{Cond, Work};

/// Bytes of the log go to where they are staged, and a command copies them to a buffer. No bytes have no place, and make
/// nothing. Where a query's predicate skips the call they are staged all the same.
pub fn stage(
    stream: &mut Stream,
    parts: &mut Parts,
    blocks: &BufferBlocks,
    call: CallNo,
    span: Span,
    source: Option<Range>,
    target: &ResRange,
    is_skipped: bool,
    cond: Option<Cond>,
) -> Result<(), AllocError>
    ensures { OnOk result ((part : Part → List ℕ) (script : Script) (past : Past) (p : Placed) (m : Made)
        (bytes : List ℕ) (predicate : Predicate) → part span ≡ bytes → length bytes ≡ span.len
        → p.staged ≡ source → IsStagedRange bytes source → is_skipped ≡ skips predicate
        → cond ≡ cond_on m.blocks (condition past predicate)
        → NamesBlocks past blocks.now m.blocks → Makes part m stream.old parts.old
        → Makes part (make_play script call (staged past predicate bytes (of_maker past target.now)) [] p m)
        stream.new parts.new) }
{
    let Some(source) = source else {
        return Ok(());
    };
    parts.write(source, span)?;
    if is_skipped {
        return Ok(());
    }
    let to = range_on(blocks, target);
    let work = Work::Copy { source, target: to };
    stream.command(parts, call, work, cond)?;
    Ok(())
}
