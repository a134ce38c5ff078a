ghost use Rattle.std.specs.Prelude.{◌≡◌, ◌+◌, ◌<◌, ◌^◌, [], ◌∷◌, ℕ, List, length, false, None, OnOk, Some};
ghost use Rattle.dx_types.specs.declared.range.Span.{Span as Part};
ghost use Rattle.vk_types.specs.declared.message.Placed.{Placed};
ghost use Rattle.batch_make.specs.declared.stream.Stream.{Stream as Goes};
ghost use Rattle.core_model.specs.Batching.{Made, make_play};
ghost use Rattle.core_model.specs.Renaming.{BlockMap};
ghost use Rattle.core_model.specs.Script.{Script, Create, Discard, No_overwrite, Destroy, updated};
ghost use Rattle.d3d_model.specs.Past as past;
ghost use Rattle.d3d_model.specs.Past.{Past, then_done};
ghost use Rattle.log_script.specs.Makers.{maker};
ghost use Rattle.item_work.specs.Placed.{NamesBlocks};
ghost use Rattle.item_make.specs.Making.{Makes, MakesAlone, NeverMade};

use batch_make::{Parts, Stream};
use dx_types::{BlockNo, Range, ResRange, Span};
use item_work::{BufferBlocks, range_on};
use std::alloc::AllocError;

/// A buffer is created in a block, with a part of the log as its first bytes.
pub fn create(
    stream: &mut Stream,
    parts: &mut Parts,
    blocks: &mut BufferBlocks,
    id: u32,
    block: BlockNo,
    is_staging: bool,
    span: Span,
) -> Result<(), AllocError>
    ensures made { OnOk result ((part : Part → List ℕ) (script : Script) (call buffer : ℕ) (bytes : List ℕ) (p : Placed)
        (m : Made) → p.block ≡ Some block → script.is_staging buffer ≡ is_staging → part span ≡ bytes
        → length bytes ≡ span.len → Makes part m stream.old parts.old
        → Makes part (make_play script call (Create buffer bytes) [] p m) stream.new parts.new) }
    ensures named { OnOk result ((before : Past) (of : BlockMap) (call : ℕ) → NeverMade before call
        → NamesBlocks before blocks.old of
        → NamesBlocks (then_done call before (past.Makes id ∷ [])) blocks.new (updated call (Some block) of)) }
{
    stream.give_block(block, is_staging)?;
    let range = Range {
        block,
        from: 0,
        to: span.len,
    };
    parts.write(range, span)?;
    blocks.insert(id, block)
}

/// A map discards what a dynamic buffer holds: it stands in another block from now on, and a part of the log is written
/// there from a place on.
pub fn discard(
    stream: &mut Stream,
    parts: &mut Parts,
    blocks: &mut BufferBlocks,
    id: u32,
    block: BlockNo,
    from: u64,
    span: Span,
) -> Result<(), AllocError>
    requires { from + span.len < 2 ^ 64 }
    ensures made { OnOk result ((part : Part → List ℕ) (script : Script) (call buffer : ℕ) (bytes : List ℕ) (p : Placed)
        (m : Made) → p.block ≡ Some block → script.is_staging buffer ≡ false → part span ≡ bytes
        → length bytes ≡ span.len → Makes part m stream.old parts.old
        → Makes part (make_play script call (Discard buffer from bytes) [] p m) stream.new parts.new) }
    ensures named { OnOk result ((before : Past) (of : BlockMap) → MakesAlone before id
        → NamesBlocks before blocks.old of
        → NamesBlocks before blocks.new (updated (maker before id) (Some block) of)) }
{
    stream.give_block(block, false)?;
    let range = Range {
        block,
        from,
        to: from + span.len,
    };
    parts.write(range, span)?;
    blocks.insert(id, block)
}

/// A map overwrites nothing that is in use: a part of the log is written to the buffer's block from a place on.
pub fn overwrite_none(
    parts: &mut Parts,
    blocks: &BufferBlocks,
    id: u32,
    from: u64,
    span: Span,
) -> Result<(), AllocError>
    requires { from + span.len < 2 ^ 64 }
    ensures { OnOk result ((part : Part → List ℕ) (script : Script) (before : Past) (call : ℕ) (bytes : List ℕ)
        (p : Placed) (m : Made) (s : Goes) → part span ≡ bytes → length bytes ≡ span.len
        → NamesBlocks before blocks.now m.blocks → Makes part m s parts.old
        → Makes part (make_play script call (No_overwrite (maker before id) from bytes) [] p m) s parts.new) }
{
    let bytes = ResRange {
        res: id,
        from,
        to: from + span.len,
    };
    let range = range_on(blocks, &bytes);
    parts.write(range, span)
}

/// A buffer is destroyed: no block is its own any more, and the batch doesn't name it as a staging buffer.
pub fn destroy(parts: &mut Parts, blocks: &mut BufferBlocks, id: u32)
    ensures made { (part : Part → List ℕ) (script : Script) (before : Past) (call : ℕ) (p : Placed) (m : Made) (s : Goes)
        → NamesBlocks before blocks.old m.blocks → Makes part m s parts.old
        → Makes part (make_play script call (Destroy (maker before id)) [] p m) s parts.new }
    ensures named { (before : Past) (of : BlockMap) → MakesAlone before id → NamesBlocks before blocks.old of
        → NamesBlocks before blocks.new (updated (maker before id) None of) }
{
    let Some(block) = blocks.remove(id) else {
        return;
    };
    parts.drop_staging(block);
}
