ghost use Rattle.std.specs.Prelude.{◌≡◌, ◌^◌, ◌<◌, IfOk};
ghost use Rattle.vk_types.specs.declared.command.Groups.{Groups as Counts};
ghost use Rattle.vk_types.specs.declared.command.Work.TheVariants as work;
ghost use Rattle.core_model.specs.Renaming.{BlockMap, groups_on, work_on};
ghost use Rattle.d3d_model.specs.Past.{Past};
ghost use Rattle.d3d_model.specs.View.{view_end};
ghost use Rattle.d3d_state.specs.Meaning.{objects_of};
ghost use Rattle.log_script.specs.Makers.{of_maker};
ghost use Rattle.log_script.specs.Plays.{clear, clear_words, dispatch};
ghost use Rattle.item_work.specs.Placed.{NamesBlocks};
ghost use Rattle.item_work.specs.Slots.{slots_seen};

use crate::slots::slots_seen;
use crate::{BufferBlocks, range_on};
use d3d_state::Objects;
use d3d_views::{Bindings, view_range};
use dx_types::{CallNo, Form, ResRange, ViewShape};
use std::alloc::{AllocError, Global};
use vk_types::{Groups, SlotList, SlotRange, Work};

/// A copy of some bytes of a live buffer to as many of another.
pub fn copy(blocks: &BufferBlocks, source: &ResRange, target: &ResRange) -> Work
    ensures { (past : Past) (of : BlockMap) → NamesBlocks past blocks.now of
        → result ≡ work_on of (work.Copy (of_maker past source.now) (of_maker past target.now)) }
{
    let from = range_on(blocks, source);
    let to = range_on(blocks, target);
    Work::Copy {
        source: from,
        target: to,
    }
}

/// How many words of the four one element takes: of a typed view as many as it has components, else one.
fn clear_words(shape: &ViewShape) -> u32
    ensures { result ≡ clear_words shape.now.form shape.now.unit }
{
    match shape.form {
        Form::Raw | Form::Structured => 1,
        Form::Typed => shape.unit / 4,
    }
}

/// A clear of all elements of a live view, each to the first of these words that it takes. Elements of one word are
/// filled.
pub fn clear(blocks: &BufferBlocks, shape: &ViewShape, v0: u32, v1: u32, v2: u32, v3: u32) -> Work
    requires { view_end shape.now < 2 ^ 64 }
    ensures { (past : Past) (of : BlockMap) → NamesBlocks past blocks.now of
        → result ≡ work_on of (clear past shape.now v0 v1 v2 v3) }
{
    let target = range_on(blocks, &view_range(shape));
    let unit = clear_words(shape);
    if unit == 1 {
        Work::Fill { target, word: v0 }
    } else {
        Work::Clear {
            target,
            words: [v0, v1, v2, v3],
            unit,
        }
    }
}

/// A dispatch of the shader that is set, of so many groups, on the slots that it declares and that fit.
pub fn dispatch(
    alloc: Global,
    blocks: &BufferBlocks,
    objects: &Objects,
    set: &Bindings,
    groups: Groups,
) -> Result<Work, AllocError>
    ensures { IfOk result (λ done. (past : Past) (of : BlockMap) (counts : Counts) → NamesBlocks past blocks.now of
        → groups ≡ groups_on of counts → done ≡ work_on of (dispatch past (objects_of objects.now) set.now counts)) }
{
    match objects.shader(set.shader()) {
        Some(shader) => {
            let slots = slots_seen(alloc, blocks, objects, set, shader.tree().declared())?;
            Ok(dispatch_of(shader.call(), groups, slots))
        }
        None => {
            let slots = slots_seen(alloc, blocks, objects, set, &[])?;
            Ok(dispatch_of(0, groups, slots))
        }
    }
}

fn dispatch_of(shader: CallNo, groups: Groups, slots: Vec<SlotRange>) -> Work
    ensures { result ≡ work.Dispatch shader groups slots.items }
{
    Work::Dispatch {
        shader,
        groups,
        slots: SlotList::new(slots),
    }
}
