//! What commands do, as it is read.

ghost use Rattle.std.specs.Prelude.{◌≡◌, map, ◌-◌, ◌%◌, ◌*◌, ◌==◌, ◌<◌, ◌≤◌, List, IfOk, IfErr, MatchOption, codes};
ghost use Rattle.std.specs.Bool.{MatchBool};
ghost use Rattle.vk_trace.specs.ListText.{IsSmall, size, hex_word, groups_words, FitSlots};
ghost use Rattle.vk_trace.specs.Reading.{AreElements, AreFour, IsGroups, IsNext, MayStand, NoSlots, NoWork, ReadsSlots, ReadsWork, TakesAll, TakesWork, WhenBad, work_kind_name};

use crate::kind::WorkKind;
use crate::trace_end::Stop;
use crate::values::{rank, slot_name};
use crate::words::Words;
use dx_types::Range;
use std::alloc::Global;
use vk_types::{Groups, SlotList, SlotRange, Work};

// How many bytes a range has.
fn size(range: Range) -> u64
    ensures { result ≡ size range }
{
    range.to.saturating_sub(range.from)
}

// The work of a copy: the two ranges have one length.
fn copy(words: &mut Words<'_>) -> Option<Work>
    ensures { TakesWork (codes "copy") words.old words.new result }
{
    words.key(b"r")?;
    let source = words.range()?;
    words.key(b"w")?;
    let target = words.range()?;
    if size(source) != size(target) {
        return None;
    }
    Some(Work::Copy { source, target })
}

// The work of a fill, of whole words.
fn fill(words: &mut Words<'_>) -> Option<Work>
    ensures { TakesWork (codes "fill") words.old words.new result }
{
    let word = words.memory_word()?;
    words.key(b"w")?;
    let target = words.range()?;
    if size(target) % 4 != 0 {
        return None;
    }
    Some(Work::Fill { target, word })
}

// Four words of memory.
fn four_words(words: &mut Words<'_>) -> Option<[u32; 4]>
    ensures { TakesAll AreFour (map hex_word) words.old words.new result }
{
    Some([
        words.memory_word()?,
        words.memory_word()?,
        words.memory_word()?,
        words.memory_word()?,
    ])
}

// Whether a range has whole elements, of two words or of four.
fn has_elements(range: Range, unit: u32) -> bool
    ensures { MatchBool result (AreElements range unit) (AreElements range unit → ⊥) }
{
    (unit == 2 || unit == 4) && size(range) % (4 * unit as u64) == 0
}

// The work of a clear, of whole elements of two or four words.
fn clear(words: &mut Words<'_>) -> Option<Work>
    ensures { TakesWork (codes "clear") words.old words.new result }
{
    let memory = four_words(words)?;
    let unit = words.small()?;
    words.key(b"w")?;
    let target = words.range()?;
    if !has_elements(target, unit) {
        return None;
    }
    Some(Work::Clear {
        target,
        words: memory,
        unit,
    })
}

// The counts of a dispatch, or where they lie.
fn groups(words: &mut Words<'_>) -> Option<Groups>
    ensures { TakesAll IsGroups groups_words words.old words.new result }
{
    if words.skip(b"at") {
        let at = words.range()?;
        if size(at) != 12 {
            return None;
        }
        return Some(Groups::Indirect { at });
    }
    Some(Groups::Direct {
        x: words.small()?,
        y: words.small()?,
        z: words.small()?,
    })
}

// The next slot, if one is there: it stands at least at `least` and has whole words.
fn next_slot(words: &mut Words<'_>, least: u32) -> Option<Option<SlotRange>>
    ensures { MatchOption result (NoSlots least words.old) (IsNext least words.old words.new) }
{
    let Some(word) = words.peek() else {
        return Some(None);
    };
    let Some(slot) = slot_name(word) else {
        return Some(None);
    };
    words.next();
    let range = words.range()?;
    let found = SlotRange { slot, range };
    if !may_stand(found, least) {
        return None;
    }
    Some(Some(found))
}

// Whether a slot stands at least at `least` and has whole words.
fn may_stand(found: SlotRange, least: u32) -> bool
    ensures { MatchBool result (MayStand least found) (MayStand least found → ⊥) }
{
    rank(found.slot) >= least && size(found.range) % 4 == 0
}

// The slots of a dispatch, which rise: constants, then SRVs, then UAVs.
fn slots(alloc: Global, words: &mut Words<'_>) -> Result<SlotList, Stop>
    ensures found { IfOk result (ReadsSlots words.old words.new) }
    ensures bad { IfErr result (λ e. WhenBad e (NoSlots 0 words.old)) }
{
    let mut slots = Vec::new(alloc);
    let mut least = 0;
    'slots: loop {
        let Some(next) = next_slot(words, least) else {
            return Err(Stop::Bad);
        };
        let Some(slot) = next else {
            return Ok(SlotList::new(slots));
        };
        least = rank(slot.slot) + 1;
        if slots.push(slot).is_err() {
            return Err(Stop::NoMemory);
        }
    }
}

// The work of a dispatch.
fn dispatch(alloc: Global, words: &mut Words<'_>) -> Result<Work, Stop>
    ensures found { IfOk result (ReadsWork (codes "dispatch") words.old words.new) }
    ensures bad { IfErr result (λ e. WhenBad e (NoWork (codes "dispatch") words.old)) }
{
    let Some(shader) = words.shader() else {
        return Err(Stop::Bad);
    };
    let Some(groups) = groups(words) else {
        return Err(Stop::Bad);
    };
    let slots = slots(alloc, words)?;
    Ok(Work::Dispatch {
        shader,
        groups,
        slots,
    })
}

/// The work of this kind.
pub(crate) fn work(alloc: Global, kind: WorkKind, words: &mut Words<'_>) -> Result<Work, Stop>
    ensures found { IfOk result (ReadsWork (work_kind_name kind) words.old words.new) }
    ensures bad { IfErr result (λ e. WhenBad e (NoWork (work_kind_name kind) words.old)) }
{
    let found = match kind {
        WorkKind::Copy => copy(words),
        WorkKind::Fill => fill(words),
        WorkKind::Clear => clear(words),
        WorkKind::Dispatch => return dispatch(alloc, words),
    };
    found.ok_or(Stop::Bad)
}
