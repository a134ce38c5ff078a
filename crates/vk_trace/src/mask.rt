//! The masks of barriers.

ghost use Rattle.std.specs.Prelude.{◌≡◌, ◌≢◌, ◌<◌, ℕ, List, [], ◌∷◌, ◌++◌, Option, Some, None, IsTrue, codes, MatchOption};
ghost use Rattle.std.specs.Bool.{MatchBool};
ghost use Rattle.vk_types.specs.declared.access.Access.{Access};
ghost use Rattle.vk_types.specs.declared.access.Mask.{Mask};
ghost use Rattle.vk_trace.specs.ListText.{IsAccess, IsMask, access_word, alike, listed, mask_word, part, parts, stage_parts};
ghost use Rattle.vk_trace.specs.Reading.{BadPart, HaveAccesses, IsPart, IsParts, split};
ghost use Rattle.text_words.specs.Words.{IsRead};

use crate::values::access;
use crate::words::Words;
use bitflags::Flags;
use vk_types::{Access, Mask};

/// A mask: `all:` and an access, or stages with their accesses and commas between them.
pub(crate) fn mask(word: &[u8]) -> Option<Mask>
    ensures { IsRead IsMask mask_word word.now result }
{
    let mut parts = Words::new(word, b',');
    let all = part(&mut parts, b"all:")?;
    let stages = stages(&mut parts)?;
    parts.end()?;
    whole(all, stages)
}

// The stages that are named one by one.
fn stages(parts: &mut Words<'_>) -> Option<Mask>
    ensures { IsParts parts.old parts.new result }
{
    Some(Mask {
        indirect: part(parts, b"indirect:")?,
        compute: part(parts, b"compute:")?,
        transfer: part(parts, b"transfer:")?,
        host: part(parts, b"host:")?,
    })
}

// The access behind a name, if the name is there; none where what stands behind it is no access.
fn part(parts: &mut Words<'_>, name: &[u8]) -> Option<Option<Access>>
    ensures { MatchOption result (BadPart name.now parts.old) (IsPart name.now parts.old parts.new) }
{
    let Some(word) = parts.peek() else {
        return Some(None);
    };
    let Some(rest) = after(name, word) else {
        return Some(None);
    };
    let access = access(rest)?;
    parts.next();
    Some(Some(access))
}

// What stands behind a text in front.
fn after<'a>(front: &[u8], text: &'a [u8]) -> Option<&'a [u8]>
    ensures { MatchOption result ((rest : List ℕ) → text.now ≡ front.now ++ rest → ⊥) (λ rest. text.now ≡ front.now ++ rest.now) }
{
    if text.starts_with(front) {
        return Some(&text[front.len()..]);
    }
    None
}

// The mask that is spelled by an access of all stages of the device, or by these stages.
fn whole(all: Option<Access>, stages: Mask) -> Option<Mask>
    requires all { IsAccess all }
    requires stages { HaveAccesses stages }
    ensures { MatchOption result ((m : Mask) → IsMask m → alike m ≡ all → listed m ≡ stages → ⊥) (λ m. IsMask m × (alike m ≡ all) × (listed m ≡ stages)) }
{
    let empty = is_empty(&stages);
    match all {
        Some(access) if empty => Some(Mask::device(access)),
        None if !empty && alike(&stages).is_none() => Some(stages),
        _ => None,
    }
}

// Whether no stage is named.
fn is_empty(mask: &Mask) -> bool
    ensures { MatchBool result (mask.now ≡ record { indirect = None; compute = None; transfer = None; host = None }) (stage_parts mask.now ≢ []) }
{
    mask.indirect.is_none()
        && mask.compute.is_none()
        && mask.transfer.is_none()
        && mask.host.is_none()
}

/// The access that the three stages of the device have alike, where the host isn't named.
pub(crate) fn alike(mask: &Mask) -> Option<Access>
    ensures { result ≡ alike mask.now }
{
    match (mask.indirect, mask.compute, mask.transfer, mask.host) {
        (Some(indirect), Some(compute), Some(transfer), None) => {
            let same = indirect.bits() == compute.bits() && compute.bits() == transfer.bits();
            if same { Some(indirect) } else { None }
        }
        _ => None,
    }
}
