//! The table of the kinds of call.

ghost use Rattle.std.specs.Prelude.{◌≡◌, ℕ, Some, map, slice_get, MatchOption};
ghost use Rattle.std.specs.Option.{option_map};
ghost use Rattle.call_log.specs.Kinds as table;
ghost use Rattle.call_log.specs.Kinds.{kind_view, kinds, kind_numbered, before, numbers_of_length};

use crate::kinds::*;

macro_rules! kind {
    ($number:expr, $name:literal, $place:ident, $layout:expr, $sort:ident) => {
        Kind {
            number: $number,
            name: $name,
            place: Place::$place,
            layout: $layout,
            sort: Sort::$sort,
        }
    };
}

const KINDS: [Kind; 41] = [
    kind!(BUFFER, "buffer", OnDevice, Layout::Counted(6), Object),
    kind!(VIEW, "view", OnDevice, Layout::Words(7), Object),
    kind!(CREATE_SHADER, "shader", OnDevice, Layout::Tokens, Object),
    kind!(QUERY, "query", OnDevice, Layout::Words(2), Object),
    kind!(DESTROY, "destroy", OnDevice, Layout::Words(2), Object),
    kind!(SET_SHADER, "set-shader", OnEach, Layout::Words(1), Setting),
    kind!(
        SET_CONSTANT,
        "set-constant",
        OnEach,
        Layout::Words(2),
        Setting
    ),
    kind!(SET_SRV, "set-srv", OnEach, Layout::Words(2), Setting),
    kind!(SET_UAV, "set-uav", OnEach, Layout::Words(2), Setting),
    kind!(
        CLEAR_STATE,
        "clear-state",
        OnEach,
        Layout::Words(0),
        Setting
    ),
    kind!(DISPATCH, "dispatch", OnEach, Layout::Words(3), Command),
    kind!(
        DISPATCH_INDIRECT,
        "dispatch-indirect",
        OnEach,
        Layout::Words(2),
        Command
    ),
    kind!(
        COPY_REGION,
        "copy-region",
        OnEach,
        Layout::Words(5),
        Command
    ),
    kind!(COPY, "copy", OnEach, Layout::Words(2), Command),
    kind!(UPDATE, "update", OnEach, Layout::Counted(2), Command),
    kind!(CLEAR_UAV, "clear-uav", OnEach, Layout::Words(5), Command),
    kind!(
        SET_PREDICATION,
        "set-predication",
        OnEach,
        Layout::Words(4),
        Setting
    ),
    kind!(BEGIN, "begin", OnEach, Layout::Words(1), Command),
    kind!(END_QUERY, "end-query", OnEach, Layout::Words(1), Command),
    kind!(MAP_WRITE, "map-write", OnEach, Layout::Counted(3), Exchange),
    kind!(
        MAP_READ,
        "map-read",
        OnImmediate,
        Layout::Words(4),
        Exchange
    ),
    kind!(
        GET_DATA,
        "get-data",
        OnImmediate,
        Layout::Words(2),
        Exchange
    ),
    kind!(FLUSH, "flush", OnImmediate, Layout::Words(0), Exchange),
    kind!(
        FINISH_LIST,
        "finish-list",
        OnDeferred,
        Layout::Words(1),
        List
    ),
    kind!(
        EXECUTE_LIST,
        "execute-list",
        OnImmediate,
        Layout::Words(2),
        List
    ),
    kind!(64, "draw-64", OnEach, Layout::Free, Draw),
    kind!(65, "draw-65", OnEach, Layout::Free, Draw),
    kind!(66, "draw-66", OnEach, Layout::Free, Draw),
    kind!(67, "draw-67", OnEach, Layout::Free, Draw),
    kind!(68, "draw-68", OnEach, Layout::Free, Draw),
    kind!(69, "draw-69", OnEach, Layout::Free, Draw),
    kind!(70, "draw-70", OnEach, Layout::Free, Draw),
    kind!(71, "draw-71", OnEach, Layout::Free, Draw),
    kind!(72, "draw-72", OnEach, Layout::Free, Draw),
    kind!(73, "draw-73", OnEach, Layout::Free, Draw),
    kind!(74, "draw-74", OnEach, Layout::Free, Draw),
    kind!(75, "draw-75", OnEach, Layout::Free, Draw),
    kind!(76, "draw-76", OnEach, Layout::Free, Draw),
    kind!(77, "draw-77", OnEach, Layout::Free, Draw),
    kind!(78, "draw-78", OnEach, Layout::Free, Draw),
    kind!(79, "draw-79", OnEach, Layout::Free, Draw),
];

/// The kinds by rising number.
fn kinds() -> &'static [Kind]
    ensures { map kind_view result.now ≡ kinds }
{
    &KINDS
}

// How many numbers below this one, and itself, are those of no kind, where it is that of a kind.
fn before(number: u16) -> u16
    ensures { result ≡ before number }
{
    if number < 16 {
        1
    } else if number < 32 {
        11
    } else if number < 48 {
        22
    } else if number < 64 {
        29
    } else {
        39
    }
}

// The kind at a place of the table.
fn kind_at(place: usize) -> Option<Kind>
    ensures { option_map kind_view result ≡ slice_get kinds place }
{
    kinds().get(place).copied()
}

/// The kind of a number; none where no kind has it.
pub fn kind_numbered(number: u16) -> Option<Kind>
    ensures { option_map kind_view result ≡ kind_numbered number }
{
    let place = number.saturating_sub(before(number)) as usize;
    let Some(kind) = kind_at(place) else {
        return None;
    };
    if kind.number != number {
        return None;
    }
    Some(kind)
}

// The numbers of the kinds whose names are so long.
fn numbers_of_length(length: usize) -> &'static [u16]
    ensures { result.now ≡ numbers_of_length length }
{
    match length {
        4 => &[VIEW, COPY],
        5 => &[QUERY, BEGIN, FLUSH],
        6 => &[BUFFER, CREATE_SHADER, UPDATE],
        7 => &[
            DESTROY, SET_SRV, SET_UAV, 64, 65, 66, 67, 68, 69, 70, 71, 72, 73, 74, 75, 76, 77, 78,
            79,
        ],
        8 => &[DISPATCH, MAP_READ, GET_DATA],
        9 => &[CLEAR_UAV, END_QUERY, MAP_WRITE],
        10 => &[SET_SHADER],
        11 => &[CLEAR_STATE, COPY_REGION, FINISH_LIST],
        12 => &[SET_CONSTANT, EXECUTE_LIST],
        15 => &[SET_PREDICATION],
        17 => &[DISPATCH_INDIRECT],
        _ => &[],
    }
}

/// The kind of a name; none where no kind has it.
pub fn kind_named(name: &[u8]) -> Option<Kind>
    ensures { MatchOption result ((number : ℕ) (k : table.Kind) → kind_numbered number ≡ Some k → k.name ≡ name.now → ⊥) (λ k. (kind_numbered k.number ≡ Some (kind_view k)) × (k.name.now ≡ name.now)) }
{
    'numbers: for number in numbers_of_length(name.len()) {
        if let Some(kind) = kind_if_named(*number, name) {
            return Some(kind);
        }
    }
    None
}

// The kind of a number, if it has this name.
fn kind_if_named(number: u16, name: &[u8]) -> Option<Kind>
    ensures { MatchOption result ((k : table.Kind) → kind_numbered number ≡ Some k → k.name ≡ name.now → ⊥) (λ k. (kind_numbered number ≡ Some (kind_view k)) × (k.name.now ≡ name.now)) }
{
    let kind = kind_numbered(number)?;
    if kind.name.as_bytes() != name {
        return None;
    }
    Some(kind)
}
