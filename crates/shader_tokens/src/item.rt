// An item of a shader, a declaration or an instruction, and whether it has the words that its operands take.

ghost use Rattle.std.specs.Prelude.{◌≡◌, length};
ghost use Rattle.shader_model.specs.Words as words;
ghost use Rattle.base_lemmas.specs.ByteWords.{words_of};
ghost use Rattle.shader_model.specs.Items as items;
ghost use Rattle.shader_tokens.specs.Decoding.{item_of, walks};

use crate::table::{find_row, kinds};
use crate::words::{behind, bits, len, word};
use shader_model::Kind;

/// The place of an item's first word, that word, and the bytes of the words after it.
#[derive(Clone, Copy)]
pub struct Item<'a> {
    pub at: u32,
    pub first: u32,
    pub more: &'a [u8],
}

/// The opcode of an item's first word.
pub fn opcode(first: u32) -> u8
    ensures { result ≡ words.opcode_in first }
{
    bits(0, 8, first) as u8
}

/// How many words an item's first word says that it has.
pub fn count(first: u32) -> usize
    ensures { result ≡ words.count_in first }
{
    bits(8, 8, first) as usize
}

/// How many words a declaration has after its first, None where the opcode is none of a declaration.
pub fn declares(opcode: u8) -> Option<usize>
    ensures { result ≡ items.declares opcode }
{
    match opcode {
        1 | 4 | 5 => Some(3),
        2 | 3 => Some(1),
        _ => None,
    }
}

/// How many words follow a source's first one: an immediate's four, a constant's vector and its relative index.
pub fn source_more(word: u32) -> usize
    ensures { result ≡ items.source_more word }
{
    match bits(0, 4, word) {
        1 => 4,
        2 if bits(12, 1, word) == 1 => 2,
        2 => 1,
        _ => 0,
    }
}

/// How many words follow an operand's first one.
pub fn operand_more(kind: Kind, word: u32) -> usize
    ensures { result ≡ items.more_of kind word }
{
    match kind {
        Kind::Source => source_more(word),
        Kind::Destination => 0,
        Kind::SlotWord => 0,
    }
}

/// Whether these words are operands of these kinds, no more and no fewer.
pub fn fits(kinds: &[Kind], words: &[u8]) -> bool
    ensures { result ≡ walks kinds.now (words_of words.now) }
{
    let mut rest = words;
    for kind in kinds {
        if rest.len() < 4 {
            return false;
        }
        let more = operand_more(*kind, word(rest, 0));
        let next = behind(rest, 1);
        if more > len(next) {
            return false;
        }
        rest = behind(next, more);
    }
    len(rest) == 0
}

/// Whether an item is there, and its words are what its operands take; an unknown opcode takes any.
pub fn has_its_length(item: &Item<'_>) -> bool
    ensures { result ≡ items.has_its_length (item_of item.now) }
{
    let count = count(item.first);
    if count == 0 || len(item.more) != count - 1 {
        return false;
    }
    let opcode = opcode(item.first);
    match declares(opcode) {
        Some(words) => len(item.more) == words,
        None => match find_row(opcode) {
            None => true,
            Some(row) => fits(kinds(row.layout), item.more),
        },
    }
}
