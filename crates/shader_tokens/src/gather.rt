// From an instruction's words to its statement.

ghost use Rattle.std.specs.Prelude.{◌≡◌, true, List, slice_index};
ghost use Rattle.base_lemmas.specs.ByteWords.{words_of};
ghost use Rattle.shader_model.specs.Items.{Part, more_of};
ghost use Rattle.shader_model.specs.Items as items;
ghost use Rattle.shader_model.specs.Opcodes as table;
ghost use Rattle.shader_model.specs.Opcodes.{row_of};
ghost use Rattle.shader_model.specs.Fields as fields;
ghost use Rattle.shader_tokens.specs.Decoding.{item_of, walks, first_part, parts_at, nothing, and_target, and_source, and_slot, and_kind, gathered};

use crate::item::{Item, opcode, source_more};
use crate::table::kinds;
use crate::words::{behind, bits, front, word};
use shader_model::{Instr, Kind, Operand, Role, Row, SlotUse, Statement, Target, Test};

/// The operands of an instruction: its destinations, its slot and its sources, each in order.
#[derive(Clone, Copy)]
pub struct Gathered {
    pub first: Option<Target>,
    pub second: Option<Target>,
    pub slot: Option<SlotUse>,
    pub sources: [Option<Operand>; 4],
    pub count: usize,
}

/// No operand.
fn nothing() -> Gathered
    ensures { result ≡ nothing }
{
    Gathered {
        first: None,
        second: None,
        slot: None,
        sources: [None; 4],
        count: 0,
    }
}

/// The destination that a word says.
fn target_of(word: u32) -> Target
    ensures { result ≡ fields.target_of word }
{
    Target {
        file: bits(0, 4, word) as u8,
        mask: bits(4, 4, word) as u8,
        index: bits(16, 16, word) as u16,
    }
}

/// The source that a word and those after it say.
fn operand_of(first: u32, more: &[u8]) -> Operand
    ensures { result ≡ fields.operand_of first (words_of more.now) }
{
    Operand {
        file: bits(0, 4, first) as u8,
        swizzle: bits(4, 8, first) as u8,
        flag: bits(12, 1, first) == 1,
        index: bits(16, 16, first) as u16,
        words: [word(more, 0), word(more, 1), word(more, 2), word(more, 3)],
    }
}

/// The slot that a word says.
pub fn slot_use_of(word: u32) -> SlotUse
    ensures { result ≡ fields.slot_use_of word }
{
    SlotUse {
        slot: bits(0, 8, word) as u8,
        writable: bits(8, 1, word) == 1,
    }
}

impl Gathered {
    fn add_target(&mut self, target: Target)
        ensures { self.new ≡ and_target target self.old }
    {
        if self.first.is_none() {
            self.first = Some(target);
        } else if self.second.is_none() {
            self.second = Some(target);
        }
    }

    fn add_source(&mut self, source: Operand)
        ensures { self.new ≡ and_source source self.old }
    {
        if self.count < 4 {
            self.sources[self.count] = Some(source);
            self.count += 1;
        }
    }

    /// Adds the operand of a kind that stands first in these words, and says how many words follow its first one.
    fn add(&mut self, kind: Kind, words: &[u8]) -> usize
        ensures more { result ≡ more_of kind (slice_index (words_of words.now) 0) }
        ensures added { self.new ≡ and_kind kind (first_part kind 0 (words_of words.now)) self.old }
    {
        let first = word(words, 0);
        match kind {
            Kind::Destination => {
                self.add_target(target_of(first));
                0
            }
            Kind::Source => {
                let more = source_more(first);
                self.add_source(operand_of(first, front(behind(words, 1), more)));
                more
            }
            Kind::SlotWord => {
                self.add_slot(slot_use_of(first));
                0
            }
        }
    }

    fn add_slot(&mut self, slot: SlotUse)
        ensures { self.new ≡ and_slot slot self.old }
    {
        if self.slot.is_none() {
            self.slot = Some(slot);
        }
    }
}

/// The operands of these kinds that words say.
fn gather(kinds: &[Kind], words: &[u8]) -> Gathered
    requires { walks kinds.now (words_of words.now) ≡ true }
    ensures { result ≡ gathered nothing (parts_at 0 kinds.now (words_of words.now)) }
{
    let mut gathered = nothing();
    let mut rest = words;
    for kind in kinds {
        let more = gathered.add(*kind, rest);
        rest = behind(behind(rest, 1), more);
    }
    gathered
}

/// The statement of an instruction, with the row of its opcode.
pub fn statement_of(row: &Row, item: &Item<'_>) -> Option<Statement>
    requires is_row { row_of (items.opcode (item_of item.now)) ≡ Some row.now }
    requires fits { walks (table.kinds row.now.layout) (words_of item.now.more.now) ≡ true }
    ensures { result ≡ fields.statement_of (item_of item.now) }
{
    let operands = gather(kinds(row.layout), item.more);
    statement(row.role, item, &operands)
}

/// The statement of an instruction, by its role. An if without its source is none.
fn statement(role: Role, item: &Item<'_>, operands: &Gathered) -> Option<Statement>
    ensures { (ps : List Part) → operands.now ≡ gathered nothing ps → result ≡ fields.statement_by role (item_of item.now) ps }
{
    let source = operands.sources[0];
    match role {
        Role::Plain => Some(Statement::Plain(instr(item, operands))),
        Role::If(nonzero) => match source {
            Some(value) => Some(Statement::If(Test { value, nonzero })),
            None => None,
        },
        Role::Else => Some(Statement::Else),
        Role::Endif => Some(Statement::Endif),
        Role::Loop => Some(Statement::Loop),
        Role::Endloop => Some(Statement::Endloop),
        Role::Break(test) => Some(Statement::Break(tested(test, source))),
        Role::Continue(test) => Some(Statement::Continue(tested(test, source))),
        Role::Return(test) => Some(Statement::Return(tested(test, source))),
    }
}

/// The test of a source, where there is a test.
fn tested(test: Option<bool>, source: Option<Operand>) -> Option<Test>
    ensures { (ps : List Part) → source ≡ fields.nth (fields.sources ps) 0 → result ≡ fields.maybe_test test ps }
{
    match (test, source) {
        (Some(nonzero), Some(value)) => Some(Test { value, nonzero }),
        _ => None,
    }
}

/// A plain instruction with its operands.
fn instr(item: &Item<'_>, operands: &Gathered) -> Instr
    ensures { (ps : List Part) → operands.now ≡ gathered nothing ps → result ≡ fields.instr_of (item_of item.now) ps }
{
    Instr {
        opcode: opcode(item.first),
        extra: bits(16, 16, item.first) as u16,
        first: operands.first,
        second: operands.second,
        slot: operands.slot,
        sources: operands.sources,
    }
}
