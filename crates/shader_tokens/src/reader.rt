// What the decoder knows of the items so far, and how it takes one more.

ghost use Rattle.std.specs.Prelude.{◌≡◌, ◌≢◌, ◌≤◌, ◌<◌, ◌+◌, List, ℕ, [], true, false, None, length, slice_index, ◌==◌, if◌then◌else◌, OnOk};
ghost use Rattle.std.specs.List.{cons_option};
ghost use Rattle.shader_model.specs.declared.statement.Statement as statement_;
ghost use Rattle.shader_model.specs.declared.fault.ShaderKind.TheVariants as kind;
ghost use Rattle.shader_model.specs.declared.opcode.Access as access_;
ghost use Rattle.shader_model.specs.declared.opcode.Kind.TheVariants.{Destination, Source, SlotWord};
ghost use Rattle.base_lemmas.specs.ByteWords.{words_of};
ghost use Rattle.shader_model.specs.Opcodes as table;
ghost use Rattle.shader_model.specs.Items as items;
ghost use Rattle.shader_model.specs.Fields as fields;
ghost use Rattle.shader_model.specs.Nesting.{spelled};
ghost use Rattle.shader_model.specs.Faults.{first_broken, first_word_rules, declaration_rules, instruction_rules, operand_rules, item_fault, temps_of, fault_at, placed};
ghost use Rattle.shader_tokens.specs.Levels.{seen};
ghost use Rattle.shader_tokens.specs.Decoding.{IfBad, item_of, walks, first_part, parts_at, rules_of, said, and_said, and_declared, and_blocks, nothing_said};
ghost use Rattle.dx_types.specs.declared.limits.TheConstants.{MAX_SHADER_WORDS};

use crate::end::ShaderEnd;
use crate::gather::{slot_use_of, statement_of};
use crate::item::{Item, declares, has_its_length, opcode, operand_more, source_more};
use crate::levels::Levels;
use crate::nesting::{StepEnd, step};
use crate::rules::{
    declared_among, fault, is_destination, is_group, is_relative, is_source, lacks_register,
    takes_extra, takes_parameter, takes_slot, used_as,
};
use crate::table::{find_row, kinds};
use crate::words::{behind, bits, front, word};
use dx_types::Form;
use dx_types::limits::{CONSTANT_SLOTS, MAX_TEMPORARIES, SRV_SLOTS, UAV_SLOTS};
use shader_model::{Access, Declared, Kind, Row, ShaderFault, ShaderKind, Statement};
use std::alloc::{AllocError, Global};

/// The items so far: the slots that they declare, in order, the number of temporaries if one is said, whether
/// there is an item and whether there is an instruction, and the tree so far.
#[derive(Drop)]
pub struct Reader {
    pub declared: Vec<Declared>,
    pub temps: Option<u32>,
    pub any: bool,
    pub begun: bool,
    pub levels: Levels,
}

impl Reader {
    pub fn new(alloc: Global) -> Reader
        ensures says { said result ≡ nothing_said }
        ensures seen { (later : List statement_.Statement) → seen result.levels (spelled later) ≡ spelled later }
    {
        Reader {
            declared: Vec::new(alloc),
            temps: None,
            any: false,
            begun: false,
            levels: Levels::new(alloc),
        }
    }

    /// The number of temporaries, 0 where none is said.
    fn temps(&self) -> u32
        ensures { result ≡ temps_of (said self.now) }
    {
        self.temps.unwrap_or(0)
    }

    /// The first rule of an item's first word that is broken, but for its place.
    fn first_word_fault(&self, item: &Item<'_>) -> Option<ShaderFault>
        ensures { result ≡ first_broken (first_word_rules (said self.now) (item_of item.now)) }
    {
        let opcode = opcode(item.first);
        let is_declaration = declares(opcode).is_some();
        if !has_its_length(item) {
            Some(fault(item.at, ShaderKind::Length))
        } else if !self.any && opcode != 1 {
            Some(fault(item.at, ShaderKind::Group))
        } else if !is_declaration && find_row(opcode).is_none() {
            Some(fault(item.at, ShaderKind::Opcode))
        } else if is_declaration && self.begun {
            Some(fault(item.at, ShaderKind::Opcode))
        } else if opcode == 1 && self.any {
            Some(fault(item.at, ShaderKind::Opcode))
        } else if opcode == 2 && self.temps.is_some() {
            Some(fault(item.at, ShaderKind::Register))
        } else if !takes_extra(opcode, bits(16, 16, item.first)) {
            Some(fault(item.at, ShaderKind::Operand))
        } else {
            None
        }
    }

    /// The first rule of a declaration's further words that is broken.
    fn declaration_fault(&self, item: &Item<'_>) -> Option<ShaderFault>
        requires { item.now.at ≤ MAX_SHADER_WORDS }
        ensures { result ≡ first_broken (declaration_rules (said self.now) (item_of item.now)) }
    {
        let opcode = opcode(item.first);
        let first = word(item.more, 0);
        if opcode == 1 {
            if is_group(first, word(item.more, 1), word(item.more, 2)) {
                None
            } else {
                Some(fault(item.at + 1, ShaderKind::Group))
            }
        } else if opcode == 2 {
            if first > MAX_TEMPORARIES {
                Some(fault(item.at + 1, ShaderKind::Register))
            } else {
                None
            }
        } else {
            self.slot_fault(item)
        }
    }

    /// The first rule of a slot's declaration that is broken.
    fn slot_fault(&self, item: &Item<'_>) -> Option<ShaderFault>
        requires near { item.now.at ≤ MAX_SHADER_WORDS }
        requires no_group { items.opcode (item_of item.now) ≢ 1 }
        requires no_temps { items.opcode (item_of item.now) ≢ 2 }
        ensures { result ≡ first_broken (declaration_rules (said self.now) (item_of item.now)) }
    {
        let opcode = opcode(item.first);
        let slot = word(item.more, 0);
        let slots = match opcode {
            3 => CONSTANT_SLOTS as u32,
            4 => SRV_SLOTS as u32,
            _ => UAV_SLOTS as u32,
        };
        if slot >= slots || declared_among(opcode as u32, slot, &self.declared).is_some() {
            Some(fault(item.at + 1, ShaderKind::Slot))
        } else if opcode == 3 {
            None
        } else if word(item.more, 1) > 2 {
            Some(fault(item.at + 2, ShaderKind::Slot))
        } else if !takes_parameter(word(item.more, 1), word(item.more, 2)) {
            Some(fault(item.at + 3, ShaderKind::Slot))
        } else {
            None
        }
    }

    /// The first rule of an operand that is broken, where its words stand at a place.
    fn operand_fault(
        &self,
        kind: Kind,
        access: Access,
        at: u32,
        words: &[u8],
    ) -> Option<ShaderFault>
        requires { at ≤ MAX_SHADER_WORDS }
        ensures { result ≡ first_broken (operand_rules kind (said self.now) access (first_part kind at (words_of words.now))) }
    {
        let first = word(words, 0);
        match kind {
            Kind::Destination => self.destination_fault(at, first),
            Kind::Source => self.source_fault(
                at,
                first,
                front(behind(words, 1), source_more(first)),
            ),
            Kind::SlotWord => self.slot_word_fault(access, at, first),
        }
    }

    /// The first rule of a destination that is broken.
    fn destination_fault(&self, at: u32, first: u32) -> Option<ShaderFault>
        ensures { (a : access_.Access) (more : List ℕ) → result ≡ first_broken (operand_rules Destination (said self.now) a (record { kind = Destination; at = at; word = first; more = more })) }
    {
        if lacks_register(self.temps(), first) {
            Some(fault(at, ShaderKind::Register))
        } else if !is_destination(first) {
            Some(fault(at, ShaderKind::Operand))
        } else {
            None
        }
    }

    /// The first rule of a source that is broken, where `more` has the words that follow its first one.
    fn source_fault(&self, at: u32, first: u32, more: &[u8]) -> Option<ShaderFault>
        requires { at ≤ MAX_SHADER_WORDS }
        ensures { (a : access_.Access) → result ≡ first_broken (operand_rules Source (said self.now) a (record { kind = Source; at = at; word = first; more = words_of more.now })) }
    {
        let is_constant = bits(0, 4, first) == 2;
        let is_relative_here = is_constant && bits(12, 1, first) == 1;
        let temps = self.temps();
        if is_constant && declared_among(3, bits(16, 16, first), &self.declared).is_none() {
            Some(fault(at, ShaderKind::Slot))
        } else if lacks_register(temps, first) {
            Some(fault(at, ShaderKind::Register))
        } else if !is_source(first) {
            Some(fault(at, ShaderKind::Operand))
        } else if is_relative_here && lacks_register(temps, word(more, 1)) {
            Some(fault(at + 2, ShaderKind::Register))
        } else if is_relative_here && !is_relative(word(more, 1)) {
            Some(fault(at + 2, ShaderKind::Operand))
        } else {
            None
        }
    }

    /// The first rule of a slot word that is broken.
    fn slot_word_fault(&self, access: Access, at: u32, first: u32) -> Option<ShaderFault>
        ensures { (more : List ℕ) → result ≡ first_broken (operand_rules SlotWord (said self.now) access (record { kind = SlotWord; at = at; word = first; more = more })) }
    {
        let slot = slot_use_of(first);
        if !takes_slot(access, slot.writable, used_as(slot, &self.declared)) {
            Some(fault(at, ShaderKind::Slot))
        } else if bits(9, 23, first) != 0 {
            Some(fault(at, ShaderKind::Operand))
        } else {
            None
        }
    }

    /// The first rule of an instruction's operands that is broken.
    fn operands_fault(&self, row: &Row, item: &Item<'_>) -> Option<ShaderFault>
        requires near { item.now.at + length (words_of item.now.more.now) < MAX_SHADER_WORDS }
        requires fits { walks (table.kinds row.now.layout) (words_of item.now.more.now) ≡ true }
        ensures { result ≡ first_broken (rules_of (said self.now) row.now.access (parts_at (item.now.at + 1) (table.kinds row.now.layout) (words_of item.now.more.now))) }
    {
        let mut rest = item.more;
        let mut at = item.at + 1;
        for kind in kinds(row.layout) {
            let fault = self.operand_fault(*kind, row.access, at, rest);
            if fault.is_some() {
                return fault;
            }
            let more = operand_more(*kind, word(rest, 0));
            rest = behind(behind(rest, 1), more);
            at = at + 1 + more as u32;
        }
        None
    }

    /// Takes a declaration whose first word is good.
    fn declaration(&mut self, item: &Item<'_>) -> Result<(), ShaderEnd>
        requires near { item.now.at ≤ MAX_SHADER_WORDS }
        requires declares { items.is_declaration (item_of item.now) ≡ true }
        ensures bad { IfBad result (λ f. first_broken (declaration_rules (said self.old) (item_of item.now)) ≡ Some f) }
        ensures good { OnOk result (first_broken (declaration_rules (said self.old) (item_of item.now)) ≡ None) }
        ensures says { OnOk result (said self.new ≡ and_said (item_of item.now) (said self.old)) }
        ensures levels { OnOk result (self.new.levels ≡ self.old.levels) }
    {
        if let Some(fault) = self.declaration_fault(item) {
            return Err(ShaderEnd::Bad(fault));
        }
        self.declare(declared_of(item))?;
        self.temps = temps_said(item, self.temps);
        self.any = true;
        Ok(())
    }

    /// Adds a slot to those declared, if there is one.
    fn declare(&mut self, declared: Option<Declared>) -> Result<(), AllocError>
        ensures says { OnOk result (said self.new ≡ record (said self.old) { declared = and_declared declared (said self.old).declared }) }
        ensures levels { OnOk result (self.new.levels ≡ self.old.levels) }
    {
        if let Some(declared) = declared {
            self.declared.push(declared)?;
        }
        Ok(())
    }

    /// Puts a statement in its place, if there is one.
    fn place(
        &mut self,
        alloc: Global,
        at: u32,
        statement: &Option<Statement>,
    ) -> Result<(), ShaderEnd>
        ensures bad { IfBad result (λ f. (f ≡ fault_at at kind.Nesting) × (placed statement.now (said self.old).blocks ≡ false)) }
        ensures good { OnOk result (placed statement.now (said self.old).blocks ≡ true) }
        ensures says { OnOk result (said self.new ≡ record (said self.old) { blocks = and_blocks statement.now (said self.old).blocks }) }
        ensures spells { OnOk result ((later : List statement_.Statement) → seen self.new.levels (spelled later) ≡ seen self.old.levels (spelled (cons_option statement.now later))) }
    {
        let Some(statement) = statement else {
            return Ok(());
        };
        match step(&mut self.levels, alloc, statement) {
            Ok(()) => Ok(()),
            Err(StepEnd::Misplaced) => Err(ShaderEnd::Bad(fault(at, ShaderKind::Nesting))),
            Err(StepEnd::NoMemory) => Err(ShaderEnd::NoMemory),
        }
    }

    /// Takes an instruction whose first word is good but for its place.
    fn instruction(&mut self, alloc: Global, item: &Item<'_>) -> Result<(), ShaderEnd>
        requires near { item.now.at + length (words_of item.now.more.now) < MAX_SHADER_WORDS }
        requires no_declaration { items.is_declaration (item_of item.now) ≡ false }
        requires known { items.is_known (item_of item.now) ≡ true }
        requires whole { items.has_its_length (item_of item.now) ≡ true }
        ensures bad { IfBad result (λ f. first_broken (instruction_rules (said self.old) (item_of item.now)) ≡ Some f) }
        ensures good { OnOk result (first_broken (instruction_rules (said self.old) (item_of item.now)) ≡ None) }
        ensures says { OnOk result (said self.new ≡ and_said (item_of item.now) (said self.old)) }
        ensures spells { OnOk result ((later : List statement_.Statement) → seen self.new.levels (spelled later) ≡ seen self.old.levels (spelled (cons_option (fields.statement_of (item_of item.now)) later))) }
    {
        let Some(row) = find_row(opcode(item.first)) else {
            unreachable!()
        };
        self.place(alloc, item.at, &statement_of(&row, item))?;
        if let Some(fault) = self.operands_fault(&row, item) {
            return Err(ShaderEnd::Bad(fault));
        }
        self.any = true;
        self.begun = true;
        Ok(())
    }

    /// Takes one more item, or names its first fault.
    pub fn item(&mut self, alloc: Global, item: &Item<'_>) -> Result<(), ShaderEnd>
        requires { item.now.at + length (words_of item.now.more.now) < MAX_SHADER_WORDS }
        ensures bad { IfBad result (λ f. item_fault (said self.old) (item_of item.now) ≡ Some f) }
        ensures good { OnOk result (item_fault (said self.old) (item_of item.now) ≡ None) }
        ensures says { OnOk result (said self.new ≡ and_said (item_of item.now) (said self.old)) }
        ensures spells { OnOk result ((later : List statement_.Statement) → seen self.new.levels (spelled later) ≡ seen self.old.levels (spelled (cons_option (fields.statement_of (item_of item.now)) later))) }
    {
        if let Some(fault) = self.first_word_fault(item) {
            return Err(ShaderEnd::Bad(fault));
        }
        if declares(opcode(item.first)).is_some() {
            self.declaration(item)
        } else {
            self.instruction(alloc, item)
        }
    }
}

/// The number of temporaries where this item stands behind those that say so many.
fn temps_said(item: &Item<'_>, before: Option<u32>) -> Option<u32>
    ensures { result ≡ (if items.opcode (item_of item.now) == 2 then Some (slice_index (words_of item.now.more.now) 0) else before) }
{
    if opcode(item.first) == 2 {
        Some(word(item.more, 0))
    } else {
        before
    }
}

/// The form of a number: 0 raw, 1 structured, 2 typed.
fn form_of(number: u32) -> Form
    ensures { result ≡ fields.form_of number }
{
    match number {
        0 => Form::Raw,
        1 => Form::Structured,
        _ => Form::Typed,
    }
}

/// The slot that an item declares.
fn declared_of(item: &Item<'_>) -> Option<Declared>
    requires { fields.declared_of (item_of item.now) ≢ None → slice_index (words_of item.now.more.now) 0 < 256 }
    ensures { result ≡ fields.declared_of (item_of item.now) }
{
    let opcode = opcode(item.first);
    if opcode == 3 {
        Some(Declared {
            opcode,
            slot: word(item.more, 0) as u8,
            form: Form::Raw,
            parameter: 0,
        })
    } else if opcode == 4 || opcode == 5 {
        Some(Declared {
            opcode,
            slot: word(item.more, 0) as u8,
            form: form_of(word(item.more, 1)),
            parameter: word(item.more, 2),
        })
    } else {
        None
    }
}
