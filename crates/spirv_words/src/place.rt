// Where in a module an instruction stands.

ghost use Rattle.std.specs.Prelude.{◌≡◌, List, [], ◌∷◌, Some, option_map};
ghost use Rattle.spirv_model.specs.Op as instruction_;
ghost use Rattle.spirv_model.specs.View.{shown};
ghost use Rattle.spirv_model.specs.History as history;
ghost use Rattle.spirv_model.specs.Sections as sections;
ghost use Rattle.spirv_words.specs.Latest.{latest};

use crate::merges::{pending, takes};
use crate::sections::{may_follow, section_of};
use spirv_model::{Op, Section};

/// The end of the instructions so far: the latest one, and what may stand behind it.
#[derive(Clone, Copy)]
pub struct Place<'a> {
    pub latest: Option<Op<'a>>,
    pub in_function: bool,
    pub in_block: bool,
    pub takes_variable: bool,
}

/// Whether a function was begun, behind an instruction more.
fn in_function_after(before: bool, op: Op<'_>) -> bool
    ensures { (h : List instruction_.Op) → before ≡ history.in_function h → result ≡ history.in_function (shown op.entry ∷ h) }
{
    match op {
        Op::Function { .. } => true,
        _ => before,
    }
}

/// Whether a block is open, behind an instruction more.
fn in_block_after(before: bool, op: Op<'_>) -> bool
    ensures { (h : List instruction_.Op) → before ≡ history.block_is_open h → result ≡ history.block_is_open (shown op.entry ∷ h) }
{
    match op {
        Op::Label { .. } => true,
        Op::Branch { .. }
        | Op::BranchConditional { .. }
        | Op::Return
        | Op::Function { .. }
        | Op::FunctionEnd => false,
        _ => before,
    }
}

/// Whether a variable of the function may stand behind an instruction and the one before it.
fn takes_variable_after(before: Option<Op<'_>>, op: Op<'_>) -> bool
    ensures { (h : List instruction_.Op) → option_map shown before.entry ≡ latest h → result ≡ sections.takes_variable (shown op.entry ∷ h) }
{
    match op {
        Op::Label { .. } => match before {
            Some(Op::Function { .. }) => true,
            _ => false,
        },
        Op::Variable { .. } => true,
        _ => false,
    }
}

impl<'a> Place<'a> {
    ghost use Rattle.spirv_words.specs.Kept.{IsPlace};
    ghost use Rattle.spirv_model.specs.Blocks.{in_block, has_block};
    ghost use Rattle.spirv_words.specs.Edges.{inside_block};

    /// Before all instructions.
    pub fn new() -> Place<'a>
        ensures { IsPlace result [] }
    {
        Place {
            latest: None,
            in_function: false,
            in_block: false,
            takes_variable: false,
        }
    }

    /// Behind an instruction more.
    pub fn after(&self, op: Op<'a>) -> Place<'a>
        ensures { (h : List instruction_.Op) → IsPlace self.now h → IsPlace result (shown op.entry ∷ h) }
    {
        Place {
            latest: Some(op),
            in_function: in_function_after(self.in_function, op),
            in_block: in_block_after(self.in_block, op),
            takes_variable: takes_variable_after(self.latest, op),
        }
    }

    /// Whether an instruction of the function stands inside of it.
    fn stands_inside(&self, op: Op<'_>) -> bool
        ensures { (h : List instruction_.Op) → IsPlace self.now h → result ≡ sections.stands_inside h (shown op.entry) }
    {
        match op {
            Op::Function { .. } => !self.in_function,
            Op::Variable { .. } => self.takes_variable,
            _ => self.in_function,
        }
    }

    /// Whether an instruction may stand directly behind the latest one.
    #[tactic(auto, using(crate::proofs::Places::in_order_behind))]
    fn may_follow(&self, before: Op<'_>, op: Op<'_>) -> bool
        ensures { (h : List instruction_.Op) → IsPlace self.now h → latest h ≡ Some (shown before.entry) → result ≡ sections.in_order h (shown op.entry) }
    {
        if let Op::FunctionEnd = before {
            return false;
        }
        let later = section_of(self.in_function, op);
        if !may_follow(section_of(self.in_function, before), later) {
            return false;
        }
        match later {
            Section::Body => self.stands_inside(op),
            _ => true,
        }
    }

    /// Whether an instruction stands where its section does.
    pub fn is_in_order(&self, op: Op<'_>) -> bool
        ensures { (h : List instruction_.Op) → IsPlace self.now h → result ≡ sections.in_order h (shown op.entry) }
    {
        match self.latest {
            None => match op {
                Op::Capability { .. } => true,
                _ => false,
            },
            Some(before) => self.may_follow(before, op),
        }
    }

    /// Whether the function has a block.
    fn has_block(&self) -> bool
        ensures { (h : List instruction_.Op) → IsPlace self.now h → result ≡ has_block h }
    {
        match self.latest {
            Some(Op::Function { .. }) => false,
            _ => true,
        }
    }

    /// Whether an instruction that begins and ends no block stands where it may.
    fn is_inside(&self, op: Op<'_>) -> bool
        ensures { (h : List instruction_.Op) → IsPlace self.now h → result ≡ inside_block h (shown op.entry) }
    {
        let taken = takes(pending(self.latest), op);
        match section_of(self.in_function, op) {
            Section::Body => self.in_block && taken,
            _ => taken,
        }
    }

    /// Whether an instruction stands in a block, or begins one or ends the function where it may.
    pub fn is_in_block(&self, op: Op<'_>) -> bool
        ensures { (h : List instruction_.Op) → IsPlace self.now h → result ≡ in_block h (shown op.entry) }
    {
        match op {
            Op::Function { .. } => true,
            Op::FunctionEnd => !self.in_block && self.has_block(),
            Op::Label { .. } => !self.in_block,
            _ => self.is_inside(op),
        }
    }
}
