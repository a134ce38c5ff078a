// Values, their types, and what these are made of.

ghost use Rattle.std.specs.Prelude.{◌≡◌, Some, option_map};
ghost use Rattle.spirv_model.specs.View.{shown};
ghost use Rattle.spirv_words.specs.Known.{history};
ghost use Rattle.spirv_model.specs.History as results;
ghost use Rattle.spirv_model.specs.Values as values;

use crate::known::Known;
use crate::types::is_array;
use spirv_model::Op;
use spirv_model::storage_classes::FUNCTION;

/// The id of the type of an instruction's value.
pub fn value_type(op: Op<'_>) -> Option<u32>
    ensures { result ≡ results.value_type (shown op.entry) }
{
    match op {
        Op::Constant { result_type, .. }
        | Op::Variable { result_type, .. }
        | Op::Load { result_type, .. }
        | Op::AccessChain { result_type, .. }
        | Op::CompositeExtract { result_type, .. }
        | Op::Unary { result_type, .. }
        | Op::Binary { result_type, .. }
        | Op::Select { result_type, .. }
        | Op::Atomic { result_type, .. }
        | Op::AtomicCompareExchange { result_type, .. } => Some(result_type),
        _ => None,
    }
}

/// Whether there are two ids, which are the same.
pub fn is_type(id: Option<u32>, other: Option<u32>) -> bool
    ensures { result ≡ values.is_type id other }
{
    match (id, other) {
        (Some(id), Some(other)) => id == other,
        _ => false,
    }
}

/// What a pointer's type points to.
fn pointee(op: Option<Op<'_>>) -> Option<u32>
    ensures { result ≡ values.pointee (option_map shown op.entry) }
{
    match op {
        Some(Op::TypePointer { pointee, .. }) => Some(pointee),
        _ => None,
    }
}

/// Whether a type is a pointer of this class.
fn class_is(of_class: u32, op: Op<'_>) -> bool
    ensures { result ≡ values.class_is of_class (shown op.entry) }
{
    match op {
        Op::TypePointer { class, .. } => class == of_class,
        _ => false,
    }
}

/// How many members a structure has.
pub fn member_count(op: Option<Op<'_>>) -> usize
    ensures { result ≡ values.member_count (option_map shown op.entry) }
{
    match op {
        Some(Op::TypeStruct { members, .. }) => members.len(),
        _ => 0,
    }
}

/// The type of each component of a vector or half of a product.
pub fn component(op: Option<Op<'_>>) -> Option<u32>
    ensures { result ≡ values.component (option_map shown op.entry) }
{
    match op {
        Some(Op::TypeVector { component, .. }) => Some(component),
        Some(Op::TypeStruct { members, .. }) => match members {
            [low, _] => Some(*low),
            _ => None,
        },
        _ => None,
    }
}

/// How many components a vector has, or halves a product.
pub fn component_count(op: Option<Op<'_>>) -> u32
    ensures { result ≡ values.component_count (option_map shown op.entry) }
{
    match op {
        Some(Op::TypeVector { count, .. }) => count,
        Some(Op::TypeStruct { members, .. }) => match members {
            [_, _] => 2,
            _ => 0,
        },
        _ => 0,
    }
}

impl<'a> Known<'a> {
    /// The type of the value that an instruction gives.
    pub fn type_given(&self, op: Option<Op<'a>>) -> Option<Op<'a>>
        ensures { option_map shown result ≡ values.type_given (history self.now) (option_map shown op.entry) }
    {
        match op {
            None => None,
            Some(op) => match value_type(op) {
                None => None,
                Some(id) => self.maker(id),
            },
        }
    }

    /// What the value of an instruction points to.
    pub fn value_pointee(&self, op: Option<Op<'a>>) -> Option<u32>
        ensures { result ≡ values.value_pointee (history self.now) (option_map shown op.entry) }
    {
        pointee(self.type_given(op))
    }

    /// What the type of an id points to.
    pub fn pointee_of(&self, id: u32) -> Option<u32>
        ensures { result ≡ values.pointee (results.maker id (history self.now)) }
    {
        pointee(self.maker(id))
    }

    /// Whether a variable may have this class where it stands, and a type.
    pub fn is_variable_class(&self, class: u32, op: Option<Op<'_>>) -> bool
        ensures { result ≡ values.variable_class (history self.now) class (option_map shown op.entry) }
    {
        match op {
            None => false,
            Some(op) => class_is(class, op) && self.in_function() == (class == FUNCTION),
        }
    }

    /// Whether a type is a pointer to what a variable of its class may hold.
    pub fn is_variable_type(&self, op: Op<'_>) -> bool
        ensures { result ≡ values.is_variable_type (history self.now) (shown op.entry) }
    {
        match op {
            Op::TypePointer { class, pointee, .. } => match self.maker(pointee) {
                None => false,
                Some(op) => self.may_hold(class, op),
            },
            _ => false,
        }
    }

    /// How many indexes take a block apart to a word.
    pub fn depth(&self, op: Option<Op<'_>>) -> usize
        ensures { result ≡ values.depth (history self.now) (option_map shown op.entry) }
    {
        match op {
            Some(Op::TypeStruct { members, .. }) => match members {
                [member] => { if is_array(self.maker(*member)) { 2 } else { 1 } }
                _ => 1,
            },
            _ => 0,
        }
    }

    fn type_pointed(&self, op: Option<Op<'_>>) -> Option<Op<'a>>
        ensures { option_map shown result ≡ values.type_pointed (history self.now) (option_map shown op.entry) }
    {
        match op {
            Some(Op::TypePointer { pointee, .. }) => self.maker(pointee),
            _ => None,
        }
    }

    /// The block that a variable holds.
    pub fn block_of(&self, op: Option<Op<'_>>) -> Option<Op<'a>>
        ensures { option_map shown result ≡ values.block_of (history self.now) (option_map shown op.entry) }
    {
        match op {
            Some(Op::Variable { result_type, .. }) => self.type_pointed(self.maker(result_type)),
            _ => None,
        }
    }

    /// Whether an instruction is a variable in the class of a pointer's type.
    pub fn is_in_class_of(&self, id: u32, op: Op<'_>) -> bool
        ensures { result ≡ values.same_class (history self.now) id (shown op.entry) }
    {
        match op {
            Op::Variable { class, .. } => match self.maker(id) {
                None => false,
                Some(pointer) => class_is(class, pointer),
            },
            _ => false,
        }
    }
}
