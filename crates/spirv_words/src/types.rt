// The types of the profile.

ghost use Rattle.std.specs.Prelude.{◌≡◌, option_map};
ghost use Rattle.spirv_model.specs.View.{shown};
ghost use Rattle.spirv_words.specs.Known.{history};
ghost use Rattle.spirv_model.specs.Types as types;
ghost use Rattle.spirv_model.specs.Types.{made_as};

use crate::known::Known;
use spirv_model::Op;
use spirv_model::storage_classes::{FUNCTION, INPUT, PUSH_CONSTANT, STORAGE_BUFFER};

/// Whether there is an instruction, which declares the type of words.
pub fn is_word(op: Option<Op<'_>>) -> bool
    ensures { result ≡ made_as types.is_word (option_map shown op.entry) }
{
    match op {
        Some(Op::TypeInt { .. }) => true,
        _ => false,
    }
}

/// Whether there is an instruction, which declares the type of truths.
pub fn is_truth(op: Option<Op<'_>>) -> bool
    ensures { result ≡ made_as types.is_truth (option_map shown op.entry) }
{
    match op {
        Some(Op::TypeBool { .. }) => true,
        _ => false,
    }
}

/// Whether an instruction declares a vector.
pub fn is_vector(op: Op<'_>) -> bool
    ensures { result ≡ types.is_vector (shown op.entry) }
{
    match op {
        Op::TypeVector { .. } => true,
        _ => false,
    }
}

/// Whether there is an instruction, which declares a runtime array.
pub fn is_array(op: Option<Op<'_>>) -> bool
    ensures { result ≡ made_as types.is_array (option_map shown op.entry) }
{
    match op {
        Some(Op::TypeRuntimeArray { .. }) => true,
        _ => false,
    }
}

impl Known<'_> {
    /// Whether a type is the block of a buffer: its one member is a runtime array.
    fn is_buffer_block(&self, op: Op<'_>) -> bool
        ensures { result ≡ types.is_buffer_block (history self.now) (shown op.entry) }
    {
        match op {
            Op::TypeStruct { members, .. } => match members {
                [member] => is_array(self.maker(*member)),
                _ => false,
            },
            _ => false,
        }
    }

    /// Whether each of these ids is the type of words.
    fn are_words(&self, ids: &[u32]) -> bool
        ensures { result ≡ types.all_words (history self.now) ids.now }
    {
        let mut rest = ids;
        'ids: while let [id, more @ ..] = rest {
            if !is_word(self.maker(*id)) {
                return false;
            }
            rest = more;
        }
        true
    }

    /// Whether a type is a block of push constants: each member is a word.
    fn is_word_block(&self, op: Op<'_>) -> bool
        ensures { result ≡ types.is_word_block (history self.now) (shown op.entry) }
    {
        match op {
            Op::TypeStruct { members, .. } => self.are_words(members),
            _ => false,
        }
    }

    /// Whether a type is the two halves of a product.
    pub fn is_pair(&self, op: Op<'_>) -> bool
        ensures { result ≡ types.is_pair (history self.now) (shown op.entry) }
    {
        match op {
            Op::TypeStruct { members, .. } => match members {
                [low, high] => is_word(self.maker(*low)) && is_word(self.maker(*high)),
                _ => false,
            },
            _ => false,
        }
    }

    /// Whether a pointer of a class may point to a type.
    pub fn may_point(&self, class: u32, op: Op<'_>) -> bool
        ensures { result ≡ types.may_point (history self.now) class (shown op.entry) }
    {
        match class {
            INPUT => is_word(Some(op)) || is_vector(op),
            FUNCTION => is_word(Some(op)),
            PUSH_CONSTANT => is_word(Some(op)) || self.is_word_block(op),
            _ => is_word(Some(op)) || self.is_buffer_block(op),
        }
    }

    /// Whether a variable of a class may hold a type: of a buffer or of push constants it holds a whole block.
    pub fn may_hold(&self, class: u32, op: Op<'_>) -> bool
        ensures { result ≡ types.may_hold (history self.now) class (shown op.entry) }
    {
        match class {
            PUSH_CONSTANT => self.is_word_block(op),
            STORAGE_BUFFER => self.is_buffer_block(op),
            _ => self.may_point(class, op),
        }
    }

    /// Whether a type is a pointer of this class to a word.
    pub fn points_to_word(&self, of_class: u32, op: Op<'_>) -> bool
        ensures { result ≡ types.is_pointer (history self.now) of_class types.is_word (shown op.entry) }
    {
        match op {
            Op::TypePointer { class, pointee, .. } => class == of_class
                && is_word(self.maker(pointee)),
            _ => false,
        }
    }
}
