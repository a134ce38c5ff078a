// The rules of a word: what an instruction's operand may be, after the instructions before it.

ghost use Rattle.std.specs.Prelude.{◌≡◌, ◌==◌, ◌||◌, ◌&&◌, nat_lt, true, Some, option_map};
ghost use Rattle.spirv_model.specs.declared.fault.ModuleKind.TheVariants as kinds;
ghost use Rattle.spirv_model.specs.View.{shown};
ghost use Rattle.spirv_words.specs.Known.{history, found};
ghost use Rattle.spirv_model.specs.History as results;
ghost use Rattle.spirv_model.specs.Types as types;
ghost use Rattle.spirv_model.specs.Values as values;
ghost use Rattle.spirv_model.specs.Operands as rules;

use crate::known::Known;
use crate::types::{is_array, is_truth, is_vector, is_word};
use crate::values::{component, is_type, value_type};
use crate::verdict::shape;
use spirv_model::storage_classes::{FUNCTION, PUSH_CONSTANT, STORAGE_BUFFER};
use spirv_model::{ModuleKind, Op};

// An id that was made before, by an instruction of which this holds.
macro_rules! made {
    ($known:ident, $id:ident, $op:ident => $holds:expr) => {
        match $known.find($id) {
            None => Some(ModuleKind::Ident),
            Some($op) => shape($holds),
        }
    };
}

impl<'a> Known<'a> {
    /// The instruction that makes an id below the bound.
    fn find(&self, id: u32) -> Option<Op<'a>>
        ensures { option_map shown result ≡ found self.now id }
    {
        if id < self.bound {
            self.maker(id)
        } else {
            None
        }
    }

    /// A result: an id that wasn't made before.
    pub fn result(&self, id: u32) -> Option<ModuleKind>
        ensures { result ≡ rules.result self.now.bound (history self.now) id }
    {
        if id >= self.bound {
            return Some(ModuleKind::Ident);
        }
        match self.maker(id) {
            None => None,
            Some(_) => Some(ModuleKind::Ident),
        }
    }

    /// An id that may be made later.
    pub fn later(&self, id: u32) -> Option<ModuleKind>
        ensures { result ≡ rules.later self.now.bound (history self.now) id }
    {
        if id < self.bound {
            None
        } else {
            Some(ModuleKind::Ident)
        }
    }

    /// The id of a type that isn't declared yet.
    pub fn new_type(&self, op: Op<'_>, id: u32) -> Option<ModuleKind>
        ensures { result ≡ rules.new_type self.now.bound (history self.now) (shown op.entry) id }
    {
        match self.result(id) {
            None => shape(!self.is_declared(op)),
            Some(kind) => Some(kind),
        }
    }

    // ## Types

    pub fn void_type(&self, id: u32) -> Option<ModuleKind>
        ensures { result ≡ rules.made self.now.bound (history self.now) types.is_void id }
    {
        made!(self, id, op => matches!(op, Op::TypeVoid { .. }))
    }

    pub fn function_type(&self, id: u32) -> Option<ModuleKind>
        ensures { result ≡ rules.made self.now.bound (history self.now) types.is_function_type id }
    {
        made!(self, id, op => matches!(op, Op::TypeFunction { .. }))
    }

    pub fn word_type(&self, id: u32) -> Option<ModuleKind>
        ensures { result ≡ rules.made self.now.bound (history self.now) types.is_word id }
    {
        made!(self, id, op => is_word(Some(op)))
    }

    pub fn truth_type(&self, id: u32) -> Option<ModuleKind>
        ensures { result ≡ rules.made self.now.bound (history self.now) types.is_truth id }
    {
        made!(self, id, op => is_truth(Some(op)))
    }

    /// The type of a load: words or a vector.
    pub fn loaded_type(&self, id: u32) -> Option<ModuleKind>
        ensures { result ≡ rules.made self.now.bound (history self.now) (λ o. types.is_word o || types.is_vector o) id }
    {
        made!(self, id, op => is_word(Some(op)) || is_vector(op))
    }

    /// The type of a choice: words or truths.
    pub fn chosen_type(&self, id: u32) -> Option<ModuleKind>
        ensures { result ≡ rules.made self.now.bound (history self.now) (λ o. types.is_word o || types.is_truth o) id }
    {
        made!(self, id, op => is_word(Some(op)) || is_truth(Some(op)))
    }

    /// The type of a structure's only member: words or a runtime array.
    pub fn only_member(&self, id: u32) -> Option<ModuleKind>
        ensures { result ≡ rules.made self.now.bound (history self.now) (λ o. types.is_word o || types.is_array o) id }
    {
        made!(self, id, op => is_word(Some(op)) || is_array(Some(op)))
    }

    /// The two halves of a product.
    pub fn pair_type(&self, id: u32) -> Option<ModuleKind>
        ensures { result ≡ rules.made self.now.bound (history self.now) (types.is_pair (history self.now)) id }
    {
        made!(self, id, op => self.is_pair(op))
    }

    /// A type to which a pointer of a class may point.
    pub fn pointed_type(&self, class: u32, id: u32) -> Option<ModuleKind>
        ensures { result ≡ rules.made self.now.bound (history self.now) (types.may_point (history self.now) class) id }
    {
        made!(self, id, op => self.may_point(class, op))
    }

    /// The type of a variable.
    pub fn variable_type(&self, id: u32) -> Option<ModuleKind>
        ensures { result ≡ rules.made self.now.bound (history self.now) (values.is_variable_type (history self.now)) id }
    {
        made!(self, id, op => self.is_variable_type(op))
    }

    // ## Values

    /// A value of this type.
    pub fn value(&self, of_type: Option<u32>, id: u32) -> Option<ModuleKind>
        ensures { result ≡ rules.value self.now.bound (history self.now) of_type id }
    {
        made!(self, id, op => is_type(value_type(op), of_type))
    }

    pub fn word(&self, id: u32) -> Option<ModuleKind>
        ensures { result ≡ rules.word self.now.bound (history self.now) id }
    {
        made!(self, id, op => is_word(self.type_given(Some(op))))
    }

    pub fn truth(&self, id: u32) -> Option<ModuleKind>
        ensures { result ≡ rules.truth self.now.bound (history self.now) id }
    {
        made!(self, id, op => is_truth(self.type_given(Some(op))))
    }

    pub fn any_constant(&self, id: u32) -> Option<ModuleKind>
        ensures { result ≡ rules.any_constant self.now.bound (history self.now) id }
    {
        made!(self, id, op => matches!(op, Op::Constant { .. }))
    }

    /// A constant below a count.
    pub fn constant_below(&self, count: usize, id: u32) -> Option<ModuleKind>
        ensures { result ≡ rules.constant self.now.bound (history self.now) (λ v. nat_lt v count) id }
    {
        made!(self, id, op => match op {
            Op::Constant { value, .. } => (value as usize) < count,
            _ => false,
        })
    }

    /// A pointer to this type.
    pub fn pointer_to(&self, to_type: u32, id: u32) -> Option<ModuleKind>
        ensures { result ≡ rules.pointer_to self.now.bound (history self.now) to_type id }
    {
        made!(self, id, op => is_type(self.value_pointee(Some(op)), Some(to_type)))
    }

    /// Whether the value of an instruction is a pointer into a buffer, to a word.
    fn gives_shared_word(&self, op: Op<'a>) -> bool
        ensures { result ≡ values.gives (history self.now) (types.is_pointer (history self.now) STORAGE_BUFFER types.is_word) (shown op.entry) }
    {
        match self.type_given(Some(op)) {
            None => false,
            Some(given) => self.points_to_word(STORAGE_BUFFER, given),
        }
    }

    /// Whether the value of an instruction is a pointer into a variable of the function or into a buffer, to a word.
    fn gives_target(&self, op: Op<'a>) -> bool
        ensures { result ≡ values.gives (history self.now) (λ o. types.is_pointer (history self.now) FUNCTION types.is_word o || types.is_pointer (history self.now) STORAGE_BUFFER types.is_word o) (shown op.entry) }
    {
        match self.type_given(Some(op)) {
            None => false,
            Some(given) => self.points_to_word(FUNCTION, given)
                || self.points_to_word(STORAGE_BUFFER, given),
        }
    }

    /// A pointer into a variable of the function or into a buffer, to a word.
    pub fn target(&self, id: u32) -> Option<ModuleKind>
        ensures { result ≡ rules.target self.now.bound (history self.now) id }
    {
        made!(self, id, op => self.gives_target(op))
    }

    /// A pointer into a buffer, to a word of this type.
    pub fn shared_word(&self, of_type: u32, id: u32) -> Option<ModuleKind>
        ensures { result ≡ rules.shared_word self.now.bound (history self.now) of_type id }
    {
        made!(self, id, op => is_type(self.value_pointee(Some(op)), Some(of_type))
            && self.gives_shared_word(op))
    }

    /// A value that has components of this type.
    pub fn composite(&self, of_type: u32, id: u32) -> Option<ModuleKind>
        ensures { result ≡ rules.composite self.now.bound (history self.now) of_type id }
    {
        made!(self, id, op => is_type(component(self.type_given(Some(op))), Some(of_type)))
    }

    // ## Variables and chains

    /// A first value is a constant, of a variable of the function.
    pub fn first_value(&self, variable_type: u32, class: u32, id: u32) -> Option<ModuleKind>
        ensures { result ≡ rules.made self.now.bound (history self.now) (λ o. (class == FUNCTION) && values.is_constant (λ v. true) o && values.is_type (results.value_type o) (values.pointee (results.maker variable_type (history self.now)))) id }
    {
        made!(self, id, op => class == FUNCTION
            && matches!(op, Op::Constant { .. })
            && is_type(value_type(op), self.pointee_of(variable_type)))
    }

    /// The type of a chain: a pointer into push constants or a buffer, to a word.
    pub fn chain_type(&self, id: u32) -> Option<ModuleKind>
        ensures { result ≡ rules.made self.now.bound (history self.now) (λ o. types.is_pointer (history self.now) PUSH_CONSTANT types.is_word o || types.is_pointer (history self.now) STORAGE_BUFFER types.is_word o) id }
    {
        made!(self, id, op => self.points_to_word(PUSH_CONSTANT, op)
            || self.points_to_word(STORAGE_BUFFER, op))
    }

    /// A whole block in the class of the chain, which so many indexes take apart to a word.
    pub fn base(&self, chain_type: u32, count: usize, id: u32) -> Option<ModuleKind>
        ensures { result ≡ rules.base self.now.bound (history self.now) chain_type count id }
    {
        made!(self, id, op => self.is_in_class_of(chain_type, op)
            && self.depth(self.block_of(Some(op))) == count)
    }

    // ## The function

    /// The function of the entry point, which may be made later.
    pub fn entry_named(&self, id: u32) -> Option<ModuleKind>
        ensures { result ≡ rules.or_else (rules.later self.now.bound (history self.now) id) (rules.unless (results.is_entry id (history self.now)) kinds.Shape) }
    {
        match self.later(id) {
            None => shape(self.is_entry(id)),
            Some(kind) => Some(kind),
        }
    }

    /// The function of the entry point, which is made here.
    pub fn entry_made(&self, id: u32) -> Option<ModuleKind>
        ensures { result ≡ rules.or_else (rules.result self.now.bound (history self.now) id) (rules.unless (results.is_entry id (history self.now)) kinds.Shape) }
    {
        match self.result(id) {
            None => shape(self.is_entry(id)),
            Some(kind) => Some(kind),
        }
    }

    // ## Labels

    /// A label, which may be made later. One that was made before was branched to before it was made.
    pub fn label(&self, id: u32) -> Option<ModuleKind>
        ensures { result ≡ rules.label self.now.bound (history self.now) id }
    {
        if id >= self.bound {
            return Some(ModuleKind::Ident);
        }
        match self.maker(id) {
            None => None,
            Some(Op::Label { .. }) => {
                if self.is_branched_to(id) {
                    None
                } else {
                    Some(ModuleKind::Flow)
                }
            }
            Some(_) => Some(ModuleKind::Flow),
        }
    }

    /// The label of a block that comes later.
    pub fn later_label(&self, id: u32) -> Option<ModuleKind>
        ensures { result ≡ rules.later_label self.now.bound (history self.now) id }
    {
        if id >= self.bound {
            return Some(ModuleKind::Ident);
        }
        match self.maker(id) {
            None => None,
            Some(_) => Some(ModuleKind::Flow),
        }
    }
}
