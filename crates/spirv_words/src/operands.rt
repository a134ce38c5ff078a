// The rules of an instruction.

ghost use Rattle.std.specs.Prelude.{◌≡◌, ◌+◌, ◌<◌, ◌^◌, ◌∷◌, length};
ghost use Rattle.spirv_model.specs.View.{shown};
ghost use Rattle.spirv_words.specs.Known.{history};
ghost use Rattle.spirv_model.specs.Table.{operands_of};
ghost use Rattle.spirv_model.specs.Operands.{operands};
ghost use Rattle.spirv_model.specs.FirstBad.{first_fault, first_word_rule, word_count};
ghost use Rattle.spirv_words.specs.Rules.{operand_fault};

use crate::known::Known;
use spirv_model::{ModuleFault, ModuleKind, Op};

// Which rules the operands of each instruction have.
macro_rules! operands {
    ($known:ident, $at:ident, $op:ident: $($name:ident($($field:ident)*) $fault:ident)*) => {
        match $op {
            $(Op::$name { $($field),* } => $known.$fault($at, $($field),*),)*
            Op::FunctionEnd => None,
            Op::Return => None,
        }
    };
}

impl Known<'_> {
    /// The first operand of an instruction that is refused, where the first one stands at a place.
    fn operand_fault(&self, at: u32, op: Op<'_>) -> Option<ModuleFault>
        requires { at + length (operands_of (shown op)) < 2 ^ 32 }
        ensures { result ≡ operand_fault self.now at (shown op.entry) }
    {
        operands!(self, at, op:
            Capability(capability) capability_fault
            MemoryModel(addressing model) memory_model_fault
            EntryPoint(model function name name_end interface) entry_point_fault
            ExecutionMode(function mode x y z) execution_mode_fault
            Decorate(target decoration values) decorate_fault
            MemberDecorate(target member decoration values) member_decorate_fault
            TypeVoid(id) type_void_fault
            TypeBool(id) type_bool_fault
            TypeInt(id width sign) type_int_fault
            TypeVector(id component count) type_vector_fault
            TypeRuntimeArray(id element) type_runtime_array_fault
            TypeStruct(id members) type_struct_fault
            TypePointer(id class pointee) type_pointer_fault
            TypeFunction(id returned) type_function_fault
            Constant(result_type id value) constant_fault
            Variable(result_type id class first_value) variable_fault
            Function(result_type id control function_type) function_fault
            Load(result_type id pointer) load_fault
            Store(pointer value) store_fault
            AccessChain(result_type id base indexes) access_chain_fault
            CompositeExtract(result_type id composite index) composite_extract_fault
            Unary(code result_type id a) unary_fault
            Binary(code result_type id a b) binary_fault
            Select(result_type id condition a b) select_fault
            Atomic(code result_type id pointer scope order value) atomic_fault
            AtomicCompareExchange(result_type id pointer scope equal unequal value comparator)
                atomic_compare_exchange_fault
            LoopMerge(merge next control) loop_merge_fault
            SelectionMerge(merge control) selection_merge_fault
            Label(id) label_fault
            Branch(label) branch_fault
            BranchConditional(condition yes no) branch_conditional_fault
        )
    }

    /// The first word of an instruction that is refused, where it stands at a place.
    #[tactic(auto, unfolding(crate::specs::Rules::operand_fault))]
    pub fn fault_of(&self, at: u32, op: Op<'_>) -> Option<ModuleFault>
        requires { at + word_count (shown op) < 2 ^ 32 }
        ensures { result ≡ first_fault at (first_word_rule (history self.now) (shown op.entry) ∷ operands self.now.bound (history self.now) (shown op.entry)) }
    {
        if !self.is_in_order(op) {
            return Some(ModuleFault {
                word: at,
                kind: ModuleKind::Order,
            });
        }
        if !self.is_in_block(op) {
            return Some(ModuleFault {
                word: at,
                kind: ModuleKind::Flow,
            });
        }
        self.operand_fault(at + 1, op)
    }
}
