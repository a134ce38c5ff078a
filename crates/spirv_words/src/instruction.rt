// From an opcode and its operands to an instruction.

ghost use Rattle.std.specs.Prelude.{◌≡◌, length, option_map};
ghost use Rattle.spirv_model.specs.Decoration.{values_of};
ghost use Rattle.spirv_model.specs.Table.{made_by, decorate_from, member_decorate_from, variable_from, chain_from, is_counted};
ghost use Rattle.spirv_model.specs.View.{shown};

use crate::decoration::value_count;
use spirv_model::{Op, Opcode};

// The instruction with these fields as its operands, and behind `..` the rest of them; None where the operands are
// too few or too many.
macro_rules! with {
    ($operands:ident: $name:ident $($field:ident)*) => {
        match $operands {
            [$($field),*] => Some(Op::$name { $($field: *$field),* }),
            _ => None,
        }
    };
    ($operands:ident: $name:ident $($field:ident)* ..$rest:ident) => {
        match $operands {
            [$($field),*, $rest @ ..] => Some(Op::$name { $($field: *$field),*, $rest }),
            _ => None,
        }
    };
    ($operands:ident: $name:ident($code:ident) $($field:ident)*) => {
        match $operands {
            [$($field),*] => Some(Op::$name { code: $code, $($field: *$field),* }),
            _ => None,
        }
    };
}

/// Whether a decoration may have so many values; one that the profile does not have may have any number.
fn is_counted(decoration: u32, count: usize) -> bool
    ensures { result ≡ is_counted (values_of decoration) count }
{
    match value_count(decoration) {
        Some(values) => count == values,
        None => true,
    }
}

fn decorate(operands: &[u32]) -> Option<Op<'_>>
    ensures { option_map shown result ≡ decorate_from operands.now }
{
    match operands {
        [target, decoration, values @ ..] => {
            if is_counted(*decoration, values.len()) {
                Some(Op::Decorate {
                    target: *target,
                    decoration: *decoration,
                    values,
                })
            } else {
                None
            }
        }
        _ => None,
    }
}

fn member_decorate(operands: &[u32]) -> Option<Op<'_>>
    ensures { option_map shown result ≡ member_decorate_from operands.now }
{
    match operands {
        [target, member, decoration, values @ ..] => {
            if is_counted(*decoration, values.len()) {
                Some(Op::MemberDecorate {
                    target: *target,
                    member: *member,
                    decoration: *decoration,
                    values,
                })
            } else {
                None
            }
        }
        _ => None,
    }
}

fn variable(operands: &[u32]) -> Option<Op<'_>>
    ensures { option_map shown result ≡ variable_from operands.now }
{
    match operands {
        [result_type, id, class, first_value @ ..] => {
            if first_value.len() <= 1 {
                Some(Op::Variable {
                    result_type: *result_type,
                    id: *id,
                    class: *class,
                    first_value,
                })
            } else {
                None
            }
        }
        _ => None,
    }
}

fn access_chain(operands: &[u32]) -> Option<Op<'_>>
    ensures { option_map shown result ≡ chain_from operands.now }
{
    match operands {
        [result_type, id, base, indexes @ ..] => {
            if 1 <= indexes.len() && indexes.len() <= 2 {
                Some(Op::AccessChain {
                    result_type: *result_type,
                    id: *id,
                    base: *base,
                    indexes,
                })
            } else {
                None
            }
        }
        _ => None,
    }
}

/// The instruction of an opcode and operands, None where they are too few or too many.
pub fn instruction(opcode: Opcode, operands: &[u32]) -> Option<Op<'_>>
    ensures { option_map shown result ≡ made_by opcode operands.now }
{
    match opcode {
        Opcode::Capability => with!(operands: Capability capability),
        Opcode::MemoryModel => with!(operands: MemoryModel addressing model),
        Opcode::EntryPoint => with!(operands: EntryPoint model function name name_end ..interface),
        Opcode::ExecutionMode => with!(operands: ExecutionMode function mode x y z),
        Opcode::Decorate => decorate(operands),
        Opcode::MemberDecorate => member_decorate(operands),
        Opcode::TypeVoid => with!(operands: TypeVoid id),
        Opcode::TypeBool => with!(operands: TypeBool id),
        Opcode::TypeInt => with!(operands: TypeInt id width sign),
        Opcode::TypeVector => with!(operands: TypeVector id component count),
        Opcode::TypeRuntimeArray => with!(operands: TypeRuntimeArray id element),
        Opcode::TypeStruct => with!(operands: TypeStruct id ..members),
        Opcode::TypePointer => with!(operands: TypePointer id class pointee),
        Opcode::TypeFunction => with!(operands: TypeFunction id returned),
        Opcode::Constant => with!(operands: Constant result_type id value),
        Opcode::Variable => variable(operands),
        Opcode::Function => with!(operands: Function result_type id control function_type),
        Opcode::FunctionEnd => with!(operands: FunctionEnd),
        Opcode::Load => with!(operands: Load result_type id pointer),
        Opcode::Store => with!(operands: Store pointer value),
        Opcode::AccessChain => access_chain(operands),
        Opcode::CompositeExtract =>
            with!(operands: CompositeExtract result_type id composite index),
        Opcode::Unary(code) => with!(operands: Unary(code) result_type id a),
        Opcode::Binary(code) => with!(operands: Binary(code) result_type id a b),
        Opcode::Select => with!(operands: Select result_type id condition a b),
        Opcode::Atomic(code) =>
            with!(operands: Atomic(code) result_type id pointer scope order value),
        Opcode::AtomicCompareExchange => with!(operands: AtomicCompareExchange
            result_type id pointer scope equal unequal value comparator),
        Opcode::LoopMerge => with!(operands: LoopMerge merge next control),
        Opcode::SelectionMerge => with!(operands: SelectionMerge merge control),
        Opcode::Label => with!(operands: Label id),
        Opcode::Branch => with!(operands: Branch label),
        Opcode::BranchConditional => with!(operands: BranchConditional condition yes no),
        Opcode::Return => with!(operands: Return),
    }
}
