// The table of the opcodes.

ghost use Rattle.std.specs.Prelude.{◌≡◌};
ghost use Rattle.spirv_model.specs.Table.{rows, opcode_of, unary_code, binary_code, atomic_code};

use crate::code::{AtomicCode, BinaryCode, Opcode, Row, UnaryCode};
use crate::opcodes;

macro_rules! row {
    ($number:ident, $opcode:expr) => {
        Row {
            number: opcodes::$number,
            opcode: $opcode,
        }
    };
}

const ROWS: [Row; 64] = [
    row!(MEMORY_MODEL, Opcode::MemoryModel),
    row!(ENTRY_POINT, Opcode::EntryPoint),
    row!(EXECUTION_MODE, Opcode::ExecutionMode),
    row!(CAPABILITY, Opcode::Capability),
    row!(TYPE_VOID, Opcode::TypeVoid),
    row!(TYPE_BOOL, Opcode::TypeBool),
    row!(TYPE_INT, Opcode::TypeInt),
    row!(TYPE_VECTOR, Opcode::TypeVector),
    row!(TYPE_RUNTIME_ARRAY, Opcode::TypeRuntimeArray),
    row!(TYPE_STRUCT, Opcode::TypeStruct),
    row!(TYPE_POINTER, Opcode::TypePointer),
    row!(TYPE_FUNCTION, Opcode::TypeFunction),
    row!(CONSTANT, Opcode::Constant),
    row!(FUNCTION, Opcode::Function),
    row!(FUNCTION_END, Opcode::FunctionEnd),
    row!(VARIABLE, Opcode::Variable),
    row!(LOAD, Opcode::Load),
    row!(STORE, Opcode::Store),
    row!(ACCESS_CHAIN, Opcode::AccessChain),
    row!(DECORATE, Opcode::Decorate),
    row!(MEMBER_DECORATE, Opcode::MemberDecorate),
    row!(COMPOSITE_EXTRACT, Opcode::CompositeExtract),
    row!(S_NEGATE, Opcode::Unary(UnaryCode::Negate)),
    row!(I_ADD, Opcode::Binary(BinaryCode::Add)),
    row!(I_SUB, Opcode::Binary(BinaryCode::Subtract)),
    row!(I_MUL, Opcode::Binary(BinaryCode::Multiply)),
    row!(U_DIV, Opcode::Binary(BinaryCode::Divide)),
    row!(U_MOD, Opcode::Binary(BinaryCode::Modulo)),
    row!(U_MUL_EXTENDED, Opcode::Binary(BinaryCode::WideMultiply)),
    row!(
        S_MUL_EXTENDED,
        Opcode::Binary(BinaryCode::SignedWideMultiply)
    ),
    row!(LOGICAL_AND, Opcode::Binary(BinaryCode::LogicalAnd)),
    row!(LOGICAL_NOT, Opcode::Unary(UnaryCode::LogicalNot)),
    row!(SELECT, Opcode::Select),
    row!(I_EQUAL, Opcode::Binary(BinaryCode::Equal)),
    row!(I_NOT_EQUAL, Opcode::Binary(BinaryCode::NotEqual)),
    row!(
        U_GREATER_THAN_EQUAL,
        Opcode::Binary(BinaryCode::GreaterEqual)
    ),
    row!(
        S_GREATER_THAN_EQUAL,
        Opcode::Binary(BinaryCode::SignedGreaterEqual)
    ),
    row!(U_LESS_THAN, Opcode::Binary(BinaryCode::Less)),
    row!(S_LESS_THAN, Opcode::Binary(BinaryCode::SignedLess)),
    row!(SHIFT_RIGHT_LOGICAL, Opcode::Binary(BinaryCode::ShiftRight)),
    row!(
        SHIFT_RIGHT_ARITHMETIC,
        Opcode::Binary(BinaryCode::SignedShiftRight)
    ),
    row!(SHIFT_LEFT_LOGICAL, Opcode::Binary(BinaryCode::ShiftLeft)),
    row!(BITWISE_OR, Opcode::Binary(BinaryCode::BitOr)),
    row!(BITWISE_XOR, Opcode::Binary(BinaryCode::BitXor)),
    row!(BITWISE_AND, Opcode::Binary(BinaryCode::BitAnd)),
    row!(NOT, Opcode::Unary(UnaryCode::Complement)),
    row!(BIT_REVERSE, Opcode::Unary(UnaryCode::BitReverse)),
    row!(BIT_COUNT, Opcode::Unary(UnaryCode::BitCount)),
    row!(ATOMIC_EXCHANGE, Opcode::Atomic(AtomicCode::Exchange)),
    row!(ATOMIC_COMPARE_EXCHANGE, Opcode::AtomicCompareExchange),
    row!(ATOMIC_I_ADD, Opcode::Atomic(AtomicCode::Add)),
    row!(ATOMIC_S_MIN, Opcode::Atomic(AtomicCode::SignedMin)),
    row!(ATOMIC_U_MIN, Opcode::Atomic(AtomicCode::UnsignedMin)),
    row!(ATOMIC_S_MAX, Opcode::Atomic(AtomicCode::SignedMax)),
    row!(ATOMIC_U_MAX, Opcode::Atomic(AtomicCode::UnsignedMax)),
    row!(ATOMIC_AND, Opcode::Atomic(AtomicCode::And)),
    row!(ATOMIC_OR, Opcode::Atomic(AtomicCode::Or)),
    row!(ATOMIC_XOR, Opcode::Atomic(AtomicCode::Xor)),
    row!(LOOP_MERGE, Opcode::LoopMerge),
    row!(SELECTION_MERGE, Opcode::SelectionMerge),
    row!(LABEL, Opcode::Label),
    row!(BRANCH, Opcode::Branch),
    row!(BRANCH_CONDITIONAL, Opcode::BranchConditional),
    row!(RETURN, Opcode::Return),
];

/// The rows by rising number.
fn rows() -> &'static [Row]
    ensures { result.now ≡ rows }
{
    &ROWS
}

impl Opcode {
    /// The opcode of a number, None where the table does not have it.
    #[tactic(auto, unfolding(crate::specs::Table::opcode_of))]
    pub fn from_number(number: u32) -> Option<Opcode>
        ensures { result ≡ opcode_of number }
    {
        rows()
            .iter()
            .find(|row| u32::from(row.number) == number)
            .map(|row| row.opcode)
    }
}

impl UnaryCode {
    /// The opcode.
    pub fn number(self) -> u16
        ensures { result ≡ unary_code self }
    {
        match self {
            UnaryCode::Negate => opcodes::S_NEGATE,
            UnaryCode::LogicalNot => opcodes::LOGICAL_NOT,
            UnaryCode::Complement => opcodes::NOT,
            UnaryCode::BitReverse => opcodes::BIT_REVERSE,
            UnaryCode::BitCount => opcodes::BIT_COUNT,
        }
    }
}

impl BinaryCode {
    /// The opcode.
    pub fn number(self) -> u16
        ensures { result ≡ binary_code self }
    {
        match self {
            BinaryCode::Add => opcodes::I_ADD,
            BinaryCode::Subtract => opcodes::I_SUB,
            BinaryCode::Multiply => opcodes::I_MUL,
            BinaryCode::Divide => opcodes::U_DIV,
            BinaryCode::Modulo => opcodes::U_MOD,
            BinaryCode::WideMultiply => opcodes::U_MUL_EXTENDED,
            BinaryCode::SignedWideMultiply => opcodes::S_MUL_EXTENDED,
            BinaryCode::LogicalAnd => opcodes::LOGICAL_AND,
            BinaryCode::Equal => opcodes::I_EQUAL,
            BinaryCode::NotEqual => opcodes::I_NOT_EQUAL,
            BinaryCode::GreaterEqual => opcodes::U_GREATER_THAN_EQUAL,
            BinaryCode::SignedGreaterEqual => opcodes::S_GREATER_THAN_EQUAL,
            BinaryCode::Less => opcodes::U_LESS_THAN,
            BinaryCode::SignedLess => opcodes::S_LESS_THAN,
            BinaryCode::ShiftRight => opcodes::SHIFT_RIGHT_LOGICAL,
            BinaryCode::SignedShiftRight => opcodes::SHIFT_RIGHT_ARITHMETIC,
            BinaryCode::ShiftLeft => opcodes::SHIFT_LEFT_LOGICAL,
            BinaryCode::BitOr => opcodes::BITWISE_OR,
            BinaryCode::BitXor => opcodes::BITWISE_XOR,
            BinaryCode::BitAnd => opcodes::BITWISE_AND,
        }
    }
}

impl AtomicCode {
    /// The opcode.
    pub fn number(self) -> u16
        ensures { result ≡ atomic_code self }
    {
        match self {
            AtomicCode::Exchange => opcodes::ATOMIC_EXCHANGE,
            AtomicCode::Add => opcodes::ATOMIC_I_ADD,
            AtomicCode::SignedMin => opcodes::ATOMIC_S_MIN,
            AtomicCode::UnsignedMin => opcodes::ATOMIC_U_MIN,
            AtomicCode::SignedMax => opcodes::ATOMIC_S_MAX,
            AtomicCode::UnsignedMax => opcodes::ATOMIC_U_MAX,
            AtomicCode::And => opcodes::ATOMIC_AND,
            AtomicCode::Or => opcodes::ATOMIC_OR,
            AtomicCode::Xor => opcodes::ATOMIC_XOR,
        }
    }
}
