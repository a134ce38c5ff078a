// The opcodes.

/// An opcode of the table. Those whose instructions differ in their operation alone stand together.
#[derive(Clone, Copy)]
pub enum Opcode {
    MemoryModel,
    EntryPoint,
    ExecutionMode,
    Capability,
    TypeVoid,
    TypeBool,
    TypeInt,
    TypeVector,
    TypeRuntimeArray,
    TypeStruct,
    TypePointer,
    TypeFunction,
    Constant,
    Function,
    FunctionEnd,
    Variable,
    Load,
    Store,
    AccessChain,
    Decorate,
    MemberDecorate,
    CompositeExtract,
    Select,
    AtomicCompareExchange,
    LoopMerge,
    SelectionMerge,
    Label,
    Branch,
    BranchConditional,
    Return,
    Unary(UnaryCode),
    Binary(BinaryCode),
    Atomic(AtomicCode),
}

/// A result of one operand.
#[derive(Clone, Copy)]
pub enum UnaryCode {
    Negate,
    LogicalNot,
    Complement,
    BitReverse,
    BitCount,
}

/// A result of two operands.
#[derive(Clone, Copy)]
pub enum BinaryCode {
    Add,
    Subtract,
    Multiply,
    Divide,
    Modulo,
    WideMultiply,
    SignedWideMultiply,
    LogicalAnd,
    Equal,
    NotEqual,
    GreaterEqual,
    SignedGreaterEqual,
    Less,
    SignedLess,
    ShiftRight,
    SignedShiftRight,
    ShiftLeft,
    BitOr,
    BitXor,
    BitAnd,
}

/// What an atomic instruction makes of the word in memory and its operand.
#[derive(Clone, Copy)]
pub enum AtomicCode {
    Exchange,
    Add,
    SignedMin,
    UnsignedMin,
    SignedMax,
    UnsignedMax,
    And,
    Or,
    Xor,
}

/// A row of the table: an opcode and its number.
#[derive(Clone, Copy)]
pub struct Row {
    pub number: u16,
    pub opcode: Opcode,
}
