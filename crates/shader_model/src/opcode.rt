// The instructions: their names, their operands, and what they do to a view or to the blocks.

use dx_types::Form;

/// An instruction. Declarations have no name here.
#[derive(Clone, Copy)]
pub enum Opcode {
    Mov,
    Movc,
    Iadd,
    Ineg,
    Imad,
    Imul,
    Umul,
    Udiv,
    Imin,
    Imax,
    Umin,
    Umax,
    And,
    Or,
    Xor,
    Not,
    Ishl,
    Ishr,
    Ushr,
    Ieq,
    Ine,
    Ige,
    Ilt,
    Uge,
    Ult,
    Ubfe,
    Ibfe,
    Bfi,
    Bfrev,
    Countbits,
    LdRaw,
    StoreRaw,
    LdStructured,
    StoreStructured,
    LdTyped,
    StoreTyped,
    AtomicIadd,
    AtomicAnd,
    AtomicOr,
    AtomicXor,
    AtomicImin,
    AtomicImax,
    AtomicUmin,
    AtomicUmax,
    AtomicExch,
    AtomicCmpExch,
    IfNz,
    IfZ,
    Else,
    Endif,
    Loop,
    Endloop,
    Break,
    BreakNz,
    BreakZ,
    Continue,
    ContinueNz,
    ContinueZ,
    Ret,
    RetNz,
    RetZ,
}

/// What an operand is: a destination, a source, or a slot word.
#[derive(Clone, Copy)]
pub enum Kind {
    Destination,
    Source,
    SlotWord,
}

/// The operands of an instruction in order: d is a destination, s a source, t a slot word.
#[derive(Clone, Copy)]
pub enum Layout {
    Ds,
    Dss,
    Dsss,
    Dssss,
    Ddss,
    Dst,
    Dsst,
    Tss,
    Tsss,
    Dtsss,
    Dtssss,
    S,
    Nothing,
}

/// How an instruction reaches a view: it loads from a form, stores to one, changes one word, or does not.
#[derive(Clone, Copy)]
pub enum Access {
    Loads(Form),
    Stores(Form),
    Changes,
    ReachesNone,
}

/// What an instruction is among the blocks: a plain one, or one that opens, parts, closes or leaves a block.
/// The flag says whether its test is for a value other than 0; an instruction without a test has none.
#[derive(Clone, Copy)]
pub enum Role {
    Plain,
    If(bool),
    Else,
    Endif,
    Loop,
    Endloop,
    Break(Option<bool>),
    Continue(Option<bool>),
    Return(Option<bool>),
}

/// A row of the table of instructions.
#[derive(Clone, Copy)]
pub struct Row {
    pub number: u8,
    pub name: Opcode,
    pub layout: Layout,
    pub access: Access,
    pub role: Role,
}
