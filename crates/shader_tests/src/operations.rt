// What the instructions of modules compute, worked out apart from this program.

use Operand::{Number, X, Y};

/// A source of an instruction: a case's first or second word, or a number.
#[derive(Clone, Copy)]
pub enum Operand {
    X,
    Y,
    Number(u32),
}

/// Two words, and what a shader leaves in the first two words of a view, of which the first is the first word before: the result
/// and 0, both halves of a product, or of an atomic instruction the new word and the old one. A truth is left as 1 or 0.
pub struct Case(pub u32, pub u32, pub [u32; 2]);

/// An instruction of modules, by its opcode, and the shader's that is emitted as it: the first word and the destinations,
/// the sources, and what stores the result.
pub struct Operation {
    pub name: &'static str,
    pub opcode: u32,
    pub front: &'static [u32],
    pub sources: &'static [Operand],
    pub store: &'static [u32],
    pub cases: &'static [Case],
}

/// Stores component x of temporary 0 as the first word.
const STORE: &[u32] = &[0x10831, 0x100, 1, 0, 0, 0, 0, 0];

/// Stores it as the second word.
const STORE_SECOND: &[u32] = &[0x10831, 0x100, 1, 4, 0, 0, 0, 0];

/// Stores its lowest bit as the first word.
const STORE_TRUTH: &[u32] = &[
    0x81c, 0x10, 0, 1, 1, 0, 0, 0, 0x10831, 0x100, 1, 0, 0, 0, 0, 0,
];

/// Stores components x and y as the first two words.
const STORE_BOTH: &[u32] = &[0x30831, 0x100, 1, 0, 0, 0, 0, 0xe40];

pub static OPERATIONS: [Operation; 33] = [
    Operation {
        name: "OpSNegate",
        opcode: 126,
        front: &[0x713, 0x10],
        sources: &[X],
        store: STORE,
        cases: &[
            Case(5, 0, [0xfffffffb, 0]),
            Case(0x80000000, 0, [0x80000000, 0]),
        ],
    },
    Operation {
        name: "OpNot",
        opcode: 200,
        front: &[0x71f, 0x10],
        sources: &[X],
        store: STORE,
        cases: &[Case(0xf0f1234, 0, [0xf0f0edcb, 0])],
    },
    Operation {
        name: "OpBitReverse",
        opcode: 204,
        front: &[0x72c, 0x10],
        sources: &[X],
        store: STORE,
        cases: &[Case(0x80000006, 0, [0x60000001, 0])],
    },
    Operation {
        name: "OpBitCount",
        opcode: 205,
        front: &[0x72d, 0x10],
        sources: &[X],
        store: STORE,
        cases: &[Case(0xf00f0001, 0, [9, 0]), Case(0xffffffff, 0, [0x20, 0])],
    },
    Operation {
        name: "OpIAdd",
        opcode: 128,
        front: &[0xc12, 0x10],
        sources: &[X, Y],
        store: STORE,
        cases: &[Case(3, 4, [7, 0]), Case(0xffffffff, 2, [1, 0])],
    },
    Operation {
        name: "OpIMul",
        opcode: 132,
        front: &[0xd15, 7, 0x10],
        sources: &[X, Y],
        store: STORE,
        cases: &[
            Case(0x10001, 0x10001, [0x20001, 0]),
            Case(0xffffffff, 0xffffffff, [1, 0]),
        ],
    },
    Operation {
        name: "OpUDiv",
        opcode: 134,
        front: &[0xd17, 0x10, 7],
        sources: &[X, Y],
        store: STORE,
        cases: &[Case(0xfffffffe, 7, [0x24924924, 0]), Case(3, 4, [0, 0])],
    },
    Operation {
        name: "OpUMod",
        opcode: 137,
        front: &[0xd17, 7, 0x10],
        sources: &[X, Y],
        store: STORE,
        cases: &[Case(0xfffffffe, 7, [2, 0]), Case(3, 4, [3, 0])],
    },
    Operation {
        name: "OpUMulExtended",
        opcode: 151,
        front: &[0xd16, 0x20, 0x10],
        sources: &[X, Y],
        store: STORE_BOTH,
        cases: &[
            Case(0xffffffff, 0xffffffff, [1, 0xfffffffe]),
            Case(0x80000000, 6, [0, 3]),
        ],
    },
    Operation {
        name: "OpSMulExtended",
        opcode: 152,
        front: &[0xd15, 0x20, 0x10],
        sources: &[X, Y],
        store: STORE_BOTH,
        cases: &[
            Case(0xffffffff, 0xffffffff, [1, 0]),
            Case(0x80000000, 6, [0, 0xfffffffd]),
            Case(0x7fffffff, 0xffffffff, [0x80000001, 0xffffffff]),
        ],
    },
    Operation {
        name: "OpSelect",
        opcode: 169,
        front: &[0x1111, 0x10],
        sources: &[X, Y, Number(7)],
        store: STORE,
        cases: &[Case(1, 3, [3, 0]), Case(0, 3, [7, 0])],
    },
    Operation {
        name: "OpIEqual",
        opcode: 170,
        front: &[0xc23, 0x10],
        sources: &[X, Y],
        store: STORE_TRUTH,
        cases: &[Case(5, 5, [1, 0]), Case(5, 6, [0, 0])],
    },
    Operation {
        name: "OpINotEqual",
        opcode: 171,
        front: &[0xc24, 0x10],
        sources: &[X, Y],
        store: STORE_TRUTH,
        cases: &[Case(5, 5, [0, 0]), Case(5, 6, [1, 0])],
    },
    Operation {
        name: "OpUGreaterThanEqual",
        opcode: 174,
        front: &[0xc27, 0x10],
        sources: &[X, Y],
        store: STORE_TRUTH,
        cases: &[
            Case(5, 5, [1, 0]),
            Case(4, 5, [0, 0]),
            Case(0xffffffff, 0, [1, 0]),
        ],
    },
    Operation {
        name: "OpSGreaterThanEqual",
        opcode: 175,
        front: &[0xc25, 0x10],
        sources: &[X, Y],
        store: STORE_TRUTH,
        cases: &[
            Case(5, 5, [1, 0]),
            Case(4, 5, [0, 0]),
            Case(0xffffffff, 0, [0, 0]),
        ],
    },
    Operation {
        name: "OpULessThan",
        opcode: 176,
        front: &[0xc28, 0x10],
        sources: &[X, Y],
        store: STORE_TRUTH,
        cases: &[
            Case(5, 5, [0, 0]),
            Case(4, 5, [1, 0]),
            Case(0xffffffff, 0, [0, 0]),
        ],
    },
    Operation {
        name: "OpSLessThan",
        opcode: 177,
        front: &[0xc26, 0x10],
        sources: &[X, Y],
        store: STORE_TRUTH,
        cases: &[
            Case(5, 5, [0, 0]),
            Case(4, 5, [1, 0]),
            Case(0xffffffff, 0, [1, 0]),
        ],
    },
    Operation {
        name: "OpShiftRightLogical",
        opcode: 194,
        front: &[0xc22, 0x10],
        sources: &[X, Y],
        store: STORE,
        cases: &[
            Case(0x80000010, 4, [0x8000001, 0]),
            Case(0x80000010, 0, [0x80000010, 0]),
            Case(0xffffffff, 0x1f, [1, 0]),
        ],
    },
    Operation {
        name: "OpShiftRightArithmetic",
        opcode: 195,
        front: &[0xc21, 0x10],
        sources: &[X, Y],
        store: STORE,
        cases: &[
            Case(0x80000010, 4, [0xf8000001, 0]),
            Case(0x70000010, 4, [0x7000001, 0]),
            Case(0x80000000, 0x1f, [0xffffffff, 0]),
        ],
    },
    Operation {
        name: "OpShiftLeftLogical",
        opcode: 196,
        front: &[0xc20, 0x10],
        sources: &[X, Y],
        store: STORE,
        cases: &[
            Case(0x80000011, 4, [0x110, 0]),
            Case(3, 0x1f, [0x80000000, 0]),
        ],
    },
    Operation {
        name: "OpBitwiseOr",
        opcode: 197,
        front: &[0xc1d, 0x10],
        sources: &[X, Y],
        store: STORE,
        cases: &[Case(0xff0, 0xff00, [0xfff0, 0])],
    },
    Operation {
        name: "OpBitwiseXor",
        opcode: 198,
        front: &[0xc1e, 0x10],
        sources: &[X, Y],
        store: STORE,
        cases: &[Case(0xff0, 0xff00, [0xf0f0, 0])],
    },
    Operation {
        name: "OpBitwiseAnd",
        opcode: 199,
        front: &[0xc1c, 0x10],
        sources: &[X, Y],
        store: STORE,
        cases: &[Case(0xff0, 0xff00, [0xf00, 0])],
    },
    Operation {
        name: "OpAtomicExchange",
        opcode: 229,
        front: &[0x1240, 0x10, 0x100],
        sources: &[Number(0), Number(0), Y],
        store: STORE_SECOND,
        cases: &[Case(5, 6, [6, 5])],
    },
    Operation {
        name: "OpAtomicCompareExchange, whose comparator is 5",
        opcode: 230,
        front: &[0x1741, 0x10, 0x100],
        sources: &[Number(0), Number(0), Number(5), Y],
        store: STORE_SECOND,
        cases: &[Case(5, 6, [6, 5]), Case(4, 6, [4, 4])],
    },
    Operation {
        name: "OpAtomicIAdd",
        opcode: 234,
        front: &[0x1238, 0x10, 0x100],
        sources: &[Number(0), Number(0), Y],
        store: STORE_SECOND,
        cases: &[Case(5, 6, [0xb, 5]), Case(0xffffffff, 6, [5, 0xffffffff])],
    },
    Operation {
        name: "OpAtomicSMin",
        opcode: 236,
        front: &[0x123c, 0x10, 0x100],
        sources: &[Number(0), Number(0), Y],
        store: STORE_SECOND,
        cases: &[Case(5, 0xffffffff, [0xffffffff, 5]), Case(4, 5, [4, 4])],
    },
    Operation {
        name: "OpAtomicUMin",
        opcode: 237,
        front: &[0x123e, 0x10, 0x100],
        sources: &[Number(0), Number(0), Y],
        store: STORE_SECOND,
        cases: &[Case(5, 0xffffffff, [5, 5]), Case(6, 5, [5, 6])],
    },
    Operation {
        name: "OpAtomicSMax",
        opcode: 238,
        front: &[0x123d, 0x10, 0x100],
        sources: &[Number(0), Number(0), Y],
        store: STORE_SECOND,
        cases: &[Case(5, 0xffffffff, [5, 5]), Case(4, 5, [5, 4])],
    },
    Operation {
        name: "OpAtomicUMax",
        opcode: 239,
        front: &[0x123f, 0x10, 0x100],
        sources: &[Number(0), Number(0), Y],
        store: STORE_SECOND,
        cases: &[Case(5, 0xffffffff, [0xffffffff, 5]), Case(6, 5, [6, 6])],
    },
    Operation {
        name: "OpAtomicAnd",
        opcode: 240,
        front: &[0x1239, 0x10, 0x100],
        sources: &[Number(0), Number(0), Y],
        store: STORE_SECOND,
        cases: &[Case(0xff0, 0xff00, [0xf00, 0xff0])],
    },
    Operation {
        name: "OpAtomicOr",
        opcode: 241,
        front: &[0x123a, 0x10, 0x100],
        sources: &[Number(0), Number(0), Y],
        store: STORE_SECOND,
        cases: &[Case(0xff0, 0xff00, [0xfff0, 0xff0])],
    },
    Operation {
        name: "OpAtomicXor",
        opcode: 242,
        front: &[0x123b, 0x10, 0x100],
        sources: &[Number(0), Number(0), Y],
        store: STORE_SECOND,
        cases: &[Case(0xff0, 0xff00, [0xf0f0, 0xff0])],
    },
];
