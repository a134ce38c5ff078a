// What the plain instructions compute, worked out apart from this program.

/// Four rows of the four sources of an instruction, each of four components.
pub static SOURCES: [[[u32; 4]; 4]; 4] = [
    [
        [0, 1, 0x7fffffff, 0x80000000],
        [0, 0x1f, 0x20, 0x21],
        [0, 0xffffffff, 0x80000000, 1],
        [0xffffffff, 0, 0x55555555, 0x7fffffff],
    ],
    [
        [0xffffffff, 0x80000000, 0x7fffffff, 0x80000000],
        [1, 0xffffffff, 0x80000000, 0x7fffffff],
        [0x7fffffff, 0x20, 0xffffffff, 0x80000000],
        [0, 0xffffffff, 0x21, 1],
    ],
    [
        [0xffffffff, 0x21, 0x1f, 0x80000000],
        [0xffffffff, 0x21, 0, 0x80000000],
        [1, 0x80000001, 0x21, 0xffffffff],
        [0x80000000, 0x7fffffff, 0xffffffff, 0],
    ],
    [
        [0x14, 5, 0x1f, 0xdeadbee1],
        [0x14, 0x1a, 1, 0x3f],
        [0xabcdef12, 0x7c000000, 0x80000001, 0x12345678],
        [0xabcdef12, 0xffffffff, 1, 0x80000000],
    ],
];

/// An instruction's first word, its destinations, how many sources it has, and what the destinations take of each row.
pub struct Computes {
    pub name: &'static str,
    pub first: u32,
    pub destinations: &'static [Destination],
    pub sources: usize,
    pub left: &'static [u32],
}

/// A destination, and the source by which it is stored.
pub struct Destination {
    pub target: u32,
    pub source: u32,
}

/// All components of temporary 0.
const ONE: &[Destination] = &[Destination {
    target: 0xf0,
    source: 0xe40,
}];

/// All components of temporaries 0 and 1.
const TWO: &[Destination] = &[
    Destination {
        target: 0xf0,
        source: 0xe40,
    },
    Destination {
        target: 0x100f0,
        source: 0x10e40,
    },
];

pub static COMPUTES: [Computes; 30] = [
    Computes {
        name: "mov",
        first: 0x710,
        destinations: ONE,
        sources: 1,
        left: &[
            0, 1, 0x7fffffff, 0x80000000, 0xffffffff, 0x80000000, 0x7fffffff, 0x80000000,
            0xffffffff, 0x21, 0x1f, 0x80000000, 0x14, 5, 0x1f, 0xdeadbee1,
        ],
    },
    Computes {
        name: "movc",
        first: 0x1111,
        destinations: ONE,
        sources: 3,
        left: &[
            0, 0x1f, 0x20, 0x21, 1, 0xffffffff, 0x80000000, 0x7fffffff, 0xffffffff, 0x21, 0,
            0x80000000, 0x14, 0x1a, 1, 0x3f,
        ],
    },
    Computes {
        name: "iadd",
        first: 0xc12,
        destinations: ONE,
        sources: 2,
        left: &[
            0, 0x20, 0x8000001f, 0x80000021, 0, 0x7fffffff, 0xffffffff, 0xffffffff, 0xfffffffe,
            0x42, 0x1f, 0, 0x28, 0x1f, 0x20, 0xdeadbf20,
        ],
    },
    Computes {
        name: "ineg",
        first: 0x713,
        destinations: ONE,
        sources: 1,
        left: &[
            0, 0xffffffff, 0x80000001, 0x80000000, 1, 0x80000000, 0x80000001, 0x80000000, 1,
            0xffffffdf, 0xffffffe1, 0x80000000, 0xffffffec, 0xfffffffb, 0xffffffe1, 0x2152411f,
        ],
    },
    Computes {
        name: "imad",
        first: 0x1114,
        destinations: ONE,
        sources: 3,
        left: &[
            0, 0x1e, 0x7fffffe0, 0x80000001, 0x7ffffffe, 0x80000020, 0x7fffffff, 0, 2, 0x80000442,
            0x21, 0xffffffff, 0xabcdf0a2, 0x7c000082, 0x80000020, 0xdef64fd7,
        ],
    },
    Computes {
        name: "imul",
        first: 0xd15,
        destinations: TWO,
        sources: 2,
        left: &[
            0, 0, 0xf, 0xffffffef, 0, 0x1f, 0xffffffe0, 0x80000000, 0xffffffff, 0, 0xc0000000,
            0xc0000000, 0xffffffff, 0x80000000, 0x80000000, 0x80000000, 0, 0, 0, 0x40000000, 1,
            0x441, 0, 0, 0, 0, 0, 0xfffffff7, 0x190, 0x82, 0x1f, 0xccc1f95f,
        ],
    },
    Computes {
        name: "umul",
        first: 0xd16,
        destinations: TWO,
        sources: 2,
        left: &[
            0, 0, 0xf, 0x10, 0, 0x1f, 0xffffffe0, 0x80000000, 0, 0x7fffffff, 0x3fffffff,
            0x3fffffff, 0xffffffff, 0x80000000, 0x80000000, 0x80000000, 0xfffffffe, 0, 0,
            0x40000000, 1, 0x441, 0, 0, 0, 0, 0, 0x36, 0x190, 0x82, 0x1f, 0xccc1f95f,
        ],
    },
    Computes {
        name: "udiv",
        first: 0xd17,
        destinations: TWO,
        sources: 2,
        left: &[
            0xffffffff, 0, 0x3ffffff, 0x3e0f83e, 0xffffffff, 1, 0x1f, 2, 0xffffffff, 0, 0, 1, 0,
            0x80000000, 0x7fffffff, 1, 1, 1, 0xffffffff, 1, 0, 0, 0xffffffff, 0, 1, 0, 0x1f,
            0x388da65, 0, 5, 0, 6,
        ],
    },
    Computes {
        name: "imin",
        first: 0xc18,
        destinations: ONE,
        sources: 2,
        left: &[
            0, 1, 0x20, 0x80000000, 0xffffffff, 0x80000000, 0x80000000, 0x80000000, 0xffffffff,
            0x21, 0, 0x80000000, 0x14, 5, 1, 0xdeadbee1,
        ],
    },
    Computes {
        name: "imax",
        first: 0xc19,
        destinations: ONE,
        sources: 2,
        left: &[
            0, 0x1f, 0x7fffffff, 0x21, 1, 0xffffffff, 0x7fffffff, 0x7fffffff, 0xffffffff, 0x21,
            0x1f, 0x80000000, 0x14, 0x1a, 0x1f, 0x3f,
        ],
    },
    Computes {
        name: "umin",
        first: 0xc1a,
        destinations: ONE,
        sources: 2,
        left: &[
            0, 1, 0x20, 0x21, 1, 0x80000000, 0x7fffffff, 0x7fffffff, 0xffffffff, 0x21, 0,
            0x80000000, 0x14, 5, 1, 0x3f,
        ],
    },
    Computes {
        name: "umax",
        first: 0xc1b,
        destinations: ONE,
        sources: 2,
        left: &[
            0, 0x1f, 0x7fffffff, 0x80000000, 0xffffffff, 0xffffffff, 0x80000000, 0x80000000,
            0xffffffff, 0x21, 0x1f, 0x80000000, 0x14, 0x1a, 0x1f, 0xdeadbee1,
        ],
    },
    Computes {
        name: "and",
        first: 0xc1c,
        destinations: ONE,
        sources: 2,
        left: &[
            0, 1, 0x20, 0, 1, 0x80000000, 0, 0, 0xffffffff, 0x21, 0, 0x80000000, 0x14, 0, 1, 0x21,
        ],
    },
    Computes {
        name: "or",
        first: 0xc1d,
        destinations: ONE,
        sources: 2,
        left: &[
            0, 0x1f, 0x7fffffff, 0x80000021, 0xffffffff, 0xffffffff, 0xffffffff, 0xffffffff,
            0xffffffff, 0x21, 0x1f, 0x80000000, 0x14, 0x1f, 0x1f, 0xdeadbeff,
        ],
    },
    Computes {
        name: "xor",
        first: 0xc1e,
        destinations: ONE,
        sources: 2,
        left: &[
            0, 0x1e, 0x7fffffdf, 0x80000021, 0xfffffffe, 0x7fffffff, 0xffffffff, 0xffffffff, 0, 0,
            0x1f, 0, 0, 0x1f, 0x1e, 0xdeadbede,
        ],
    },
    Computes {
        name: "not",
        first: 0x71f,
        destinations: ONE,
        sources: 1,
        left: &[
            0xffffffff, 0xfffffffe, 0x80000000, 0x7fffffff, 0, 0x7fffffff, 0x80000000, 0x7fffffff,
            0, 0xffffffde, 0xffffffe0, 0x7fffffff, 0xffffffeb, 0xfffffffa, 0xffffffe0, 0x2152411e,
        ],
    },
    Computes {
        name: "ishl",
        first: 0xc20,
        destinations: ONE,
        sources: 2,
        left: &[
            0, 0x80000000, 0x7fffffff, 0, 0xfffffffe, 0, 0x7fffffff, 0, 0x80000000, 0x42, 0x1f,
            0x80000000, 0x1400000, 0x14000000, 0x3e, 0x80000000,
        ],
    },
    Computes {
        name: "ishr",
        first: 0xc21,
        destinations: ONE,
        sources: 2,
        left: &[
            0, 0, 0x7fffffff, 0xc0000000, 0xffffffff, 0xffffffff, 0x7fffffff, 0xffffffff,
            0xffffffff, 0x10, 0x1f, 0x80000000, 0, 0, 0xf, 0xffffffff,
        ],
    },
    Computes {
        name: "ushr",
        first: 0xc22,
        destinations: ONE,
        sources: 2,
        left: &[
            0, 0, 0x7fffffff, 0x40000000, 0x7fffffff, 1, 0x7fffffff, 1, 1, 0x10, 0x1f, 0x80000000,
            0, 0, 0xf, 1,
        ],
    },
    Computes {
        name: "ieq",
        first: 0xc23,
        destinations: ONE,
        sources: 2,
        left: &[
            0xffffffff, 0, 0, 0, 0, 0, 0, 0, 0xffffffff, 0xffffffff, 0, 0xffffffff, 0xffffffff, 0,
            0, 0,
        ],
    },
    Computes {
        name: "ine",
        first: 0xc24,
        destinations: ONE,
        sources: 2,
        left: &[
            0, 0xffffffff, 0xffffffff, 0xffffffff, 0xffffffff, 0xffffffff, 0xffffffff, 0xffffffff,
            0, 0, 0xffffffff, 0, 0, 0xffffffff, 0xffffffff, 0xffffffff,
        ],
    },
    Computes {
        name: "ige",
        first: 0xc25,
        destinations: ONE,
        sources: 2,
        left: &[
            0xffffffff, 0, 0xffffffff, 0, 0, 0, 0xffffffff, 0, 0xffffffff, 0xffffffff, 0xffffffff,
            0xffffffff, 0xffffffff, 0, 0xffffffff, 0,
        ],
    },
    Computes {
        name: "ilt",
        first: 0xc26,
        destinations: ONE,
        sources: 2,
        left: &[
            0, 0xffffffff, 0, 0xffffffff, 0xffffffff, 0xffffffff, 0, 0xffffffff, 0, 0, 0, 0, 0,
            0xffffffff, 0, 0xffffffff,
        ],
    },
    Computes {
        name: "uge",
        first: 0xc27,
        destinations: ONE,
        sources: 2,
        left: &[
            0xffffffff, 0, 0xffffffff, 0xffffffff, 0xffffffff, 0, 0, 0xffffffff, 0xffffffff,
            0xffffffff, 0xffffffff, 0xffffffff, 0xffffffff, 0, 0xffffffff, 0xffffffff,
        ],
    },
    Computes {
        name: "ult",
        first: 0xc28,
        destinations: ONE,
        sources: 2,
        left: &[
            0, 0xffffffff, 0, 0, 0, 0xffffffff, 0xffffffff, 0, 0, 0, 0, 0, 0, 0xffffffff, 0, 0,
        ],
    },
    Computes {
        name: "ubfe",
        first: 0x1129,
        destinations: ONE,
        sources: 3,
        left: &[
            0, 1, 0, 0, 0x3fffffff, 0, 0x7fffffff, 0, 0, 0, 0x21, 0, 0xabc, 0x1f, 0x40000000, 0,
        ],
    },
    Computes {
        name: "ibfe",
        first: 0x112a,
        destinations: ONE,
        sources: 3,
        left: &[
            0, 0xffffffff, 0, 0, 0x3fffffff, 0, 0xffffffff, 0, 0, 0, 0x21, 0, 0xfffffabc,
            0xffffffff, 0xc0000000, 0,
        ],
    },
    Computes {
        name: "bfi",
        first: 0x162b,
        destinations: ONE,
        sources: 4,
        left: &[
            0xffffffff, 0x80000000, 0, 0x7fffffff, 0xfffffffe, 0xffffffff, 0x7fffffff, 1,
            0x80000000, 0x7fffffff, 0x80000021, 0, 0xf12def12, 0x83ffffff, 3, 0,
        ],
    },
    Computes {
        name: "bfrev",
        first: 0x72c,
        destinations: ONE,
        sources: 1,
        left: &[
            0, 0x80000000, 0xfffffffe, 1, 0xffffffff, 1, 0xfffffffe, 1, 0xffffffff, 0x84000000,
            0xf8000000, 1, 0x28000000, 0xa0000000, 0xf8000000, 0x877db57b,
        ],
    },
    Computes {
        name: "countbits",
        first: 0x72d,
        destinations: ONE,
        sources: 1,
        left: &[
            0, 1, 0x1f, 1, 0x20, 1, 0x1f, 1, 0x20, 2, 5, 1, 2, 2, 5, 0x15,
        ],
    },
];

/// Words, and what the old ones are stored over.
pub static OLD: [u32; 8] = [5, 0xffffffff, 0x80000000, 0x7fffffff, 0, 0, 0, 0];

/// The values that an atomic has for each word, and the destinations of the old ones.
pub static VALUES: [(u32, u32); 4] = [(3, 0x10), (1, 0x20), (0x7fffffff, 0x40), (0x80000000, 0x80)];

/// An atomic's first word, and what becomes of the words, with the old ones behind them.
pub struct Atomic {
    pub name: &'static str,
    pub first: u32,
    pub left: [u32; 8],
}

pub static ATOMICS: [Atomic; 9] = [
    Atomic {
        name: "atomic iadd",
        first: 0x1238,
        left: [
            8, 0, 0xffffffff, 0xffffffff, 5, 0xffffffff, 0x80000000, 0x7fffffff,
        ],
    },
    Atomic {
        name: "atomic and",
        first: 0x1239,
        left: [1, 1, 0, 0, 5, 0xffffffff, 0x80000000, 0x7fffffff],
    },
    Atomic {
        name: "atomic or",
        first: 0x123a,
        left: [
            7, 0xffffffff, 0xffffffff, 0xffffffff, 5, 0xffffffff, 0x80000000, 0x7fffffff,
        ],
    },
    Atomic {
        name: "atomic xor",
        first: 0x123b,
        left: [
            6, 0xfffffffe, 0xffffffff, 0xffffffff, 5, 0xffffffff, 0x80000000, 0x7fffffff,
        ],
    },
    Atomic {
        name: "atomic imin",
        first: 0x123c,
        left: [
            3, 0xffffffff, 0x80000000, 0x80000000, 5, 0xffffffff, 0x80000000, 0x7fffffff,
        ],
    },
    Atomic {
        name: "atomic imax",
        first: 0x123d,
        left: [
            5, 1, 0x7fffffff, 0x7fffffff, 5, 0xffffffff, 0x80000000, 0x7fffffff,
        ],
    },
    Atomic {
        name: "atomic umin",
        first: 0x123e,
        left: [
            3, 1, 0x7fffffff, 0x7fffffff, 5, 0xffffffff, 0x80000000, 0x7fffffff,
        ],
    },
    Atomic {
        name: "atomic umax",
        first: 0x123f,
        left: [
            5, 0xffffffff, 0x80000000, 0x80000000, 5, 0xffffffff, 0x80000000, 0x7fffffff,
        ],
    },
    Atomic {
        name: "atomic exchange",
        first: 0x1240,
        left: [
            3, 1, 0x7fffffff, 0x80000000, 5, 0xffffffff, 0x80000000, 0x7fffffff,
        ],
    },
];
