// Shaders, and what a dispatch of them leaves, worked out apart from this program.

/// A shader's items behind the first two words, the words of constant buffer, resource and unordered access view 0, and
/// the view's words after a dispatch.
#[derive(Clone, Copy)]
pub struct Runs<'a> {
    pub shows: &'a str,
    pub items: &'a [u32],
    pub constants: &'a [u32],
    pub reads: &'a [u32],
    pub writes: &'a [u32],
    pub left: &'a [u32],
}

/// Dispatches of one group.
pub static SHADERS: [Runs<'static>; 29] = [
    Runs {
        shows: "a quotient by 0, a shift by 33 and a field of 20 bits",
        items: &[
            0x401, 1, 1, 1, 0x202, 1, 0x405, 0, 0, 0, 0xd17, 0x10, 0x20, 1, 7, 0, 0, 0, 1, 0, 0, 0,
            0, 0xc20, 0x40, 1, 5, 0, 0, 0, 1, 0x21, 0, 0, 0, 0x1129, 0x80, 1, 0x14, 0, 0, 0, 1,
            0x14, 0, 0, 0, 1, 0xabcdef12, 0, 0, 0, 0xf0831, 0x100, 1, 0, 0, 0, 0, 0xe40,
        ],
        constants: &[],
        reads: &[],
        writes: &[0, 0, 0, 0],
        left: &[0xffffffff, 0xffffffff, 0xa, 0xabc],
    },
    Runs {
        shows: "stores inside, behind the end and far outside",
        items: &[
            0x401, 1, 1, 1, 0x405, 0, 0, 0, 0x10c31, 0x100, 1, 0xc, 0, 0, 0, 1, 1, 0, 0, 0,
            0x10c31, 0x100, 1, 0x10, 0, 0, 0, 1, 2, 0, 0, 0, 0x10c31, 0x100, 1, 0xfffffffc, 0, 0,
            0, 1, 3, 0, 0, 0,
        ],
        constants: &[],
        reads: &[],
        writes: &[0, 0, 0, 0],
        left: &[0, 0, 0, 1],
    },
    Runs {
        shows: "a store of four components, two of them outside",
        items: &[
            0x401, 1, 1, 1, 0x405, 0, 0, 0, 0xf0c31, 0x100, 1, 8, 0, 0, 0, 0xe41, 1, 2, 3, 4,
        ],
        constants: &[],
        reads: &[],
        writes: &[9, 9, 9, 9],
        left: &[9, 9, 1, 2],
    },
    Runs {
        shows: "stores of three components and of one, at an address that is no multiple of 4",
        items: &[
            0x401, 1, 1, 1, 0x405, 0, 0, 0, 0x70c31, 0x100, 1, 0, 0, 0, 0, 0xe41, 1, 2, 3, 4,
            0x10c31, 0x100, 1, 0x12, 0, 0, 0, 0xe41, 5, 6, 7, 8,
        ],
        constants: &[],
        reads: &[],
        writes: &[0, 0, 0, 0, 0],
        left: &[1, 2, 3, 0, 5],
    },
    Runs {
        shows: "the 4,097th turn ends the invocation",
        items: &[
            0x401, 1, 1, 1, 0x405, 0, 0, 0, 0x154, 0x1238, 7, 0x100, 1, 0, 0, 0, 0, 1, 0, 0, 0, 0,
            1, 1, 0, 0, 0, 0x155, 0x10c31, 0x100, 1, 4, 0, 0, 0, 1, 7, 0, 0, 0,
        ],
        constants: &[],
        reads: &[],
        writes: &[0, 0],
        left: &[0x1000, 0],
    },
    Runs {
        shows: "turns are counted over all loops",
        items: &[
            0x401, 1, 1, 1, 0x405, 0, 0, 0, 0x154, 0x1238, 7, 0x100, 1, 0, 0, 0, 0, 1, 0, 0, 0, 0,
            1, 1, 0, 0, 0, 0x154, 0x156, 0x155, 0x155, 0x10c31, 0x100, 1, 4, 0, 0, 0, 1, 7, 0, 0,
            0,
        ],
        constants: &[],
        reads: &[],
        writes: &[0, 0],
        left: &[0x800, 0],
    },
    Runs {
        shows: "a return in the inner of two loops",
        items: &[
            0x401, 1, 1, 1, 0x405, 0, 0, 0, 0x154, 0x154, 0x10c31, 0x100, 1, 0, 0, 0, 0, 1, 1, 0,
            0, 0, 0x15c, 0x10c31, 0x100, 1, 4, 0, 0, 0, 1, 2, 0, 0, 0, 0x155, 0x155, 0x10c31,
            0x100, 1, 8, 0, 0, 0, 1, 3, 0, 0, 0,
        ],
        constants: &[],
        reads: &[],
        writes: &[0, 0, 0],
        left: &[1, 0, 0],
    },
    Runs {
        shows: "a break in an if in a loop",
        items: &[
            0x401, 1, 1, 1, 0x202, 1, 0x405, 0, 0, 0, 0x154, 0x812, 0x10, 0, 1, 1, 0, 0, 0, 0x825,
            0x20, 0, 1, 5, 0, 0, 0, 0x250, 0x550, 0x156, 0x153, 0x155, 0x30831, 0x100, 1, 0, 0, 0,
            0, 0xe40,
        ],
        constants: &[],
        reads: &[],
        writes: &[0, 0],
        left: &[5, 0xffffffff],
    },
    Runs {
        shows: "a continue skips the rest of a turn, and a break by a test ends the loop",
        items: &[
            0x401, 1, 1, 1, 0x202, 1, 0x405, 0, 0, 0, 0x154, 0x812, 0x10, 0, 1, 1, 0, 0, 0, 0x828,
            0x20, 0, 1, 5, 0, 0, 0, 0x25a, 0x550, 0x1238, 7, 0x100, 1, 0, 0, 0, 0, 1, 0, 0, 0, 0,
            1, 1, 0, 0, 0, 0x823, 0x40, 0, 1, 7, 0, 0, 0, 0x257, 0xaa0, 0x155, 0x10831, 0x100, 1,
            4, 0, 0, 0, 0,
        ],
        constants: &[],
        reads: &[],
        writes: &[0, 0],
        left: &[3, 7],
    },
    Runs {
        shows: "tests for 0, and an else",
        items: &[
            0x401, 1, 1, 1, 0x202, 1, 0x405, 0, 0, 0, 0x651, 1, 0, 0, 0, 0, 0x10c31, 0x100, 1, 0,
            0, 0, 0, 1, 1, 0, 0, 0, 0x152, 0x10c31, 0x100, 1, 0, 0, 0, 0, 1, 2, 0, 0, 0, 0x153,
            0x650, 1, 0, 0, 0, 0, 0x10c31, 0x100, 1, 4, 0, 0, 0, 1, 1, 0, 0, 0, 0x152, 0x10c31,
            0x100, 1, 4, 0, 0, 0, 1, 2, 0, 0, 0, 0x153, 0x154, 0x658, 1, 1, 0, 0, 0, 0x658, 1, 0,
            0, 0, 0, 0x155, 0x154, 0x65b, 1, 1, 0, 0, 0, 0x65b, 1, 5, 0, 0, 0, 0x156, 0x155, 0x154,
            0x65e, 1, 1, 0, 0, 0, 0x10c31, 0x100, 1, 8, 0, 0, 0, 1, 3, 0, 0, 0, 0x65d, 1, 0, 0, 0,
            0, 0x65d, 1, 2, 0, 0, 0, 0x155, 0x10c31, 0x100, 1, 8, 0, 0, 0, 1, 4, 0, 0, 0,
        ],
        constants: &[],
        reads: &[],
        writes: &[0, 0, 0],
        left: &[1, 2, 3],
    },
    Runs {
        shows: "of two destinations the second is set last",
        items: &[
            0x401, 1, 1, 1, 0x202, 1, 0x405, 0, 0, 0, 0xd16, 0x30, 0x60, 0xe41, 0xffffffff,
            0xffffffff, 2, 0, 0xe41, 0xffffffff, 2, 3, 0, 0xf0831, 0x100, 1, 0, 0, 0, 0, 0xe40,
        ],
        constants: &[],
        reads: &[],
        writes: &[9, 9, 9, 9],
        left: &[0xfffffffe, 0xfffffffe, 6, 0],
    },
    Runs {
        shows: "sources are read before the destination is set",
        items: &[
            0x401, 1, 1, 1, 0x202, 1, 0x405, 0, 0, 0, 0x710, 0xf0, 0xe41, 1, 2, 3, 4, 0x310, 0xf0,
            0x1b0, 0xf0831, 0x100, 1, 0, 0, 0, 0, 0xe40,
        ],
        constants: &[],
        reads: &[],
        writes: &[0, 0, 0, 0],
        left: &[4, 3, 2, 1],
    },
    Runs {
        shows: "a null destination, and a mask of one component",
        items: &[
            0x401, 1, 1, 1, 0x202, 2, 0x405, 0, 0, 0, 0x710, 0x100f0, 0xe41, 1, 2, 3, 4, 0xd17, 7,
            0x10040, 1, 0x11, 0, 0, 0, 1, 5, 0, 0, 0, 0xf0831, 0x100, 1, 0, 0, 0, 0, 0x10e40,
        ],
        constants: &[],
        reads: &[],
        writes: &[0, 0, 0, 0],
        left: &[1, 2, 2, 4],
    },
    Runs {
        shows: "a typed element of two components",
        items: &[
            0x401, 1, 1, 1, 0x202, 1, 0x404, 0, 2, 2, 0x405, 0, 0, 0, 0x834, 0xf0, 0xe41, 1, 1, 1,
            1, 0, 0xf0831, 0x100, 1, 0, 0, 0, 0, 0xe40,
        ],
        constants: &[],
        reads: &[7, 8, 9, 0xa],
        writes: &[5, 5, 5, 5],
        left: &[9, 0xa, 0, 1],
    },
    Runs {
        shows: "a typed element outside",
        items: &[
            0x401, 1, 1, 1, 0x202, 1, 0x404, 0, 2, 2, 0x405, 0, 0, 0, 0x834, 0xf0, 0xe41, 1, 1, 1,
            1, 0, 0xf0831, 0x100, 1, 0, 0, 0, 0, 0xe40,
        ],
        constants: &[],
        reads: &[7, 8, 9],
        writes: &[5, 5, 5, 5],
        left: &[0, 0, 0, 0],
    },
    Runs {
        shows: "a typed element of a view that is not bound",
        items: &[
            0x401, 1, 1, 1, 0x202, 1, 0x404, 0, 2, 1, 0x405, 0, 0, 0, 0x834, 0xf0, 1, 0, 0, 0, 0,
            0, 0xf0831, 0x100, 1, 0, 0, 0, 0, 0xe40,
        ],
        constants: &[],
        reads: &[],
        writes: &[5, 5, 5, 5],
        left: &[0, 0, 0, 0],
    },
    Runs {
        shows: "a typed store and load of an unordered access view",
        items: &[
            0x401, 1, 1, 1, 0x202, 1, 0x405, 0, 2, 4, 0xf0c35, 0x100, 1, 1, 0, 0, 0, 0xe41, 1, 2,
            3, 4, 0xf0c35, 0x100, 1, 2, 0, 0, 0, 0xe41, 9, 9, 9, 9, 0x834, 0x30, 1, 1, 0, 0, 0,
            0x100, 0xf0835, 0x100, 1, 0, 0, 0, 0, 0x110,
        ],
        constants: &[],
        reads: &[],
        writes: &[0, 0, 0, 0, 0, 0, 0, 0, 0, 0, 0],
        left: &[2, 1, 2, 1, 1, 2, 3, 4, 0, 0, 0],
    },
    Runs {
        shows: "a load of y alone is of the word behind the address",
        items: &[
            0x401, 1, 1, 1, 0x202, 1, 0x404, 0, 0, 0, 0x405, 0, 0, 0, 0x830, 0x20, 0xe41, 4, 4, 4,
            4, 0, 0xf0831, 0x100, 1, 0, 0, 0, 0, 0xe40,
        ],
        constants: &[],
        reads: &[5, 6, 7, 8],
        writes: &[1, 1, 1, 1],
        left: &[0, 7, 0, 0],
    },
    Runs {
        shows: "a load whose last components are outside",
        items: &[
            0x401, 1, 1, 1, 0x202, 1, 0x404, 0, 0, 0, 0x405, 0, 0, 0, 0x830, 0xf0, 1, 0xb, 0, 0, 0,
            0, 0xf0831, 0x100, 1, 0, 0, 0, 0, 0xe40,
        ],
        constants: &[],
        reads: &[5, 6, 7, 8],
        writes: &[1, 1, 1, 1],
        left: &[7, 8, 0, 0],
    },
    Runs {
        shows: "a structure's words, and those behind its end",
        items: &[
            0x401, 1, 1, 1, 0x202, 1, 0x404, 0, 1, 0xc, 0x405, 0, 0, 0, 0xd32, 0xf0, 1, 1, 0, 0, 0,
            1, 4, 0, 0, 0, 0, 0xf0831, 0x100, 1, 0, 0, 0, 0, 0xe40,
        ],
        constants: &[],
        reads: &[1, 2, 3, 4, 5, 6, 7, 8],
        writes: &[9, 9, 9, 9],
        left: &[5, 6, 0, 0],
    },
    Runs {
        shows: "a structure outside, of which a part is there",
        items: &[
            0x401, 1, 1, 1, 0x202, 1, 0x404, 0, 1, 0xc, 0x405, 0, 0, 0, 0xd32, 0xf0, 1, 2, 0, 0, 0,
            1, 0, 0, 0, 0, 0, 0xf0831, 0x100, 1, 0, 0, 0, 0, 0xe40,
        ],
        constants: &[],
        reads: &[1, 2, 3, 4, 5, 6, 7, 8],
        writes: &[9, 9, 9, 9],
        left: &[0, 0, 0, 0],
    },
    Runs {
        shows: "a structured store that ends with its structure",
        items: &[
            0x401, 1, 1, 1, 0x405, 0, 1, 8, 0xf1133, 0x100, 1, 0, 0, 0, 0, 1, 4, 0, 0, 0, 0xe41, 1,
            2, 3, 4, 0xf1133, 0x100, 1, 2, 0, 0, 0, 1, 0, 0, 0, 0, 0xe41, 5, 6, 7, 8, 0xf1133,
            0x100, 1, 1, 0, 0, 0, 1, 0xfffffffc, 0, 0, 0, 0xe41, 7, 7, 7, 7,
        ],
        constants: &[],
        reads: &[],
        writes: &[9, 9, 9, 9, 9],
        left: &[9, 1, 9, 9, 9],
    },
    Runs {
        shows: "an atomic in a structure, whose old word is stored",
        items: &[
            0x401, 1, 1, 1, 0x202, 1, 0x405, 0, 1, 8, 0x1238, 0x90, 0x100, 0xe41, 1, 1, 1, 1,
            0xe41, 4, 4, 4, 4, 0xe41, 5, 5, 5, 5, 0x10d33, 0x100, 0xe41, 0, 0, 0, 0, 0xe41, 0, 0,
            0, 0, 0xe40,
        ],
        constants: &[],
        reads: &[],
        writes: &[1, 2, 3, 4],
        left: &[4, 2, 3, 9],
    },
    Runs {
        shows: "an atomic outside gives 0",
        items: &[
            0x401, 1, 1, 1, 0x202, 1, 0x405, 0, 1, 8, 0x1238, 0x90, 0x100, 0xe41, 1, 1, 1, 1,
            0xe41, 4, 4, 4, 4, 0xe41, 5, 5, 5, 5, 0x10d33, 0x100, 0xe41, 0, 0, 0, 0, 0xe41, 0, 0,
            0, 0, 0xe40,
        ],
        constants: &[],
        reads: &[],
        writes: &[1, 2],
        left: &[0, 2],
    },
    Runs {
        shows: "an atomic of a typed element, once whatever its mask",
        items: &[
            0x401, 1, 1, 1, 0x202, 1, 0x405, 0, 2, 1, 0x1238, 0xf0, 0x100, 1, 1, 0, 0, 0, 1,
            0xffffffff, 0, 0, 0, 1, 3, 0, 0, 0, 0xf0835, 0x100, 1, 0, 0, 0, 0, 0xaa0,
        ],
        constants: &[],
        reads: &[],
        writes: &[1, 2],
        left: &[2, 5],
    },
    Runs {
        shows: "compare and exchange, twice",
        items: &[
            0x401, 1, 1, 1, 0x202, 1, 0x405, 0, 0, 0, 0x1741, 0x10, 0x100, 1, 0, 0, 0, 0, 1, 9, 0,
            0, 0, 1, 4, 0, 0, 0, 1, 8, 0, 0, 0, 0x1741, 0x20, 0x100, 1, 4, 0, 0, 0, 1, 9, 0, 0, 0,
            1, 4, 0, 0, 0, 1, 8, 0, 0, 0, 0x30831, 0x100, 1, 8, 0, 0, 0, 0xe40,
        ],
        constants: &[],
        reads: &[],
        writes: &[4, 5, 0, 0],
        left: &[8, 5, 4, 5],
    },
    Runs {
        shows: "a constant behind number 0xffffffff",
        items: &[
            0x401, 1, 1, 1, 0x202, 1, 0x203, 0, 0x405, 0, 0, 0, 0x710, 0x10, 0xe41, 2, 2, 2, 2,
            0x510, 0xf0, 0x1e42, 0xffffffff, 0, 0xf0831, 0x100, 1, 0, 0, 0, 0, 0xe40,
        ],
        constants: &[1, 2, 3, 4, 5, 6, 7, 8],
        reads: &[],
        writes: &[9, 9, 9, 9],
        left: &[5, 6, 7, 8],
    },
    Runs {
        shows: "a constant outside the buffer",
        items: &[
            0x401, 1, 1, 1, 0x202, 1, 0x203, 0, 0x405, 0, 0, 0, 0x710, 0x10, 0xe41, 2, 2, 2, 2,
            0x510, 0xf0, 0x1e42, 0xffffffff, 0, 0xf0831, 0x100, 1, 0, 0, 0, 0, 0xe40,
        ],
        constants: &[1, 2, 3, 4],
        reads: &[],
        writes: &[9, 9, 9, 9],
        left: &[0, 0, 0, 0],
    },
    Runs {
        shows: "a constant by another temporary's z",
        items: &[
            0x401, 1, 1, 1, 0x202, 2, 0x203, 0, 0x405, 0, 0, 0, 0x710, 0x10040, 0xe41, 0, 0, 1, 0,
            0x510, 0xf0, 0x11b2, 0, 0x10aa0, 0xf0831, 0x100, 1, 0, 0, 0, 0, 0xe40,
        ],
        constants: &[1, 2, 3, 4, 5, 6, 7, 8],
        reads: &[],
        writes: &[9, 9, 9, 9],
        left: &[8, 7, 6, 5],
    },
];

/// Dispatches of 2, 1 and 2 groups.
pub static GROUPED: [Runs<'static>; 2] = [
    Runs {
        shows: "the ids of two threads in each group",
        items: &[
            0x401, 1, 2, 1, 0x202, 1, 0x405, 0, 1, 0x10, 0x914, 0x10, 4, 1, 2, 0, 0, 0, 6, 0x914,
            0x10, 0xaa4, 1, 4, 0, 0, 0, 0, 0xf0933, 0x100, 0, 1, 0, 0, 0, 0, 0xe43,
        ],
        constants: &[],
        reads: &[],
        writes: &[
            9, 9, 9, 9, 9, 9, 9, 9, 9, 9, 9, 9, 9, 9, 9, 9, 9, 9, 9, 9, 9, 9, 9, 9, 9, 9, 9, 9, 9,
            9, 9, 9,
        ],
        left: &[
            0, 0, 0, 0, 0, 1, 0, 0, 1, 0, 0, 0, 1, 1, 0, 0, 0, 0, 1, 0, 0, 1, 1, 0, 1, 0, 1, 0, 1,
            1, 1, 0,
        ],
    },
    Runs {
        shows: "groups and threads by z, then y, then x",
        items: &[
            0x401, 1, 2, 2, 0x202, 1, 0x405, 0, 0, 0, 0x1238, 0x10, 0x100, 1, 0, 0, 0, 0, 1, 0, 0,
            0, 0, 1, 4, 0, 0, 0, 0x914, 0x20, 0xaa4, 1, 2, 0, 0, 0, 4, 0x914, 0x20, 0x550, 1, 2, 0,
            0, 0, 0xaa5, 0x914, 0x20, 0x550, 1, 2, 0, 0, 0, 0x555, 0x10431, 0x100, 0, 0x550,
        ],
        constants: &[],
        reads: &[],
        writes: &[4, 0, 0, 0, 0, 0, 0, 0, 0, 0, 0, 0, 0, 0, 0, 0, 0],
        left: &[
            0x44, 0, 1, 2, 3, 4, 5, 6, 7, 8, 9, 0xa, 0xb, 0xc, 0xd, 0xe, 0xf,
        ],
    },
];
