// Shaders with a bad word, by the rules that they break. The group's declaration has words 2 to 5, the first item behind
// it begins at word 6.

use ShaderKind::{Group, Length, Nesting, Opcode, Operand, Register, Slot};
use shader_tokens::ShaderKind;

/// What breaks a rule, the bad word with its kind, and the items that stand behind the first two words of such shaders.
pub struct Rule {
    pub shows: &'static str,
    pub word: u32,
    pub kind: ShaderKind,
    pub shaders: &'static [&'static [u32]],
}

pub static RULES: [Rule; 37] = [
    Rule {
        shows: "nothing, or another item, stands first",
        word: 2,
        kind: Group,
        shaders: &[&[], &[0x202, 1], &[0x1c8]],
    },
    Rule {
        shows: "a group's sizes",
        word: 3,
        kind: Group,
        shaders: &[
            &[0x401, 0, 1, 1],
            &[0x401, 1025, 1, 1],
            &[0x401, 1, 1, 0],
            &[0x401, 1, 1, 65],
            &[0x401, 41, 25, 1],
        ],
    },
    Rule {
        shows: "a group's sizes",
        word: 2,
        kind: Operand,
        shaders: &[&[0x10401, 0, 1, 1]],
    },
    Rule {
        shows: "lengths",
        word: 2,
        kind: Length,
        shaders: &[&[0x301, 1, 1]],
    },
    Rule {
        shows: "lengths",
        word: 6,
        kind: Length,
        shaders: &[
            &[0x401, 1, 1, 1, 0x02],
            &[0x401, 1, 1, 1, 0x302, 1],
            &[0x401, 1, 1, 1, 0x302, 1, 0],
            &[0x401, 1, 1, 1, 0xc8],
        ],
    },
    Rule {
        shows: "lengths",
        word: 8,
        kind: Length,
        shaders: &[
            &[0x401, 1, 1, 1, 0x202, 1, 0x310, 0x10, 0x1],
            &[0x401, 1, 1, 1, 0x202, 1, 0x410, 0x10, 0x0, 0x0],
        ],
    },
    Rule {
        shows: "lengths",
        word: 6,
        kind: Length,
        shaders: &[&[0x401, 1, 1, 1, 0x252]],
    },
    Rule {
        shows: "opcodes",
        word: 6,
        kind: Opcode,
        shaders: &[
            &[0x401, 1, 1, 1, 0x1c8],
            &[0x401, 1, 1, 1, 0x12e],
            &[0x401, 1, 1, 1, 0x106],
            &[0x401, 1, 1, 1, 0x401, 1, 1, 1],
        ],
    },
    Rule {
        shows: "opcodes",
        word: 7,
        kind: Opcode,
        shaders: &[&[0x401, 1, 1, 1, 0x15c, 0x202, 1]],
    },
    Rule {
        shows: "temporaries",
        word: 8,
        kind: Register,
        shaders: &[&[0x401, 1, 1, 1, 0x202, 1, 0x202, 1]],
    },
    Rule {
        shows: "temporaries",
        word: 7,
        kind: Register,
        shaders: &[
            &[0x401, 1, 1, 1, 0x202, 4097],
            &[0x401, 1, 1, 1, 0x310, 0x10, 0x0],
        ],
    },
    Rule {
        shows: "temporaries",
        word: 9,
        kind: Register,
        shaders: &[&[0x401, 1, 1, 1, 0x202, 1, 0x310, 0x10010, 0x0]],
    },
    Rule {
        shows: "temporaries",
        word: 10,
        kind: Register,
        shaders: &[&[0x401, 1, 1, 1, 0x202, 1, 0x310, 0x10, 0x10000]],
    },
    Rule {
        shows: "temporaries",
        word: 14,
        kind: Register,
        shaders: &[&[
            0x401, 1, 1, 1, 0x202, 1, 0x203, 0, 0x510, 0x10, 0x1002, 0, 0x10000,
        ]],
    },
    Rule {
        shows: "declared slots",
        word: 7,
        kind: Slot,
        shaders: &[
            &[0x401, 1, 1, 1, 0x203, 14],
            &[0x401, 1, 1, 1, 0x404, 16, 0, 0],
            &[0x401, 1, 1, 1, 0x405, 8, 0, 0],
        ],
    },
    Rule {
        shows: "declared slots",
        word: 11,
        kind: Slot,
        shaders: &[&[0x401, 1, 1, 1, 0x405, 0, 0, 0, 0x405, 0, 0, 0]],
    },
    Rule {
        shows: "declared slots",
        word: 8,
        kind: Slot,
        shaders: &[&[0x401, 1, 1, 1, 0x404, 0, 3, 0]],
    },
    Rule {
        shows: "declared slots",
        word: 9,
        kind: Slot,
        shaders: &[
            &[0x401, 1, 1, 1, 0x404, 0, 0, 4],
            &[0x401, 1, 1, 1, 0x405, 0, 1, 2],
            &[0x401, 1, 1, 1, 0x405, 0, 1, 6],
            &[0x401, 1, 1, 1, 0x405, 0, 1, 2052],
            &[0x401, 1, 1, 1, 0x405, 0, 2, 3],
        ],
    },
    Rule {
        shows: "used slots",
        word: 10,
        kind: Slot,
        shaders: &[&[0x401, 1, 1, 1, 0x202, 1, 0x410, 0x10, 0x2, 0]],
    },
    Rule {
        shows: "used slots",
        word: 11,
        kind: Slot,
        shaders: &[&[0x401, 1, 1, 1, 0x202, 1, 0x430, 0x10, 0x0, 0x0]],
    },
    Rule {
        shows: "used slots",
        word: 15,
        kind: Slot,
        shaders: &[&[
            0x401, 1, 1, 1, 0x202, 1, 0x404, 0, 0, 0, 0x430, 0x10, 0x0, 0x100,
        ]],
    },
    Rule {
        shows: "used slots",
        word: 16,
        kind: Slot,
        shaders: &[&[
            0x401, 1, 1, 1, 0x202, 1, 0x404, 0, 0, 0, 0x532, 0x10, 0x0, 0x0, 0x0,
        ]],
    },
    Rule {
        shows: "used slots",
        word: 13,
        kind: Slot,
        shaders: &[&[
            0x401, 1, 1, 1, 0x202, 1, 0x404, 0, 0, 0, 0x10431, 0x0, 0x0, 0x0,
        ]],
    },
    Rule {
        shows: "used slots",
        word: 14,
        kind: Slot,
        shaders: &[
            &[
                0x401, 1, 1, 1, 0x202, 1, 0x404, 0, 0, 0, 0x638, 0x7, 0x0, 0x0, 0x0, 0x0,
            ],
            &[
                0x401, 1, 1, 1, 0x202, 1, 0x405, 0, 2, 2, 0x638, 0x7, 0x100, 0x0, 0x0, 0x0,
            ],
        ],
    },
    Rule {
        shows: "used slots",
        word: 15,
        kind: Slot,
        shaders: &[&[
            0x401, 1, 1, 1, 0x202, 1, 0x404, 0, 0, 0, 0x430, 0x10, 0x0, 0x201,
        ]],
    },
    Rule {
        shows: "used slots",
        word: 15,
        kind: Operand,
        shaders: &[&[
            0x401, 1, 1, 1, 0x202, 1, 0x404, 0, 0, 0, 0x430, 0x10, 0x0, 0x200,
        ]],
    },
    Rule {
        shows: "extras",
        word: 6,
        kind: Operand,
        shaders: &[&[0x401, 1, 1, 1, 0x10202, 1]],
    },
    Rule {
        shows: "extras",
        word: 8,
        kind: Operand,
        shaders: &[&[0x401, 1, 1, 1, 0x202, 1, 0x10310, 0x10, 0x0]],
    },
    Rule {
        shows: "extras",
        word: 12,
        kind: Operand,
        shaders: &[
            &[
                0x401, 1, 1, 1, 0x202, 1, 0x405, 0, 0, 0, 0x50431, 0x100, 0x0, 0x0,
            ],
            &[
                0x401, 1, 1, 1, 0x202, 1, 0x405, 0, 2, 4, 0x10435, 0x100, 0x0, 0x0,
            ],
        ],
    },
    Rule {
        shows: "destinations and sources",
        word: 9,
        kind: Operand,
        shaders: &[
            &[0x401, 1, 1, 1, 0x202, 1, 0x310, 0x0, 0x0],
            &[0x401, 1, 1, 1, 0x202, 1, 0x310, 0x13, 0x0],
            &[0x401, 1, 1, 1, 0x202, 1, 0x310, 0x110, 0x0],
            &[0x401, 1, 1, 1, 0x202, 1, 0x310, 0x17, 0x0],
            &[0x401, 1, 1, 1, 0x202, 1, 0x310, 0x10007, 0x0],
        ],
    },
    Rule {
        shows: "destinations and sources",
        word: 10,
        kind: Operand,
        shaders: &[
            &[0x401, 1, 1, 1, 0x202, 1, 0x310, 0x10, 0x7],
            &[0x401, 1, 1, 1, 0x202, 1, 0x310, 0x10, 0x1000],
            &[0x401, 1, 1, 1, 0x202, 1, 0x310, 0x10, 0x2000],
            &[0x401, 1, 1, 1, 0x202, 1, 0x710, 0x10, 0x10001, 0, 0, 0, 0],
        ],
    },
    Rule {
        shows: "destinations and sources",
        word: 14,
        kind: Operand,
        shaders: &[
            &[
                0x401, 1, 1, 1, 0x202, 1, 0x203, 0, 0x510, 0x10, 0x1002, 0, 0x1,
            ],
            &[
                0x401, 1, 1, 1, 0x202, 1, 0x203, 0, 0x510, 0x10, 0x1002, 0, 0x1000,
            ],
        ],
    },
    Rule {
        shows: "nesting",
        word: 6,
        kind: Nesting,
        shaders: &[
            &[0x401, 1, 1, 1, 0x152],
            &[0x401, 1, 1, 1, 0x153],
            &[0x401, 1, 1, 1, 0x155],
            &[0x401, 1, 1, 1, 0x156],
            &[0x401, 1, 1, 1, 0x159],
            &[0x401, 1, 1, 1, 0x257, 0x7],
        ],
    },
    Rule {
        shows: "nesting",
        word: 7,
        kind: Nesting,
        shaders: &[
            &[0x401, 1, 1, 1, 0x154, 0x152],
            &[0x401, 1, 1, 1, 0x154, 0x153],
        ],
    },
    Rule {
        shows: "nesting",
        word: 11,
        kind: Nesting,
        shaders: &[&[0x401, 1, 1, 1, 0x202, 1, 0x250, 0x0, 0x152, 0x152]],
    },
    Rule {
        shows: "nesting",
        word: 10,
        kind: Nesting,
        shaders: &[&[0x401, 1, 1, 1, 0x202, 1, 0x250, 0x0, 0x155]],
    },
    Rule {
        shows: "nesting",
        word: 1,
        kind: Nesting,
        shaders: &[
            &[0x401, 1, 1, 1, 0x154],
            &[0x401, 1, 1, 1, 0x202, 1, 0x250, 0x0, 0x152],
        ],
    },
];

/// Items of good shaders.
pub static GOOD: [&[u32]; 11] = [
    &[0x401, 1, 1, 1],
    &[0x401, 1024, 1, 1],
    &[0x401, 1, 16, 64],
    &[0x401, 1, 1, 1, 0x202, 4096],
    &[
        0x401, 1, 1, 1, 0x203, 13, 0x404, 13, 0, 0, 0x405, 7, 2, 1, 0x404, 15, 1, 2048,
    ],
    &[0x401, 1, 1, 1, 0x202, 1, 0x310, 0x7, 0xff0],
    &[
        0x401, 1, 1, 1, 0x202, 1, 0x203, 0, 0x510, 0x10, 0x1002, 0, 0xf0,
    ],
    &[0x401, 1, 1, 1, 0x15c, 0x15c],
    &[
        0x401, 1, 1, 1, 0x202, 1, 0x405, 0, 0, 0, 0x638, 0x7, 0x100, 0x0, 0x0, 0x0,
    ],
    &[
        0x401, 1, 1, 1, 0x202, 1, 0x405, 0, 2, 4, 0xf0435, 0x100, 0x0, 0x0,
    ],
    &[
        0x401, 1, 1, 1, 0x202, 1, 0x154, 0x250, 0x0, 0x156, 0x152, 0x159, 0x153, 0x155,
    ],
];
