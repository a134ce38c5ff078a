//! The opcodes of the profile's instructions, under the standard's names (SPIR-V 1.6, section 3.49).

pub const MEMORY_MODEL: u16 = 14;

pub const ENTRY_POINT: u16 = 15;

pub const EXECUTION_MODE: u16 = 16;

pub const CAPABILITY: u16 = 17;

pub const TYPE_VOID: u16 = 19;

pub const TYPE_BOOL: u16 = 20;

pub const TYPE_INT: u16 = 21;

pub const TYPE_VECTOR: u16 = 23;

pub const TYPE_RUNTIME_ARRAY: u16 = 29;

pub const TYPE_STRUCT: u16 = 30;

pub const TYPE_POINTER: u16 = 32;

pub const TYPE_FUNCTION: u16 = 33;

pub const CONSTANT: u16 = 43;

pub const FUNCTION: u16 = 54;

pub const FUNCTION_END: u16 = 56;

pub const VARIABLE: u16 = 59;

pub const LOAD: u16 = 61;

pub const STORE: u16 = 62;

pub const ACCESS_CHAIN: u16 = 65;

pub const DECORATE: u16 = 71;

pub const MEMBER_DECORATE: u16 = 72;

pub const COMPOSITE_EXTRACT: u16 = 81;

pub const S_NEGATE: u16 = 126;

pub const I_ADD: u16 = 128;

pub const I_SUB: u16 = 130;

pub const I_MUL: u16 = 132;

pub const U_DIV: u16 = 134;

pub const U_MOD: u16 = 137;

pub const U_MUL_EXTENDED: u16 = 151;

pub const S_MUL_EXTENDED: u16 = 152;

pub const LOGICAL_AND: u16 = 167;

pub const LOGICAL_NOT: u16 = 168;

pub const SELECT: u16 = 169;

pub const I_EQUAL: u16 = 170;

pub const I_NOT_EQUAL: u16 = 171;

pub const U_GREATER_THAN_EQUAL: u16 = 174;

pub const S_GREATER_THAN_EQUAL: u16 = 175;

pub const U_LESS_THAN: u16 = 176;

pub const S_LESS_THAN: u16 = 177;

pub const SHIFT_RIGHT_LOGICAL: u16 = 194;

pub const SHIFT_RIGHT_ARITHMETIC: u16 = 195;

pub const SHIFT_LEFT_LOGICAL: u16 = 196;

pub const BITWISE_OR: u16 = 197;

pub const BITWISE_XOR: u16 = 198;

pub const BITWISE_AND: u16 = 199;

pub const NOT: u16 = 200;

pub const BIT_REVERSE: u16 = 204;

pub const BIT_COUNT: u16 = 205;

pub const ATOMIC_EXCHANGE: u16 = 229;

pub const ATOMIC_COMPARE_EXCHANGE: u16 = 230;

pub const ATOMIC_I_ADD: u16 = 234;

pub const ATOMIC_S_MIN: u16 = 236;

pub const ATOMIC_U_MIN: u16 = 237;

pub const ATOMIC_S_MAX: u16 = 238;

pub const ATOMIC_U_MAX: u16 = 239;

pub const ATOMIC_AND: u16 = 240;

pub const ATOMIC_OR: u16 = 241;

pub const ATOMIC_XOR: u16 = 242;

pub const LOOP_MERGE: u16 = 246;

pub const SELECTION_MERGE: u16 = 247;

pub const LABEL: u16 = 248;

pub const BRANCH: u16 = 249;

pub const BRANCH_CONDITIONAL: u16 = 250;

pub const RETURN: u16 = 253;
