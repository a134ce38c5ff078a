// The ids that each emitted module has.

pub const VOID_TYPE: u32 = 1;

pub const MAIN_TYPE: u32 = 2;

pub const WORD_TYPE: u32 = 3;

pub const TRUTH_TYPE: u32 = 4;

pub const VECTOR_TYPE: u32 = 5;

/// The type of the two halves of a product.
pub const PAIR_TYPE: u32 = 6;

pub const ARRAY_TYPE: u32 = 7;

/// The block of a buffer.
pub const BUFFER_BLOCK: u32 = 8;

/// The block of the push constants.
pub const LENGTHS_BLOCK: u32 = 9;

pub const TO_INPUT_VECTOR: u32 = 10;

pub const TO_INPUT_WORD: u32 = 11;

pub const TO_VARIABLE: u32 = 12;

pub const TO_LENGTHS: u32 = 13;

pub const TO_LENGTH: u32 = 14;

pub const TO_BUFFER: u32 = 15;

pub const TO_WORD: u32 = 16;

pub const GROUP_ID: u32 = 17;

pub const THREAD_ID: u32 = 18;

pub const GLOBAL_ID: u32 = 19;

pub const THREAD_INDEX: u32 = 20;

/// The push constants: the length of each slot.
pub const LENGTHS: u32 = 21;

/// The buffer of the first binding.
pub const FIRST_BUFFER: u32 = 22;

pub const MAIN: u32 = 60;

/// The first of the module's numbers.
pub const FIRST_NUMBER: u32 = 61;
