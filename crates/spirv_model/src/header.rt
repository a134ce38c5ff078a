//! The header of a module (SPIR-V 1.6, section 2.3).

/// The first word of each module.
pub const MAGIC_NUMBER: u32 = 0x0723_0203;
/// The second word: version 1.6.
pub const VERSION: u32 = 0x0001_0600;
/// The third word: the generator of no tool.
pub const GENERATOR: u32 = 0;
/// The fifth word, behind the bound of the ids.
pub const SCHEMA: u32 = 0;
/// The first word of an instruction is so many times its number of words, and its opcode.
pub const WORD_COUNT_UNIT: u32 = 65_536;
