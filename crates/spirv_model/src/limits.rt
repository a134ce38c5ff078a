//! The limits of instructions and of their runs.

/// The most words of an instruction, its first word included (SPIR-V 1.6, section 2.3).
pub const MAX_INSTRUCTION_WORDS: usize = 65_535;
/// How many instructions an invocation may run for each word of its module.
pub const STEPS_A_WORD: u32 = 8_192;
