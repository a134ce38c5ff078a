//! The storage classes of pointers and variables (SPIR-V 1.6, section 3.7).

/// Of built-ins.
pub const INPUT: u32 = 1;
/// Of the function's variables.
pub const FUNCTION: u32 = 7;
/// Of the push constants.
pub const PUSH_CONSTANT: u32 = 9;
/// Of buffers.
pub const STORAGE_BUFFER: u32 = 12;
