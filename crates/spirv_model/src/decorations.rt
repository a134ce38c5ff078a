//! The decorations (SPIR-V 1.6, section 3.20).

/// Of a structure that is the block of a buffer or of the push constants.
pub const BLOCK: u32 = 2;
/// How many bytes apart the elements of an array stand.
pub const ARRAY_STRIDE: u32 = 6;
/// Which built-in a variable is.
pub const BUILT_IN: u32 = 11;
/// The binding of a buffer's variable.
pub const BINDING: u32 = 33;
/// The descriptor set of a buffer's variable.
pub const DESCRIPTOR_SET: u32 = 34;
/// Where a member stands in its block, in bytes. Of members alone.
pub const OFFSET: u32 = 35;
