//! The built-ins, each a variable that an invocation reads (SPIR-V 1.6, section 3.21).

/// The group of an invocation.
pub const WORKGROUP_ID: u32 = 26;
/// The place of an invocation in its group.
pub const LOCAL_INVOCATION_ID: u32 = 27;
/// The place of an invocation in its dispatch.
pub const GLOBAL_INVOCATION_ID: u32 = 28;
/// The number of an invocation in its group.
pub const LOCAL_INVOCATION_INDEX: u32 = 29;
