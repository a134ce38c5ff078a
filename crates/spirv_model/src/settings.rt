//! What a module of the profile is set up with (SPIR-V 1.6, sections 3.3 to 3.6, 3.23, 3.24, 3.27 and 3.31), and the
//! literals of its types.

/// The capability Shader.
pub const SHADER: u32 = 1;
/// The addressing model Logical.
pub const LOGICAL: u32 = 0;
/// The memory model GLSL450.
pub const GLSL_450: u32 = 1;
/// The execution model GLCompute.
pub const GL_COMPUTE: u32 = 5;
/// The execution mode LocalSize.
pub const LOCAL_SIZE: u32 = 17;
/// The entry point's name, the text `main`, in one word.
pub const NAME_MAIN: u32 = 0x6e69_616d;
/// The end of the entry point's name.
pub const NAME_END: u32 = 0;
/// The mask None of a function's, a selection's or a loop's control.
pub const NO_CONTROL: u32 = 0;
/// The scope Device of an atomic instruction.
pub const DEVICE_SCOPE: u32 = 1;
/// The memory semantics Relaxed of an atomic instruction.
pub const RELAXED: u32 = 0;
/// The width of words, in bits.
pub const WORD_WIDTH: u32 = 32;
/// The sign of integers without one.
pub const UNSIGNED: u32 = 0;
/// How many bytes apart the words of an array stand.
pub const WORD_BYTES: u32 = 4;
/// The descriptor set of all buffers.
pub const ONLY_SET: u32 = 0;
