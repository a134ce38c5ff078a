//! SPIR-V modules for compute, in the profile that the player emits and runs: the numbers of the standard, the
//! instructions, which modules are well formed, and what a module means.
#![tactic(auto)]

pub mod built_ins;
mod code;
pub mod decorations;
mod fault;
pub mod header;
pub mod limits;
mod merge;
mod op;
pub mod opcodes;
mod section;
pub mod settings;
pub mod storage_classes;
mod table;

pub use code::{AtomicCode, BinaryCode, Opcode, Row, UnaryCode};
pub use fault::{ModuleFault, ModuleKind};
pub use merge::Merge;
pub use op::Op;
pub use section::Section;
