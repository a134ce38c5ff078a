//! A shader's tree, and what it means: how words spell it, what one invocation of it does, and a dispatch.
#![tactic(auto)]

mod dispatch;
mod fault;
mod ids;
mod opcode;
mod places;
mod shader;
mod statement;
mod tree;

pub use dispatch::{allows, is_allowed, volume};
pub use fault::{ShaderFault, ShaderKind};
pub use ids::Ids;
pub use opcode::{Access, Kind, Layout, Opcode, Role, Row};
pub use places::Places;
pub use shader::Shader;
pub use statement::Statement;
pub use tree::{Declared, Instr, Node, Operand, SlotUse, Target, Test};
