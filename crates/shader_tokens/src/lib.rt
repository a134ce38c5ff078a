//! The decoder of shaders: from the words of a shader to its tree, or to the first bad word.
#![tactic(auto)]

mod decoding;
mod end;
mod gather;
mod item;
mod levels;
mod nesting;
mod reader;
mod rules;
mod table;
mod words;

pub use decoding::decode;
pub use end::ShaderEnd;
pub use shader_model::{
    Declared, Ids, Instr, Node, Operand, Shader, ShaderFault, ShaderKind, SlotUse, Target, Test,
};
