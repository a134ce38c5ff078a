//! The emitter: from a shader's tree to the words of a SPIR-V module that does the same.
#![tactic(auto)]

mod access;
mod code;
mod collect;
mod declarations;
mod destinations;
mod emitter;
mod flow;
mod formula;
mod ids;
mod instructions;
mod leaves;
mod lower;
mod module;
mod nodes;
mod numbers;
mod opcodes;
mod piece;
mod piece_code;
mod places;
mod plan;
mod preamble;
mod result_types;
mod sources;
mod spots;
mod steps;
mod values;
mod variables;

pub use emitter::emit;
