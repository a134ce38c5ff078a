//! One invocation of a shader: the instructions by their opcodes, the sources that they read, the temporaries and the
//! words of views that they set, and the blocks.
#![tactic(auto)]

mod access;
mod action;
pub mod arithmetic;
mod dispatch;
mod frame;
mod invocation;
mod lanes;
mod plain;
mod run;
mod sources;
mod temps;
mod thread;
mod way;
mod work;

pub use dispatch::run_groups;
pub use frame::Frame;
pub use invocation::invoke;
pub use shader_model::Ids;
