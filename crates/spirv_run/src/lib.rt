//! The machine that runs a SPIR-V module of the profile: its words decoded once into a table of steps, and the
//! invocations of a dispatch over the words of slots.
#![tactic(auto)]

mod bindings;
mod cells;
mod decode;
mod dispatch;
mod frame;
mod machine;
mod names;
mod operations;
mod pointers;
mod run;
mod start;
mod step;
mod table;
mod thread;
mod value;

pub use machine::Machine;
