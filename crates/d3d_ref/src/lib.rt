//! The machine that plays a log in order, one call at a time, with one list of bytes for each buffer.
#![tactic(auto)]

mod acts;
mod machine;
mod run;

pub use machine::Machine;
pub use run::reference;
