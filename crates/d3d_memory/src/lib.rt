//! The memory of Direct3D execution in order: the bytes of the live buffers and the counts of queries, and what each call
//! does to them.
#![tactic(auto)]

mod answers;
mod bind;
mod clear;
mod contents;
mod dispatch;
mod effects;
mod laws;
mod memory;
mod regions;
mod shown;

pub use answers::answer;
pub use effects::{accept, run};
pub use laws::logs_stay_in_limits;
pub use memory::Memory;
