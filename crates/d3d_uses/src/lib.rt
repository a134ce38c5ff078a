//! What is kept of the calls so far: which bytes of each buffer are bound, and the last call that binds some of it.
#![tactic(auto)]

mod held;
mod ranges;
mod uses;

pub use ranges::Ranges;
pub use uses::Uses;
