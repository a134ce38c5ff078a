//! The machine that plays a log by its plan, one step at a time.
#![tactic(auto)]

mod commands;
mod events;
mod machine;
mod turn;
mod unplayed;

pub use events::{Event, Stepped};
pub use machine::Core;
pub use unplayed::first_unbuilt;
