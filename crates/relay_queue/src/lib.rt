//! A bounded queue between two threads, in which each message follows those before it.
#![tactic(auto)]

mod message;
mod relay;
mod rule;

pub use message::{LogName, Numbered};
pub use relay::{Relay, Sending, Taking};
pub use rule::{Succession, Track};
