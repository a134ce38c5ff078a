//! A generated log of any length: a histogram, whose rounds discard, update, dispatch and poll.
#![tactic(auto)]

mod laws;
mod make;
mod put;
mod words;

pub use laws::histograms_are_logs;
pub use make::{gen_log, polls};
