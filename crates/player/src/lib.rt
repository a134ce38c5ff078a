//! The top call: it reads a log, plays it and writes what it says.
#![tactic(auto)]

mod audit;
mod command;
mod generate;
mod run;
mod status;
mod task;
mod top;

pub use histogram_log::gen_log;
pub use status::{Status, status_number, status_text};
pub use top::replay;
