//! Blocks that chunks retired, released once their chunk is finished.
#![tactic(auto)]

mod holds;

pub use holds::{Holds, Mark};
