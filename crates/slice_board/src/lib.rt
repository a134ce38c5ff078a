//! Blocks at home in eight classes of 64 places, taken and given by many threads with no lock.
#![tactic(auto)]

mod board;
mod rule;

pub use board::{Board, BoardSeat, Take};
pub use rule::{Hand, Places, Pool};
