//! What an item asks of the device: its work on the blocks in which buffers stand, and the word that decides whether it
//! is done.
#![tactic(auto)]

mod blocks;
mod ranges;
mod shown;
mod slots;
mod works;

pub use blocks::BufferBlocks;
pub use ranges::{condition, range_on, skips};
pub use works::{clear, copy, dispatch};
