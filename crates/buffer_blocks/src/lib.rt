//! Blocks of device memory, which lend their bytes in parts.
#![tactic(auto)]

mod block;
mod bytes;

pub use block::Block;
