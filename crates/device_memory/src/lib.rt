//! The blocks of device memory, and what the host's writes and the device's commands do to their bytes.
#![tactic(auto)]

mod bind;
mod copy;
mod dispatch;
mod exchange;
mod memory;
mod pieces;
mod run;
mod words;

pub use memory::DeviceMemory;
