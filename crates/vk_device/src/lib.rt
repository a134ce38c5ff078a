//! The included Vulkan device. It accepts submitted batches, runs their commands in any order that their barriers permit, and gives
//! completed batches back.
#![tactic(auto)]

mod accept;
mod accepted;
mod check;
mod check_batch;
mod complete;
mod copies;
mod device;
mod machines;
mod run;

pub use accepted::Accepted;
pub use device::Device;
