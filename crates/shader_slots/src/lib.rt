//! The parts of buffers that are bound to a dispatch's slots, by words: read and written by the evaluator of shaders,
//! by the module machine and by the device.
#![tactic(auto)]

mod slots;
mod views;
mod whole;
mod words;
mod writes;

pub use slots::Slots;
pub use views::{loaded, place, view_len, view_word, word_at};
pub use whole::Whole;
