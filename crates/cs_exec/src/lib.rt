//! The command stream: makes batches out of chunks, item by item, on the objects that each item meets.
#![tactic(auto)]

mod part;

pub use part::CsPart;
