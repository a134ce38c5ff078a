//! Chunks: what the recorder hands to the command stream at once. A chunk has entries in order, and the pages on which
//! their bytes are staged.
#![tactic(auto)]

mod chunk;
mod entry;
mod entry_queue;
mod page_queue;

pub use chunk::Chunk;
pub use entry::Entry;
