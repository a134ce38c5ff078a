use cs_chunk::Chunk;
use dx_types::{CallNo, Reply};

/// What an act of the recorder came to.
#[derive(Drop)]
pub enum AppStep {
    /// An act without line and without chunk.
    Entry,
    /// The line of a call.
    Line(Reply),
    /// The open chunk was due, and goes on its way.
    Hand(Chunk),
    /// A call, the end, or a chunk with 32 on their way before it waits until this call is finished. Nothing changed.
    Waits { used: CallNo },
    /// No block of this class is known to be free, and 64 were made. Nothing changed.
    NoBlock { class: usize },
    /// The run is complete.
    Ended(Reply),
    /// There is no memory. The part isn't used again.
    NoMemory,
}
