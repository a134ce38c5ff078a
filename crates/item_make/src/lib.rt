//! What each item makes of the blocks of buffers: host writes, commands, staging ranges and query marks.
#![tactic(auto)]

mod bound;
mod commands;
mod laws;
mod makes;
mod plays;
mod queries;
mod staged;
mod writes;

pub use bound::use_bound;
pub use commands::{clear_view, copy_region, copy_whole, dispatch_counts, dispatch_groups};
pub use laws::buffers_have_makers;
pub use makes::make;
pub use plays::play;
pub use queries::mark_query;
pub use staged::stage;
pub use writes::{create, destroy, discard, overwrite_none};
