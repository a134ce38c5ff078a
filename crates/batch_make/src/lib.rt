//! Makes a batch out of what its items do to blocks: host writes, commands with the barriers that their hazards cause,
//! staging ranges and query marks.
#![tactic(auto)]

mod parts;
mod stream;

pub use parts::Parts;
pub use stream::Stream;
