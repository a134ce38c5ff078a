//! One module per shader: each part that finds none emits it, and all see that of the first to finish.
#![tactic(auto)]

mod cache;
mod cell;
mod laws;
mod made;
mod source;
mod tokens;
mod worker;

pub use cache::{Cache, CacheNote};
pub use laws::modules_do_as_shaders;
pub use worker::worker_step;
