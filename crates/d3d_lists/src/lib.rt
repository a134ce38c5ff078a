//! Command lists: the calls that the deferred contexts record, the lists that are live, and which objects they name.
#![tactic(auto)]

mod counts;
mod lists;
mod name;
mod named;
mod numbered;
mod opened;
mod recorder;

pub use name::Name;
pub use numbered::Numbered;
pub use recorder::{CONTEXTS, Recorder};
