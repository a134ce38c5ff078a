//! The command lists of deferred contexts, as the recorder executes them.
#![tactic(auto)]

mod list;
mod record;

pub use list::List;
pub use record::{record_each, record_list};
