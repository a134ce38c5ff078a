//! What an accepted call changes, which bytes it binds, and what is kept of it for the calls behind it.
#![tactic(auto)]

mod bound;
mod dispatches;
mod effect;
mod keep;
mod listed;
mod played;

pub use bound::push_bound;
pub use effect::apply;
pub use keep::keep_call;
pub use listed::{ListUses, keep_list, part};
pub use played::{call_in, count_of, set_by};
