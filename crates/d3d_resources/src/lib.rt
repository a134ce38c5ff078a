//! The table of the live buffers: their shapes by ids, and the limits on what is live.
#![tactic(auto)]

mod classes;
mod end;
mod laws;
mod refusals;
mod table;

pub use end::TableEnd;
pub use laws::creations_are_checked_in_order;
pub use refusals::{has_bit, is_id};
pub use table::Table;
