//! Decides whether a listing covers its hazards, and whether it allows an order of its acts: without memory, and by an index
//! in less time.
#![tactic(auto)]

mod by_index;
mod classes;
mod cuts;
mod finish;
mod hazards;
mod index;
mod layers;
mod order;
mod order_by_index;
mod ordered;
mod touches;
mod tree;
mod turns;
mod visible;

pub use by_index::covered_by_index;
pub use hazards::{Uncovered, covered};
pub use order::{OrderEnd, allowed};
pub use order_by_index::allowed_by_index;
pub use touches::{touch_count, touch_of};
