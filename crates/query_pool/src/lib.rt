//! Counts of invocations, added up between the marks of queries.
#![tactic(auto)]

mod queries;
mod sums;

pub use queries::{Ended, Queries};
pub use sums::Sum;
