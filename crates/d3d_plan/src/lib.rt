//! The plan of a log: of each call, why it is refused, which call it waits for, and which bytes it binds.
#![tactic(auto)]

mod end;
mod entry;
mod kept;
mod make;
mod plan;
mod scan;
mod step;
mod tables;

pub use end::PlanEnd;
pub use make::make_plan;
pub use plan::{Plan, Verdict};
