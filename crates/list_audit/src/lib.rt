//! Audits a listing: is each hazard covered, and is an order allowed?
#![tactic(auto)]

mod audit_end;
mod laws;
mod numbers;
mod reading;
mod report;
mod sharing;

pub use audit_end::AuditEnd;
pub use laws::one_reading;
pub use report::{Report, audit};
