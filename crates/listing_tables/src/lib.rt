//! Commands and listings as plain data, for the tables of tests.
#![tactic(auto)]

mod tasks;

pub use tasks::{ALL_TOUCHES, ALL_WRITES, ONE_GROUP, Op, Part, Task, command, listing, operation};
