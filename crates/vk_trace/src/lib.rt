//! The text of a listing: one line an operation. Each listing has one text, and each text is of one listing. An order of its
//! acts has a line too.
#![tactic(auto)]

mod fields;
mod kind;
mod laws;
mod mask;
mod order;
mod read;
mod trace_end;
mod values;
mod words;
mod work;
mod write;

pub use laws::one_spelling;
pub use order::read_order;
pub use read::{most_operations, read_op, read_ops};
pub use trace_end::{Stop, TraceEnd};
pub use write::print_ops;
