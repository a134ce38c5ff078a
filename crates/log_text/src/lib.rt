//! The text form of a log: one line a call. Each log has one text, and each text is of one log.
#![tactic(auto)]

mod fields;
mod laws;
mod read;
mod text_end;
mod write;

pub use laws::one_spelling;
pub use read::asm;
pub use text_end::TextEnd;
pub use write::list;
