//! The words of a text: where a byte cuts it, and the numbers and bytes that its words spell.
#![tactic(auto)]

mod cuts;
mod decimal;
mod hexadecimal;

pub use cuts::{behind, cut, next_line};
pub use decimal::{read_u8, read_u32, read_u64, u16_to, u32_to};
pub use hexadecimal::is_lower;
