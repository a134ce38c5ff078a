//! Plain types that the parts of the player share: numbers, ranges, shapes, refusals, and replies with
//! their lines.
#![tactic(auto)]

mod byte_list;
pub mod limits;
mod numbers;
mod range;
mod refusal;
mod reply;
mod shape;

pub use byte_list::ByteList;
pub use numbers::{BlockNo, CallNo, ChunkNo};
pub use range::{Range, ResRange, Span};
pub use refusal::Refusal;
pub use reply::{Reply, reply_line};
pub use shape::{Form, Shape, Usage, ViewShape};
