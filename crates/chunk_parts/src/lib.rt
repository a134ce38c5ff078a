//! A chunk as the model has it, and what it hands to its batch: the places of its entries, the blocks that they take and
//! retire, and its pages.
#![tactic(auto)]

mod handed;
mod pages;

pub use handed::Handed;
pub use pages::take_pages;
