//! The recorder's parts: what it keeps of the open chunk, of the chunks that it handed over, of blocks and pages, and its own part of
//! the listing.
#![tactic(auto)]

mod app_part;
mod buffers;
mod class_blocks;
mod copies;
mod counts;
mod due;
mod flight;
mod items;
mod listing;
mod marks;
mod open_chunk;
mod readback;
mod same_places;
mod staging;
mod stands;
mod step;
mod values;

pub use app_part::AppPart;
pub use buffers::{Buffer, Buffers};
pub use class_blocks::ClassBlocks;
pub use copies::Copies;
pub use counts::Counts;
pub use due::due_as_in_the_model;
pub use flight::{Flight, Sent};
pub use listing::{Listing, Own};
pub use marks::Marks;
pub use open_chunk::OpenChunk;
pub use readback::{Readback, readback_of, readbacks_as_in_the_model};
pub use staging::Staging;
pub use stands::{
    answers_stand_as_given, chunks_stand_as_handed_over, destroys_stand, first_posts_fit,
    flight_stands_after_posts, listing_expands_in_order, listing_stands_as_it_grows,
    plain_items_stand,
};
pub use step::AppStep;
pub use values::Values;
