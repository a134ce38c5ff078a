//! Why a call is refused, asked of the live objects and of what is kept of the calls so far.
#![tactic(auto)]

mod dispatches;
mod lists;
mod maps;
mod new_view;
mod numbers;
mod places;
mod queries;
mod refusals;
mod resources;
mod settings;
mod shaders;
mod work;

pub use new_view::{NewView, described};
pub use numbers::shape_from;
pub use places::place_of;
pub use refusals::verdict;
pub use shaders::decode_created;
