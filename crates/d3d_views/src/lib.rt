//! Views of buffers, and what is set on a context: D3D11's compute shader stage with its slots, and its predication.
#![tactic(auto)]

mod bindings;
mod bound_view;
mod laws;
mod predicate;
mod ranges;
mod slots;
mod span;

pub use bindings::Bindings;
pub use bound_view::BoundView;
pub use laws::views_are_checked_in_order;
pub use predicate::Predicate;
pub use ranges::view_range;
pub use span::{lacks_bind, view_span};
