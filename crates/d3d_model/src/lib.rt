//! What Direct3D 11.3 execution in order means, in this project's profile: the state, the checks and the
//! effect of each call, the bytes that calls bind, the answers and the text of a run. Definitions, laws about them, and the numbers of what calls name.
#![tactic(auto)]

pub mod codes;
mod laws;
mod worked;

pub use codes::{MapMode, ObjectClass, PredicateKind};
pub use laws::{
    live_buffers_are_in_limits, live_buffers_have_their_bytes, refused_calls_leave_the_state,
};
pub use worked::model_computes;
