//! The objects that are live, as the checks of calls ask for them: buffers, views, shaders, queries and command lists, and
//! what is set and recorded on each context.
#![tactic(auto)]

mod objects;
mod queries;
mod query;
mod setting;
mod settings;
mod shaders;
mod views;

pub use objects::Objects;
pub use queries::Queries;
pub use query::{Query, Sort};
pub use setting::Setting;
pub use shaders::{LiveShader, Shaders, share};
pub use views::Views;
