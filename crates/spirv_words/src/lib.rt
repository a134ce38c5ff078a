//! The words of SPIR-V modules: read, with the first word that the profile refuses, and put together instruction by
//! instruction.
#![tactic(auto)]

mod arithmetic;
mod branches;
mod builder;
mod class;
mod declarations;
mod decoration;
mod each;
mod end;
mod entry;
mod flow;
mod front;
mod header;
mod instruction;
mod known;
mod late;
mod made;
mod memory;
mod merges;
mod module;
mod once;
mod operands;
mod place;
mod reading;
mod rules;
mod sections;
mod setup;
mod types;
mod values;
mod verdict;

pub use builder::Builder;
pub use end::ModuleEnd;
pub use front::{FrontView, front_of};
pub use module::{Module, read_module};
