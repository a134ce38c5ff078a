//! Pages of staging memory: bytes that are staged stand one after another in a page, and pages are used again.
#![tactic(auto)]

mod page;
mod pages;

pub use page::Page;
pub use pages::Pages;
