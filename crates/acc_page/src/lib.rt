//! Texts that are written part by part, and remember that memory lacked.
#![tactic(auto)]

mod pages;
mod points;

pub use pages::Page;
pub use points::push_at;
