//! Which of many lists of policies are at least as strict as which.
#![tactic(auto)]

mod carrying;
mod chain;
mod copies;
mod known;
pub mod laws;
mod ordering;
mod pair;
mod relation;
mod trials;
mod way;
mod within;

pub use ordering::order;
pub use relation::{Because, Relation};
