//! Cells: sets of checks of one shape, given by literals that are true of all of them.
#![tactic(auto)]

mod cell;
mod implies;
pub mod laws;

pub use cell::Cell;
