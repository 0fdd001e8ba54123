//! An independent checker of proofs that one list of policies is at least as strict as another.
//!
//! It knows nothing of how a proof was found. Once a checker is made, no call takes memory.
#![tactic(auto)]

mod before;
mod checker;
mod leaf;
mod making;
mod prepared_claim;
mod trees;
mod walk;

pub use checker::{Checker, Rejected};
