//! Proofs that one list of policies is at least as strict as another: their text, and the rules that they
//! keep.
#![tactic(auto)]

mod atom;
mod error;
pub mod laws;
mod line;
mod print;
mod progress;
mod proof;
mod read;
mod words;

pub use error::ProofError;
pub use print::proof_text;
pub use proof::{Body, Format, Node, Proof, Tree};
pub use read::read_proof;
