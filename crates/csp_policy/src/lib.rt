//! Reads policies (Content Security Policy Level 3, sections 2.2, 3.1 to 3.3 and 4), and tells how they were read.
#![tactic(auto)]

mod block;
mod caseless_name;
mod directive;
mod dropped;
mod error;
mod fate;
mod fields;
mod kinds;
pub mod laws;
mod lines;
mod longest;
mod pieces;
mod policies;
mod print;
mod read;
mod reader;
pub mod reading_laws;
mod serialized;
mod words;

pub use block::read_block;
pub use error::BlockError;
pub use fate::{Fate, Piece, Reason, read_pieces};
pub use fields::{field_values, trim};
pub use print::policy_text;
pub use read::reading;
pub use serialized::{SerializedPolicy, serialized_policies};
