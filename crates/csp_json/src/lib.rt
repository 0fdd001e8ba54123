//! JSON values whose texts are lent by what they were read from, and arrays of which one item is held at a
//! time (RFC 8259). What is JSON is what `serde_json` reads.
#![tactic(auto)]

mod array;
mod error;
mod number;
mod read;
mod value;

pub use array::ArrayReader;
pub use error::JsonError;
pub use json::Scratch;
pub use value::Value;
