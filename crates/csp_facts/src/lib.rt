//! What a policy's answer can depend on: atoms, which are facts about a check, what one fact says of another, and the
//! shapes of checks, which say the rest.
//!
//! There are 189 shapes, numbered from 0 to 188, and each valid check has exactly one. `holds`, `follows`,
//! `follows_as` and the calls on shapes take no memory.
#![tactic(auto)]

mod atom;
mod copies;
mod holding;
mod hosts;
pub mod laws;
mod number;
mod of_check;
pub mod order;
mod shape;
pub mod shape_laws;
mod table;
mod valid;
mod vocabulary;

pub use atom::{Atom, Literal, Vocabulary};
pub use holding::holds;
pub use number::{shape_at, shape_number};
pub use of_check::shape_of;
pub use shape::Shape;
pub use table::{follows, follows_as};
pub use vocabulary::vocabulary_of;
