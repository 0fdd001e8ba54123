//! Names, which are the atoms of policies and of proofs as numbers, and branches: what the literals from the root of
//! a proof's tree to a node decide of each name.
//!
//! An atom is around another where each check that has the inner one has the outer one. Two atoms are nested
//! so, or apart. In the right order those that an atom is around stand right behind it. So a name is around
//! a range of names, and what a literal says of an atom is told by comparing numbers. Only while names are
//! made are texts looked at.
//!
//! So a branch needs to hold little: for each part of a check the innermost atom that holds, and which atoms
//! were denied. A literal changes what stands at one name alone, so the last one is taken back by one value.
#![tactic(auto)]

mod branch;
mod group;
pub mod laws;
mod mark;
pub mod name_laws;
mod named_literal;
mod names;
mod order;
mod ranges;
mod sorting;
mod walker;

pub use branch::{Branch, Change};
pub use named_literal::NamedLiteral;
pub use names::Names;
pub use order::part_number;
pub use walker::Walker;
