//! What is said of a pair of lists.
use csp_model::{Check, List};
use csp_proof::Proof;

/// Whether the second list of a pair allows every valid check that the first allows, and why.
#[derive(Debug, Drop)]
pub enum Because {
    /// It does, which this proof shows: one of the second format, in which no two trees have equal nodes of
    /// their own.
    Proof { proof: Proof },
    /// It does: a chain of pairs that have a proof and stand earlier leads from the first list through these
    /// to the second. Their numbers, in the order of the chain.
    Through { lists: List<u32> },
    /// It doesn't: a valid check that the first list allows and the second doesn't.
    Check { check: Check },
}

/// A pair of lists, and what is said of it.
#[derive(Debug, Drop)]
pub struct Relation {
    /// The number of the first list, counted from 1.
    pub first: u32,
    /// The number of the second list.
    pub second: u32,
    pub because: Because,
}
