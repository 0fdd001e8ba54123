//! What a checker knows of its claim before it walks.
use csp_answer::AnswerTable;
use csp_model::PolicyList;
use csp_proof::Proof;

// A shape, and an enforced policy of the second list, by their numbers.
#[derive(Clone, Copy, Debug)]
pub(crate) struct NumberedPair {
    pub shape: u8,
    pub policy: u32,
}

// A claim, with all that is made of it once.
#[derive(Debug, Drop)]
pub(crate) struct PreparedClaim<'a> {
    pub first: &'a PolicyList,
    pub second: &'a PolicyList,
    pub proof: &'a Proof,
    // What the policies of both lists answer at each shape.
    pub table: AnswerTable,
    // The pairs that the trees have to be for, in order.
    pub pairs: Vec<NumberedPair>,
    // For each tree whether it has nodes of its own, of which none is met: they are for any policy.
    pub unmet: Vec<bool>,
}
