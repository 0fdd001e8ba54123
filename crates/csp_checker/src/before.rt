//! What was judged before: nodes that need no second walk.
ghost use Rattle.std.specs.Prelude.{◌≡◌, IsTrue, Some, false, slice_get, true};
ghost use Rattle.csp_proof.specs.declared.proof.Body.TheVariants.{Same};
ghost use Rattle.csp_checker.specs.PreparedClaim.{IsAsked, IsReached, KeepsFor};

use crate::prepared_claim::PreparedClaim;
use csp_answer::AnswerTable;
use csp_proof::{Body, Tree};

// Whether both trees are for shapes of one kind, and for one policy unless it doesn't matter.
pub(crate) fn asks_the_same(table: &AnswerTable, one: &Tree, other: &Tree, for_any: bool) -> bool
    ensures policy { IsTrue result → for_any ≡ false → one.now.policy ≡ other.now.policy }
    ensures kinds { IsTrue result
        → slice_get table.now.kinds one.now.shape ≡ slice_get table.now.kinds other.now.shape }
{
    let fits = for_any || one.policy == other.policy;
    fits && kind_of(table, one.shape) == kind_of(table, other.shape)
}

fn kind_of(table: &AnswerTable, shape: u8) -> Option<usize>
    ensures { result ≡ slice_get table.now.kinds shape }
{
    table.kinds.get(shape as usize).copied()
}

// Whether a tree has the nodes of the tree of this number.
fn shares(tree: &Tree, number: u32) -> bool
    ensures { IsTrue result → tree.now.body ≡ Same number }
{
    match &tree.body {
        Body::Same { tree } => *tree == number,
        Body::Nodes { .. } => false,
    }
}

// Whether the tree of this number has nodes that are for any policy.
pub(crate) fn are_for_any(asked: &PreparedClaim, number: u32) -> bool
    ensures { IsTrue result → slice_get asked.now.unmet.items number ≡ Some true }
{
    match asked.unmet.get(number as usize) {
        Some(unmet) => *unmet,
        None => false,
    }
}

// Whether a tree before this one that has the nodes of the other asks the same. Then it was walked.
pub(crate) fn was_walked(
    asked: &PreparedClaim,
    number: usize,
    tree: &Tree,
    other: u32,
    for_any: bool,
) -> bool
    requires asked { IsAsked asked.now }
    requires reached { IsReached asked.now number tree.now }
    requires any { for_any ≡ true → slice_get asked.now.unmet.items other ≡ Some true }
    ensures { IsTrue result → KeepsFor asked.now tree.now other }
{
    let trees = asked.proof.trees.as_slice();
    for place in 0..number {
        let earlier = &trees[place];
        if shares(earlier, other) && asks_the_same(&asked.table, tree, earlier, for_any) {
            return true;
        }
    }
    false
}
