//! Judges the trees of a proof, one after the other.
ghost use Rattle.std.specs.Prelude.{◌≡◌, ◌+◌, slice_get};
ghost use Rattle.csp_proof.specs.Accepts as accepts;
ghost use Rattle.csp_proof.specs.Pairs.{Pair};
ghost use Rattle.csp_proof.specs.WellFormed.{body_at};
ghost use Rattle.csp_proof.specs.declared.proof.Body.TheVariants.{Same};
ghost use Rattle.csp_checker.specs.PreparedClaim.{Fits, IsAsked, IsFor, IsReached, bad_in, bad_line as first_bad_of};
ghost use Rattle.csp_checker.specs.PreparedClaim.{due, lists_of, numbers_fit, trees_of};

use crate::before::{are_for_any, asks_the_same, was_walked};
use crate::prepared_claim::{NumberedPair, PreparedClaim};
use crate::walk::first_bad;
use csp_branch::Walker;
use csp_proof::{Body, Tree};

// The line of the first failure of the whole proof.
pub(crate) fn first_bad_line(asked: &PreparedClaim, walker: &mut Walker) -> Option<u128>
    requires asked { IsAsked asked.now }
    requires fit { Fits asked.now walker.old }
    ensures bad { result ≡ first_bad_of asked.now }
    ensures fit { Fits asked.now walker.new }
{
    let trees = asked.proof.trees.as_slice();
    for (number, tree) in trees.iter().enumerate() {
        if let Some(line) = bad_line(asked, number, tree, walker) {
            return Some(line);
        }
    }
    if trees.len() < asked.pairs.len() {
        return Some(asked.proof.last_line);
    }
    None
}

// The line of the first failure in the tree of this number.
fn bad_line(asked: &PreparedClaim, number: usize, tree: &Tree, walker: &mut Walker) -> Option<u128>
    requires asked { IsAsked asked.now }
    requires fit { Fits asked.now walker.old }
    requires reached { IsReached asked.now number tree.now }
    ensures bad { result ≡ bad_in (lists_of asked.now) (trees_of asked.now)
        (slice_get (due asked.now.second.now) number) tree.now }
    ensures fit { Fits asked.now walker.new }
{
    match asked.pairs.get(number) {
        Some(pair) => {
            if is_for(*pair, tree) {
                bad_below(asked, number, tree, walker)
            } else {
                Some(tree.line)
            }
        }
        None => Some(tree.line),
    }
}

fn is_for(pair: NumberedPair, tree: &Tree) -> bool
    ensures { result ≡ numbers_fit pair tree.now }
{
    pair.shape == tree.shape && pair.policy == tree.policy
}

// The line of the first failure below the line of a tree that is for its pair.
fn bad_below(asked: &PreparedClaim, number: usize, tree: &Tree, walker: &mut Walker) -> Option<u128>
    requires asked { IsAsked asked.now }
    requires fit { Fits asked.now walker.old }
    requires reached { IsReached asked.now number tree.now }
    ensures bad { (pair : Pair) → IsFor pair tree.now → result
        ≡ accepts.bad_body (lists_of asked.now) (trees_of asked.now) pair (tree.now.line + 1) tree.now.body }
    ensures fit { Fits asked.now walker.new }
{
    match &tree.body {
        Body::Nodes { nodes } => match first_bad(asked, tree, nodes.as_slice(), walker) {
            Some(place) => Some(tree.line + 1 + place as u128),
            None => None,
        },
        Body::Same { tree: other } => {
            if shares_good_nodes(asked, number, tree, *other, walker) {
                None
            } else {
                Some(tree.line + 1)
            }
        }
    }
}

// Whether the tree of the other number has nodes that keep their rules in this tree too. Nodes that were
// walked at a shape of the same kind, and for the same policy or with no leaf that is met, aren't walked
// again, unless there are so few that a look at the trees before takes longer.
fn shares_good_nodes(
    asked: &PreparedClaim,
    number: usize,
    tree: &Tree,
    other: u32,
    walker: &mut Walker,
) -> bool
    requires asked { IsAsked asked.now }
    requires fit { Fits asked.now walker.old }
    requires reached { IsReached asked.now number tree.now }
    requires shared { tree.now.body ≡ Same other }
    ensures good { (pair : Pair) → IsFor pair tree.now
        → accepts.bad_shared (lists_of asked.now) pair (tree.now.line + 1)
        (body_at (trees_of asked.now) other) ≡ accepts.unless result (tree.now.line + 1) }
    ensures fit { Fits asked.now walker.new }
{
    let Some(owner) = asked.proof.trees.get(other as usize) else {
        return false;
    };
    match &owner.body {
        Body::Nodes { nodes } => {
            let for_any = are_for_any(asked, other);
            if asks_the_same(&asked.table, tree, owner, for_any) {
                return true;
            }
            if nodes.len() > number / 64 && was_walked(asked, number, tree, other, for_any) {
                return true;
            }
            match first_bad(asked, tree, nodes.as_slice(), walker) {
                Some(_) => false,
                None => true,
            }
        }
        Body::Same { .. } => false,
    }
}
