//! The walk over the nodes of a tree.
ghost use Rattle.std.specs.Prelude.{◌≡◌, ◌<◌, [], ◌∷◌, IfSome, length};
ghost use Rattle.csp_facts.specs.Numbers.{shape_count};
ghost use Rattle.csp_proof.specs.Accepts as accepts;
ghost use Rattle.csp_proof.specs.Pairs.{Pair};
ghost use Rattle.csp_proof.specs.WellFormed.{IsPreorder};
ghost use Rattle.csp_checker.specs.PreparedClaim.{Fits, IsFor, lists_of};
ghost use Rattle.csp_checker.specs.Leaves.{rule_by};
ghost use Rattle.csp_branch.specs.Walks as walks;
ghost use Rattle.csp_checker.specs.Walk as spec;

use crate::leaf::keeps_rule;
use crate::prepared_claim::PreparedClaim;
use csp_branch::Walker;
use csp_proof::{Node, Tree};

// The place among these nodes of the first that breaks a rule of the tree, wherever the walker stands.
pub(crate) fn first_bad(
    asked: &PreparedClaim,
    tree: &Tree,
    nodes: &[Node],
    walker: &mut Walker,
) -> Option<usize>
    requires fit { Fits asked.now walker.old }
    requires shape { tree.now.shape < shape_count }
    requires takes { spec.Takes walker.old (spec.atoms_of nodes.now) }
    ensures bad { (pair : Pair) → IsFor pair tree.now → IsPreorder nodes.now
        → result ≡ accepts.bad_tree (lists_of asked.now) pair 0 (accepts.cases_in nodes.now) }
    ensures within { IfSome result (λ place. place < length nodes.now) }
    ensures fit { Fits asked.now walker.new }
{
    walker.go_to_root();
    walk(asked, tree, nodes, walker)
}

fn walk(asked: &PreparedClaim, tree: &Tree, nodes: &[Node], walker: &mut Walker) -> Option<usize>
    requires root { walker.old.literals ≡ [] }
    requires fit { Fits asked.now walker.old }
    requires shape { tree.now.shape < shape_count }
    requires takes { spec.Takes walker.old (spec.atoms_of nodes.now) }
    ensures bad { result
        ≡ spec.walk (rule_by walker.old.atoms asked.now tree.now) 0 ([] ∷ []) nodes.now }
    ensures within { IfSome result (λ place. place < length nodes.now) }
    ensures kept { walks.at_root walker.new ≡ walks.at_root walker.old }
{
    for (place, node) in nodes.iter().enumerate() {
        match node {
            Node::Split { atom } => walker.split(atom),
            _ => {
                if !keeps_rule(asked, tree, node, walker.branch()) {
                    return Some(place);
                }
                if !walker.next_branch() {
                    return None;
                }
            }
        }
    }
    None
}
