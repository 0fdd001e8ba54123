//! The leaves of a tree.
ghost use Rattle.std.specs.Prelude.{◌≡◌, IfSome, length, slice_get};
ghost use Rattle.csp_proof.specs.Accepts as accepts;
ghost use Rattle.csp_answer.specs.Answers.{IsAnswer};
ghost use Rattle.csp_answer.specs.Tables.{answer_of};
ghost use Rattle.csp_checker.specs.Leaves as spec;

use crate::prepared_claim::PreparedClaim;
use csp_answer::{PolicyAnswers, decide};
use csp_branch::Branch;
use csp_model::{Disposition, List, PolicyList};
use csp_proof::{Node, Tree};

// Whether a leaf of the tree keeps its rule where these literals lead to it. A split has none to keep.
pub(crate) fn keeps_rule(asked: &PreparedClaim, tree: &Tree, node: &Node, branch: &Branch) -> bool
    requires first { spec.AnswerAt (length branch.now.atoms) tree.now.shape asked.now.table.first }
    requires second { spec.AnswerAt (length branch.now.atoms) tree.now.shape asked.now.table.second }
    ensures { result
        ≡ spec.rule_by branch.now.atoms asked.now tree.now branch.now.literals node.now }
{
    let table = &asked.table;
    match node {
        Node::Split { .. } => true,
        Node::Blocked { policy } => {
            is_enforced(asked.first, *policy)
                && is_surely(false, known(&table.first, *policy, tree.shape, branch))
        }
        Node::Met => {
            is_enforced(asked.second, tree.policy)
                && is_surely(true, known(&table.second, tree.policy, tree.shape, branch))
        }
    }
}

// Whether the list has an enforced policy of this number.
fn is_enforced(list: &PolicyList, policy: u32) -> bool
    ensures { result ≡ spec.is_enforced (slice_get list.now.policies policy) }
{
    let Some(policy) = list.policies.get(policy as usize) else {
        return false;
    };
    match policy.disposition {
        Disposition::Enforce => true,
        Disposition::Report => false,
    }
}

// What these literals decide of what the policy of this number answers at the shape of that number.
fn known(answers: &List<PolicyAnswers>, policy: u32, shape: u8, branch: &Branch) -> Option<bool>
    requires { IfSome (answer_of answers.now policy shape) (IsAnswer (length branch.now.atoms)) }
    ensures { result ≡ spec.known branch.now.atoms branch.now.literals answers.now policy shape }
{
    let answer = answers.get(policy as usize)?.at(shape as usize)?;
    decide(branch, answer)
}

fn is_surely(expected: bool, known: Option<bool>) -> bool
    ensures { result ≡ accepts.is_surely expected known }
{
    match known {
        Some(known) => known == expected,
        None => false,
    }
}
