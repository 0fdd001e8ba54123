//! The leaves of a tree of cases: a policy of the first list refuses all that is left, or the policy of the
//! second list allows it.
ghost use Rattle.std.specs.Prelude.{◌≡◌, MatchOption, false, slice_get, true, ⊤};
ghost use Rattle.csp_proof.specs.Accepts as rules;
ghost use Rattle.csp_proof.specs.Accepts.{hashes_in, is_surely};
ghost use Rattle.csp_search.specs.Leaves as spec;
ghost use Rattle.csp_search.specs.Questions.{IsPosed, lists_of, pair_of};

use crate::named_question::{first_answer, second_answer};
use crate::searching::Question;
use csp_answer::{Ground, decide, decided_by};
use csp_branch::Branch;
use csp_proof::Node;

// What a branch decides of a policy of the first list. One that isn't enforced allows everything.
pub(crate) fn first_standing(question: Question, branch: &Branch, place: usize) -> Option<bool>
    requires { IsPosed question branch.now.atoms }
    ensures blocks { is_surely false result ≡ rules.blocks
        (lists_of question.entry) (pair_of question.entry) branch.now.literals place }
    ensures known { MatchOption result ⊤ (λ _. spec.IsDecided
        (hashes_in (lists_of question.entry)) question.entry.shape branch.now.literals
        (slice_get question.entry.lists.now.first.now.policies place)) }
{
    match first_answer(question, place) {
        Some(answer) => decide(branch, answer),
        None => Some(true),
    }
}

// What a branch decides of the policy of the second list.
pub(crate) fn second_standing(question: Question, branch: &Branch) -> Option<bool>
    requires { IsPosed question branch.now.atoms }
    ensures meets { is_surely true result ≡ rules.is_met
        (lists_of question.entry) (pair_of question.entry) branch.now.literals }
    ensures known { MatchOption result ⊤ (λ _. spec.IsDecided
        (hashes_in (lists_of question.entry)) question.entry.shape branch.now.literals
        (slice_get question.entry.lists.now.second.now.policies question.entry.policy)) }
{
    match second_answer(question) {
        Some(answer) => decide(branch, answer),
        None => Some(false),
    }
}

// Whether the policy of the second list surely allows all that is left.
pub(crate) fn is_met(question: Question, branch: &Branch) -> bool
    requires { IsPosed question branch.now.atoms }
    ensures { result ≡ rules.is_met
        (lists_of question.entry) (pair_of question.entry) branch.now.literals }
{
    second_standing(question, branch) == Some(true)
}

// Whether the policy of the second list is seen to allow all that is left by a look at this ground alone, or,
// where none is told, at its whole answer.
pub(crate) fn is_met_by(question: Question, branch: &Branch, ground: Option<Ground>) -> bool
    requires { IsPosed question branch.now.atoms }
    ensures { result ≡ true → rules.is_met
        (lists_of question.entry) (pair_of question.entry) branch.now.literals ≡ true }
{
    match (ground, second_answer(question)) {
        (Some(ground), Some(answer)) => decided_by(branch, answer, ground) == Some(true),
        _ => is_met(question, branch),
    }
}

// Whether a policy of the first list surely refuses all that is left.
pub(crate) fn is_blocked(question: Question, branch: &Branch, place: usize) -> bool
    requires { IsPosed question branch.now.atoms }
    ensures { result ≡ rules.blocks
        (lists_of question.entry) (pair_of question.entry) branch.now.literals place }
{
    first_standing(question, branch, place) == Some(false)
}

// The leaf that may end a branch, if there is one.
pub(crate) fn leaf_of(question: Question, branch: &Branch) -> Option<Node>
    requires { IsPosed question branch.now.atoms }
    ensures { MatchOption result
        (spec.HasNoLeaf (lists_of question.entry) (pair_of question.entry) branch.now.literals)
        (spec.IsLeaf (lists_of question.entry) (pair_of question.entry) branch.now.literals) }
{
    if is_met(question, branch) {
        return Some(Node::Met);
    }
    for place in 0..question.lists.first.policies.len() {
        if is_blocked(question, branch, place) {
            let policy = place as u32;
            return Some(Node::Blocked { policy });
        }
    }
    None
}
