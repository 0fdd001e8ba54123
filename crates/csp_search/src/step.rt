//! How a search goes on from a branch.
ghost use Rattle.std.specs.Prelude.{◌≡◌, ◌≢◌, All, IfOk, IfSome, MatchOption, None, OnOk, true};
ghost use Rattle.csp_facts.specs.Follows.{decided};
ghost use Rattle.csp_branch.specs.Groups.{atom_in};
ghost use Rattle.csp_search.specs.Asking.{IsAsked, IsOpenName, StandsOn};
ghost use Rattle.csp_search.specs.Branches.{IsBranch};
ghost use Rattle.csp_search.specs.Leaves as spec;
ghost use Rattle.csp_search.specs.Questions.{asked_atoms};

use crate::leaf::{is_blocked, is_met_by, leaf_of};
use crate::named_question::NamedQuestion;
use crate::open::{open_check, refute};
use crate::plan::{SearchPlan, Wish};
use csp_branch::{Branch, Walker};
use csp_model::{Check, Memory};
use csp_proof::Node;
use std::alloc::Global;

#[derive(Drop)]
pub(crate) enum Step {
    // A leaf ends the branch.
    Close { leaf: Node },
    // The branch is split by a name that is asked for and open.
    Split { name: usize },
    // A check that the first list allows, and the policy of the second list refuses.
    Found { check: Check },
}

// What a branch calls for. A plan's wish is granted where it may be; where it may not, the plan is given up.
pub(crate) fn next_step(
    alloc: Global,
    asked: NamedQuestion,
    walker: &mut Walker,
    plan: &mut SearchPlan,
) -> Result<Step, Memory>
    requires { StandsOn asked walker.old }
    ensures step { IfOk result (spec.IsStep asked.entry.question walker.new.atoms walker.new.literals) }
    ensures walker { OnOk result (walker.new ≡ walker.old) }
{
    let wish = plan.next(asked.question, walker.branch())?;
    if let Some(step) = grant(alloc, asked, walker, wish)? {
        return Ok(step);
    }
    plan.give_up();
    plain_step(alloc, asked, walker)
}

// The step that a plan wishes for, if it may be.
fn grant(
    alloc: Global,
    asked: NamedQuestion,
    walker: &mut Walker,
    wish: Wish,
) -> Result<Option<Step>, Memory>
    requires { StandsOn asked walker.old }
    ensures step { IfOk result (λ found. IfSome found
        (spec.IsStep asked.entry.question walker.new.atoms walker.new.literals)) }
    ensures walker { OnOk result (walker.new ≡ walker.old) }
{
    match wish {
        Wish::Refute => match refute(alloc, asked, walker)? {
            Some(check) => Ok(Some(Step::Found { check })),
            None => Ok(None),
        },
        Wish::Split { name } if is_open(asked, walker.branch(), name) => {
            Ok(Some(Step::Split { name }))
        }
        Wish::Met { ground } if is_met_by(asked.question, walker.branch(), ground) => {
            Ok(Some(Step::Close { leaf: Node::Met }))
        }
        Wish::Block { policy } if is_blocked(asked.question, walker.branch(), policy as usize) => {
            Ok(Some(Step::Close {
                leaf: Node::Blocked { policy },
            }))
        }
        _ => Ok(None),
    }
}

// Whether a name is asked for and open.
pub(crate) fn is_open(asked: NamedQuestion, branch: &Branch, name: usize) -> bool
    requires { IsAsked asked branch.now.atoms }
    ensures { result ≡ true → IsOpenName asked.entry.question branch.now.atoms branch.now.literals name }
{
    asked.names.binary_search(&name).is_ok() && branch.known(name).is_none()
}

// What a branch calls for where there is no plan: a leaf, or else a split by any open name.
fn plain_step(alloc: Global, asked: NamedQuestion, walker: &Walker) -> Result<Step, Memory>
    requires asked { IsAsked asked walker.now.atoms }
    requires branch { IsBranch walker.now.atoms (asked_atoms asked.question) walker.now.literals }
    ensures { IfOk result (spec.IsStep asked.entry.question walker.now.atoms walker.now.literals) }
{
    if let Some(leaf) = leaf_of(asked.question, walker.branch()) {
        return Ok(Step::Close { leaf });
    }
    match open_name(asked, walker.branch()) {
        Some(name) => Ok(Step::Split { name }),
        None => {
            let check = open_check(alloc, asked, walker)?;
            Ok(Step::Found { check })
        }
    }
}

// An open name among those that are asked for.
fn open_name(asked: NamedQuestion, branch: &Branch) -> Option<usize>
    requires { IsAsked asked branch.now.atoms }
    ensures { MatchOption result
        (All (λ name. decided branch.now.literals (atom_in branch.now.atoms name) ≢ None)
        asked.entry.names.now)
        (IsOpenName asked.entry.question branch.now.atoms branch.now.literals) }
{
    for name in asked.names {
        if branch.known(*name).is_none() {
            return Some(*name);
        }
    }
    None
}
