//! The search for a tree of cases. It takes no recursion: the walker has the branches that wait, so that
//! deep trees cost memory alone.
ghost use Rattle.std.specs.Prelude.{◌≡◌, ◌≤◌, [], IfOk, OnOk, length};
ghost use Rattle.csp_branch.specs.Walks.{at_root};
ghost use Rattle.csp_search.specs.Answers.{IsFound};
ghost use Rattle.csp_search.specs.Asking.{IsAsked};
ghost use Rattle.csp_search.specs.Questions.{lists_of, pair_of};

use crate::named_question::NamedQuestion;
use crate::plan::SearchPlan;
use crate::searching::Found;
use crate::step::{Step, next_step};
use csp_branch::Walker;
use csp_model::{Duplicate, List, Memory};
use csp_proof::Node;
use std::alloc::Global;

// The nodes of a tree that keeps all rules, or a check that the first list allows and the policy of the
// second list refuses.
pub(crate) fn find_tree(
    alloc: Global,
    asked: NamedQuestion,
    walker: &mut Walker,
) -> Result<Found, Memory>
    requires asked { IsAsked asked walker.old.atoms }
    requires root { walker.old.literals ≡ [] }
    requires room { length walker.old.atoms ≤ walker.old.room }
    ensures found { IfOk result
        (IsFound (lists_of asked.entry.question) (pair_of asked.entry.question)) }
    ensures walker { OnOk result (walker.new ≡ walker.old) }
{
    let found = walk(alloc, asked, walker)?;
    walker.go_to_root();
    Ok(found)
}

// What `find_tree` finds. The walker stands where the search ended.
fn walk(alloc: Global, asked: NamedQuestion, walker: &mut Walker) -> Result<Found, Memory>
    requires asked { IsAsked asked walker.old.atoms }
    requires root { walker.old.literals ≡ [] }
    requires room { length walker.old.atoms ≤ walker.old.room }
    ensures found { IfOk result
        (IsFound (lists_of asked.entry.question) (pair_of asked.entry.question)) }
    ensures walker { OnOk result (at_root walker.new ≡ at_root walker.old) }
{
    let mut nodes = List::new(alloc);
    let mut plan = SearchPlan::new(alloc, asked.question, walker.branch())?;
    loop {
        match next_step(alloc, asked, walker, &mut plan)? {
            Step::Close { leaf } => {
                nodes.push(leaf)?;
                if !walker.next_branch() {
                    return Ok(Found::Nodes { nodes });
                }
                plan.close_branch();
            }
            Step::Split { name } => {
                let names = walker.branch().names();
                let atom = names.atoms()[name].copy(alloc)?;
                nodes.push(Node::Split { atom })?;
                walker.take(name, true);
            }
            Step::Found { check } => return Ok(Found::Check { check }),
        }
    }
}
