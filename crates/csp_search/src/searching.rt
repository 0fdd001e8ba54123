//! The search.
ghost use Rattle.std.specs.Prelude.{◌≡◌, ◌≤◌, [], IfOk, OnOk, length};
ghost use Rattle.csp_search.specs.Answers.{IsFound};
ghost use Rattle.csp_search.specs.Questions.{IsPosed, lists_of, pair_of};

use crate::named_question::{NamedQuestion, asked_names};
use crate::tree::find_tree;
use csp_answer::AnswerTable;
use csp_branch::Walker;
use csp_facts::{Shape, Vocabulary};
use csp_model::{Check, List, Memory, PolicyList};
use csp_proof::Node;
use std::alloc::Global;

/// Two lists of policies, and what both answer.
#[derive(Debug, Drop)]
pub struct AnsweredLists<'a> {
    pub first: &'a PolicyList,
    pub second: &'a PolicyList,
    /// The vocabulary of both lists.
    pub vocabulary: Vocabulary,
    pub table: AnswerTable,
}

/// Whether a policy of the second list allows all checks of a shape that the first list allows.
#[derive(Clone, Copy, Debug)]
pub struct Question<'a> {
    pub lists: &'a AnsweredLists<'a>,
    pub shape: Shape,
    /// The number of the policy of the second list, counted from 0. The policy is enforced.
    pub policy: u32,
}

/// What a search finds.
#[derive(Debug, Drop)]
pub enum Found {
    /// The nodes, in preorder, of a tree that shows that the policy allows them.
    Nodes { nodes: List<Node> },
    /// A valid check of the shape that the first list allows and the policy doesn't.
    Check { check: Check },
}

/// Answers a question, by a walker of the names that the table answers by. It stands at the root before and
/// after.
pub fn search(alloc: Global, question: Question, walker: &mut Walker) -> Result<Found, Memory>
    requires posed { IsPosed question walker.old.atoms }
    requires root { walker.old.literals ≡ [] }
    requires room { length walker.old.atoms ≤ walker.old.room }
    ensures found { IfOk result (IsFound (lists_of question.entry) (pair_of question.entry)) }
    ensures walker { OnOk result (walker.new ≡ walker.old) }
{
    let names = asked_names(alloc, question)?;
    let asked = NamedQuestion {
        question,
        names: &names,
    };
    find_tree(alloc, asked, walker)
}
