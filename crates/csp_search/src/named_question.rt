//! What a question asks for.
ghost use Rattle.std.specs.Prelude.{◌≡◌, ◌++◌, IfOk, List as Items, OnOk, option_copied};
ghost use Rattle.csp_facts.specs.declared.atom.Atom.{Atom as AtomValue};
ghost use Rattle.csp_search.specs.Asking as spec;
ghost use Rattle.csp_search.specs.Questions.{IsPosed};

use crate::searching::Question;
use csp_answer::laws::an_answer_speaks_of_its_names;
use csp_answer::{PolicyAnswers, ShapeAnswer};
use csp_facts::{Shape, shape_number};
use csp_model::{Disposition, Memory, Policy};
use std::alloc::Global;

// A question, and the names that the answers of its enforced policies have, each once.
#[derive(Clone, Copy)]
pub(crate) struct NamedQuestion<'a> {
    pub(crate) question: Question<'a>,
    pub(crate) names: &'a [usize],
}

// The answer at the shape of the policy at a place, where there is one and it is enforced.
fn enforced_answer<'q>(
    policies: &[Policy],
    answers: &'q [PolicyAnswers],
    shape: Shape,
    place: usize,
) -> Option<&'q ShapeAnswer>
    ensures { option_copied result ≡ spec.enforced_answer policies.now answers.now shape place }
{
    let policy = policies.get(place)?;
    if policy.disposition != Disposition::Enforce {
        return None;
    }
    answers.get(place)?.at(usize::from(shape_number(shape)))
}

// The answer of a policy of the first list, where it is enforced.
pub(crate) fn first_answer<'q>(question: Question<'q>, place: usize) -> Option<&'q ShapeAnswer>
    ensures { option_copied result ≡ spec.first_answer question.entry place }
{
    let policies = question.lists.first.policies.as_slice();
    let answers = question.lists.table.first.as_slice();
    enforced_answer(policies, answers, question.shape, place)
}

// The answer of the policy of the second list that the question is about.
pub(crate) fn second_answer<'q>(question: Question<'q>) -> Option<&'q ShapeAnswer>
    ensures { option_copied result ≡ spec.second_answer question.entry }
{
    let policies = question.lists.second.policies.as_slice();
    let answers = question.lists.table.second.as_slice();
    enforced_answer(policies, answers, question.shape, question.policy as usize)
}

// The names that these answers have, each once, in ascending order.
pub(crate) fn asked_names(alloc: Global, question: Question) -> Result<Vec<usize>, Memory>
    ensures { IfOk result (λ made. (atoms : Items AtomValue)
        → IsPosed question.entry atoms → spec.AreAsked question.entry atoms made.items) }
{
    an_answer_speaks_of_its_names();
    let mut names = Vec::new(alloc);
    for place in 0..question.lists.first.policies.len() {
        add_names(alloc, first_answer(question, place), &mut names)?;
    }
    add_names(alloc, second_answer(question), &mut names)?;
    names.sort()?;
    names.dedup();
    Ok(names)
}

// Adds the names of an answer, where there is one.
fn add_names(
    alloc: Global,
    answer: Option<&ShapeAnswer>,
    names: &mut Vec<usize>,
) -> Result<(), Memory>
    ensures { OnOk result
        (names.new.items ≡ names.old.items ++ spec.names_where (option_copied answer.entry)) }
{
    if let Some(answer) = answer {
        names.append(&mut answer.names(alloc)?)?;
    }
    Ok(())
}
