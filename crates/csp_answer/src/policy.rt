//! The answers of one policy at all shapes. Equal ones are kept once.
ghost use Rattle.std.specs.Prelude.{◌≡◌, IfOk, IfSome, IsTrue, List as Items, OnOk, option_copied};
ghost use Rattle.csp_model.specs.declared.source.Hash.{Hash as HashValue};
ghost use Rattle.csp_answer.specs.Growing.{Extends, StandsAt};
ghost use Rattle.csp_answer.specs.Naming.{ArePairs, IsNamed};
ghost use Rattle.csp_answer.specs.Policies as policies;
ghost use Rattle.csp_answer.specs.Tables as spec;

use crate::answer::ShapeAnswer;
use crate::asking::{Naming, answer_to};
use crate::naming::NamedPolicy;
use csp_facts::shape_laws::each_number_is_one_shape;
use csp_facts::{Shape, shape_at};
use csp_formula::{ShapeQuestion, question_at};
use csp_model::{List, Memory};
use std::alloc::Global;

/// The different answers of a policy, and for each shape, by its number, the place of its answer.
#[derive(Debug, Drop)]
pub struct PolicyAnswers {
    answers: List<ShapeAnswer>,
    places: List<usize>,
}

// What a policy was asked, and the place of its answer.
#[derive(Clone, Copy)]
pub(crate) struct AnsweredQuestion {
    question: ShapeQuestion,
    place: usize,
}

// The different answers of a policy so far, and all that it was asked.
#[derive(Drop)]
pub(crate) struct Answered {
    asked: List<AnsweredQuestion>,
    answers: List<ShapeAnswer>,
}

impl PolicyAnswers {
    // The answers of a policy whose sources have these names.
    pub(crate) fn new(
        alloc: Global,
        naming: Naming,
        named: &NamedPolicy,
    ) -> Result<PolicyAnswers, Memory>
        requires { IsNamed naming.names.now named.now }
        ensures { IfOk result (λ made. (hashes : Items HashValue)
            → ArePairs naming.entry.names.now hashes naming.entry.pairs.now
            → spec.IsAnswered naming.entry.names.now hashes named.now.policy.now made) }
    {
        each_number_is_one_shape();
        let mut answered = Answered {
            asked: List::new(alloc),
            answers: List::new(alloc),
        };
        let mut places = List::new(alloc);
        let mut number = 0;
        while let Some(shape) = shape_at(number) {
            let place = place_at(alloc, naming, named, shape, &mut answered)?;
            places.push(place)?;
            number += 1;
        }
        Ok(PolicyAnswers {
            answers: answered.answers,
            places,
        })
    }

    /// The answer at the shape of this number.
    pub fn at(&self, shape: usize) -> Option<&ShapeAnswer>
        ensures { option_copied result ≡ spec.answer_at shape self.now }
    {
        self.answers.get(self.place(shape)?)
    }

    // The place of that answer.
    pub(crate) fn place(&self, shape: usize) -> Option<usize>
        ensures { result ≡ policies.place_at shape self.now }
    {
        self.places.get(shape).copied()
    }
}

// The place of the answer at a shape.
fn place_at(
    alloc: Global,
    naming: Naming,
    named: &NamedPolicy,
    shape: Shape,
    answered: &mut Answered,
) -> Result<usize, Memory>
    requires named { IsNamed naming.names.now named.now }
    requires stand { policies.AllAnswered naming.names.now naming.pairs.now
        named.now.policy.now answered.old }
    ensures stand { OnOk result (policies.AllAnswered naming.entry.names.now naming.entry.pairs.now
        named.now.policy.now answered.new) }
    ensures extends { OnOk result (Extends answered.old.answers answered.new.answers) }
    ensures here { IfOk result (StandsAt answered.new.answers
        (policies.SaysAt naming.entry.names.now naming.entry.pairs.now named.now.policy.now shape)) }
{
    let question = question_at(named.policy, shape);
    if let Some(place) = asked_place(answered.asked.as_slice(), question) {
        return Ok(place);
    }
    let answer = answer_to(alloc, naming, named, question)?;
    let place = answer_place(answer, &mut answered.answers)?;
    answered.asked.push(AnsweredQuestion { question, place })?;
    Ok(place)
}

// The place of the answer to this question, where it was asked.
fn asked_place(asked: &[AnsweredQuestion], question: ShapeQuestion) -> Option<usize>
    ensures { IfSome result (policies.IsAsked asked.now question) }
{
    for one in asked {
        if is_same_question(one.question, question) {
            return Some(one.place);
        }
    }
    None
}

fn is_same_question(one: ShapeQuestion, other: ShapeQuestion) -> bool
    ensures { IsTrue result → one ≡ other }
{
    one == other
}

// The place of an answer. It is added unless an equal one is there.
fn answer_place(answer: ShapeAnswer, answers: &mut List<ShapeAnswer>) -> Result<usize, Memory>
    ensures extends { OnOk result (Extends answers.old answers.new) }
    ensures here { IfOk result (StandsAt answers.new (λ there. policies.IsSameAnswer there answer)) }
{
    match equal_place(answers.as_slice(), &answer) {
        Some(place) => Ok(place),
        None => {
            let place = answers.len();
            answers.push(answer)?;
            Ok(place)
        }
    }
}

fn equal_place(answers: &[ShapeAnswer], answer: &ShapeAnswer) -> Option<usize>
    ensures { IfSome result (StandsAt answers.now (λ there. policies.IsSameAnswer there answer.now)) }
{
    answers.iter().position(|one| is_same_answer(one, answer))
}

fn is_same_answer(one: &ShapeAnswer, other: &ShapeAnswer) -> bool
    ensures { IsTrue result → policies.IsSameAnswer one.now other.now }
{
    one == other
}
