//! Lists of which one refuses all that another refuses, as their tokens tell: they are the same, but that in
//! the one directives may lack tokens, if they decide by their lists alone.
ghost use Rattle.std.specs.Prelude.{◌≡◌, IsTrue, List as Items, slice_get};
ghost use Rattle.csp_order.specs.Within.{AreBoth, AreParts, HasTokensOf, IsPart, IsPolicyWithin, IsWithin, Narrows};
ghost use Rattle.csp_formula.specs.Compiled.{policy_sentence};
ghost use Rattle.csp_formula.specs.Questions.{question_sentence};
ghost use Rattle.csp_model.specs.Policies.{IsReadable, IsReadablePolicy};
ghost use Rattle.csp_model.specs.declared.source.Hash.{Hash as HashValue};
ghost use Rattle.csp_facts.specs.Shapes.{is_shape};
ghost use Rattle.csp_facts.specs.declared.shape.Shape.{Shape as ShapeValue};

use csp_facts::shape_laws::each_number_is_one_shape;
use csp_facts::{Shape, shape_at};
use csp_formula::{ShapeQuestion, question_at};
use csp_model::{Directive, FetchRule, Policy, PolicyList, Text};

// Whether the first list is found to be within the other: it has the same policies, but that directives which
// decide by their lists alone may lack tokens. No formula is made for it, and a no tells nothing.
pub(crate) fn is_within(one: &PolicyList, other: &PolicyList) -> bool
    requires one { IsReadable one.now }
    requires other { IsReadable other.now }
    ensures { IsTrue result → IsWithin one.now other.now }
{
    let ours = one.policies.as_slice();
    let theirs = other.policies.as_slice();
    if ours.len() != theirs.len() {
        return false;
    }
    for place in 0..ours.len() {
        if !is_policy_within(&ours[place], &theirs[place]) {
            return false;
        }
    }
    true
}

// Whether the first policy is found to be within the other.
fn is_policy_within(one: &Policy, other: &Policy) -> bool
    requires one { IsReadablePolicy one.now }
    requires other { IsReadablePolicy other.now }
    ensures { IsTrue result → IsPolicyWithin one.now other.now }
{
    one.disposition == other.disposition
        && one.origin == other.origin
        && are_parts(one.directives.as_slice(), other.directives.as_slice())
        && is_within_at_each(one, other)
}

// Whether both policies are asked the same at each shape, and the answers of the one are within those of the
// other.
fn is_within_at_each(one: &Policy, other: &Policy) -> bool
    requires one { IsReadablePolicy one.now }
    requires other { IsReadablePolicy other.now }
    requires origin { one.now.origin ≡ other.now.origin }
    requires parts { AreParts one.now.directives other.now.directives }
    ensures { IsTrue result → (kind : ShapeValue) → IsTrue (is_shape kind) → (hashes : Items HashValue)
        → Narrows (policy_sentence one.now kind hashes) (policy_sentence other.now kind hashes) }
{
    each_number_is_one_shape();
    let mut number = 0;
    while let Some(shape) = shape_at(number) {
        if !is_within_at(one, other, shape) {
            return false;
        }
        number += 1;
    }
    true
}

// The same at one shape.
#[tactic(auto, using(csp_answer::proofs::SameQuestions::same_decides))]
fn is_within_at(one: &Policy, other: &Policy, shape: Shape) -> bool
    requires one { IsReadablePolicy one.now }
    requires other { IsReadablePolicy other.now }
    requires origin { one.now.origin ≡ other.now.origin }
    requires parts { AreParts one.now.directives other.now.directives }
    ensures { IsTrue result → (hashes : Items HashValue)
        → Narrows (policy_sentence one.now shape hashes) (policy_sentence other.now shape hashes) }
{
    let question = question_at(one, shape);
    question == question_at(other, shape) && is_answer_within(one, other, question)
}

// Whether the answer of the one policy to a question is within that of the other. A list that decides alone may
// lack tokens.
fn is_answer_within(one: &Policy, other: &Policy, question: ShapeQuestion) -> bool
    requires one { IsReadablePolicy one.now }
    requires other { IsReadablePolicy other.now }
    requires origin { one.now.origin ≡ other.now.origin }
    requires parts { AreParts one.now.directives other.now.directives }
    ensures { IsTrue result → (hashes : Items HashValue) → Narrows
        (question_sentence one.now hashes question) (question_sentence other.now hashes question) }
{
    match question {
        ShapeQuestion::Known(_) => true,
        ShapeQuestion::Listed(asked) => {
            matches!(asked.rule, FetchRule::List) || same_tokens_at(one, other, asked.place)
        }
        ShapeQuestion::Inline { place, .. } => same_tokens_at(one, other, place),
    }
}

// Whether the directives at a place have the same tokens.
fn same_tokens_at(one: &Policy, other: &Policy, place: usize) -> bool
    ensures { IsTrue result → AreBoth HasTokensOf
        (slice_get one.now.directives place) (slice_get other.now.directives place) }
{
    match (one.directives.get(place), other.directives.get(place)) {
        (Some(ours), Some(theirs)) => ours.tokens == theirs.tokens,
        _ => false,
    }
}

// Whether there are as many directives of the one as of the other, each with a part of the tokens.
fn are_parts(ones: &[Directive], others: &[Directive]) -> bool
    ensures { IsTrue result → AreParts ones.now others.now }
{
    if ones.len() != others.len() {
        return false;
    }
    for place in 0..ones.len() {
        if !is_part(
            ones[place].tokens.as_slice(),
            others[place].tokens.as_slice(),
        ) {
            return false;
        }
    }
    true
}

// Whether the tokens are some of the others, in their order, and at least half of them: a proof is as long as
// the list for which it was made.
fn is_part(tokens: &[Text], others: &[Text]) -> bool
    ensures { IsTrue result → IsPart tokens.now others.now }
{
    if tokens.len() < others.len() / 2 {
        return false;
    }
    let mut rest = tokens;
    for other in others {
        if let Some((token, behind)) = rest.split_first()
            && token.as_str() == other.as_str()
        {
            rest = behind;
        }
    }
    rest.is_empty()
}
