//! A table of the answers of two lists of policies at each shape.
ghost use Rattle.std.specs.Prelude.{◌≡◌, All, Contains, IfOk, IfSome, IsTrue, List as Items, map};
ghost use Rattle.std.specs.List.{flat_map};
ghost use Rattle.csp_answer.specs.Policies.{place_at};
ghost use Rattle.csp_facts.specs.Atoms.{IsValidAtom};
ghost use Rattle.csp_facts.specs.Vocabulary.{vocabulary_hashes};
ghost use Rattle.csp_model.specs.Policies.{IsReadable};
ghost use Rattle.csp_model.specs.declared.source.Hash.{Hash as HashValue};
ghost use Rattle.csp_branch.specs.Sorting.{referred};
ghost use Rattle.csp_answer.specs.Naming.{ArePairs, policy_atoms};
ghost use Rattle.csp_answer.specs.Tables as spec;

use crate::asking::Naming;
use crate::collecting::collect;
use crate::naming::{NamedPolicy, PairNames};
use crate::policy::PolicyAnswers;
use csp_branch::Names;
use csp_facts::shape_laws::each_number_is_one_shape;
use csp_facts::{Atom, Vocabulary, shape_at};
use csp_model::{List, Memory, Policy, PolicyList};
use csp_source::laws::each_token_has_one_source;
use std::alloc::Global;

/// What each policy of two lists answers at each shape.
#[derive(Debug, Drop)]
pub struct AnswerTable {
    /// The answers of each policy of the first list, in order.
    pub first: List<PolicyAnswers>,
    /// Those of the second list.
    pub second: List<PolicyAnswers>,
    /// For each shape, by its number, the number of the first one at which each policy answers the same.
    pub kinds: List<usize>,
}

/// What two lists of policies answer, and the names that they answer by.
#[derive(Drop)]
pub struct NamedAnswers {
    pub names: Names,
    pub table: AnswerTable,
}

/// What two lists of policies answer. Beside the atoms that they speak of, these others are named. The
/// vocabulary is that of the lists.
pub fn answers_of(
    alloc: Global,
    first: &PolicyList,
    second: &PolicyList,
    vocabulary: &Vocabulary,
    others: &[&Atom],
) -> Result<NamedAnswers, Memory>
    requires first { IsReadable first.now }
    requires second { IsReadable second.now }
    requires hashes { vocabulary.now.hashes ≡ vocabulary_hashes first.now second.now }
    requires others { All IsValidAtom (referred others.now) }
    ensures first { IfOk result (λ made.
        spec.AreAnswers made.names vocabulary.now.hashes first.now.policies made.table.first) }
    ensures second { IfOk result (λ made.
        spec.AreAnswers made.names vocabulary.now.hashes second.now.policies made.table.second) }
    ensures kinds { IfOk result (λ made. spec.AreKinds made.table) }
    ensures others { IfOk result (λ made. All (Contains made.names) (referred others.now)) }
{
    each_token_has_one_source();
    let atoms = collect(alloc, vocabulary, first, second, others)?;
    let names = Names::new(alloc, atoms)?;
    let pairs = PairNames::new(alloc, &names, vocabulary.hashes.as_slice())?;
    let naming = Naming {
        names: &names,
        pairs: &pairs,
    };
    let first = answers_of_each(alloc, naming, first.policies.as_slice())?;
    let second = answers_of_each(alloc, naming, second.policies.as_slice())?;
    let kinds = kinds_of(alloc, first.as_slice(), second.as_slice())?;
    Ok(NamedAnswers {
        names,
        table: AnswerTable {
            first,
            second,
            kinds,
        },
    })
}

// The answers of each of these policies.
fn answers_of_each(
    alloc: Global,
    naming: Naming,
    policies: &[Policy],
) -> Result<List<PolicyAnswers>, Memory>
    requires { All (Contains naming.names.now) (flat_map policy_atoms policies.now) }
    ensures { IfOk result (λ made. (hashes : Items HashValue)
        → ArePairs naming.entry.names.now hashes naming.entry.pairs.now
        → spec.AreAnswers naming.entry.names.now hashes policies.now made) }
{
    let mut made = List::new(alloc);
    for policy in policies {
        let named = NamedPolicy::new(alloc, naming.names, policy)?;
        made.push(PolicyAnswers::new(alloc, naming, &named)?)?;
    }
    Ok(made)
}

// For each shape the number of the first one at which each policy of both lists answers the same.
fn kinds_of(
    alloc: Global,
    first: &[PolicyAnswers],
    second: &[PolicyAnswers],
) -> Result<List<usize>, Memory>
    ensures { IfOk result (λ made.
        spec.AreKinds (record { first = first.now; second = second.now; kinds = made })) }
{
    each_number_is_one_shape();
    let mut kinds = List::new(alloc);
    let mut firsts = Vec::new(alloc);
    let mut number = 0;
    while shape_at(number).is_some() {
        let shape = usize::from(number);
        let kind = kind_of(first, second, &mut firsts, shape)?;
        kinds.push(kind)?;
        number += 1;
    }
    Ok(kinds)
}

// The one of these shapes at which each policy answers the same as at this one. Where there is none, this one
// is added to them.
fn kind_of(
    first: &[PolicyAnswers],
    second: &[PolicyAnswers],
    shapes: &mut Vec<usize>,
    shape: usize,
) -> Result<usize, Memory>
    ensures { IfOk result (spec.AnswerTheSame first.now second.now shape) }
{
    if let Some(kind) = same_shape(first, second, shapes, shape) {
        return Ok(kind);
    }
    shapes.push(shape)?;
    Ok(shape)
}

// One of these shapes at which each policy answers the same as at this shape.
fn same_shape(
    first: &[PolicyAnswers],
    second: &[PolicyAnswers],
    shapes: &[usize],
    shape: usize,
) -> Option<usize>
    ensures { IfSome result (spec.AnswerTheSame first.now second.now shape) }
{
    for other in shapes {
        if have_same_places(first, shape, *other) && have_same_places(second, shape, *other) {
            return Some(*other);
        }
    }
    None
}

// Whether the answers of each policy at two shapes have one place.
fn have_same_places(each: &[PolicyAnswers], one: usize, other: usize) -> bool
    ensures { IsTrue result → map (spec.answer_at one) each.now ≡ map (spec.answer_at other) each.now }
{
    for answers in each {
        if !is_same_place(answers, one, other) {
            return false;
        }
    }
    true
}

fn is_same_place(answers: &PolicyAnswers, one: usize, other: usize) -> bool
    ensures { IsTrue result → place_at one answers.now ≡ place_at other answers.now }
{
    answers.place(one) == answers.place(other)
}
