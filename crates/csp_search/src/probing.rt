//! A look for a check on one branch, or on two.
ghost use Rattle.std.specs.Prelude.{◌≡◌, ◌≤◌, [], IfOk, IfSome, OnOk, length};
ghost use Rattle.csp_branch.specs.Walks.{at_root};
ghost use Rattle.csp_search.specs.Answers.{ShowsNone};
ghost use Rattle.csp_search.specs.Asking.{IsAsked, StandsOn};
ghost use Rattle.csp_search.specs.Questions.{IsPosed, lists_of, pair_of};

use crate::named_question::{NamedQuestion, asked_names, first_answer, second_answer};
use crate::open::refute;
use crate::searching::Question;
use crate::step::is_open;
use crate::view::{View, names_in};
use csp_answer::{Conjunction, ShapeAnswer};
use csp_branch::{Branch, Walker};
use csp_facts::{Atom, Shape};
use csp_model::{Check, Memory};
use std::alloc::Global;

/// A valid check of the shape that the first list allows and the policy doesn't, if there is one on a branch
/// where nothing holds that the policy asks for, and of what each policy of the first list asks for the first
/// that can still hold. Elsewhere there may be one that a search finds.
///
/// Where the names have the default port of the shape's scheme, that port holds at a first look, since a
/// person would think of it, and doesn't have to at a second one. The walker stands at the root before and
/// after.
pub fn probe(
    alloc: Global,
    question: Question,
    walker: &mut Walker,
) -> Result<Option<Check>, Memory>
    requires posed { IsPosed question walker.old.atoms }
    requires root { walker.old.literals ≡ [] }
    requires room { length walker.old.atoms ≤ walker.old.room }
    ensures found { IfOk result (λ found. IfSome found
        (ShowsNone (lists_of question.entry) (pair_of question.entry))) }
    ensures walker { OnOk result (walker.new ≡ walker.old) }
{
    let names = asked_names(alloc, question)?;
    let asked = NamedQuestion {
        question,
        names: &names,
    };
    let port = port_name(question.shape, walker.branch());
    if port.is_some()
        && let Some(check) = probe_at(alloc, asked, walker, port)?
    {
        return Ok(Some(check));
    }
    probe_at(alloc, asked, walker, None)
}

// The name of the default port of the scheme of a shape's URLs.
fn port_name(shape: Shape, branch: &Branch) -> Option<usize> {
    let scheme = match shape {
        Shape::Fetch { scheme, .. }
        | Shape::Form { scheme, .. }
        | Shape::Base { scheme }
        | Shape::Ancestor { scheme } => scheme?,
        _ => return None,
    };
    let port = Atom::PortIs(scheme.default_port());
    branch.names().find(&port)
}

// A check that one look finds, where this port holds if there is one.
fn probe_at(
    alloc: Global,
    asked: NamedQuestion,
    walker: &mut Walker,
    port: Option<usize>,
) -> Result<Option<Check>, Memory>
    requires asked { IsAsked asked walker.old.atoms }
    requires root { walker.old.literals ≡ [] }
    requires room { length walker.old.atoms ≤ walker.old.room }
    ensures found { IfOk result (λ found. IfSome found
        (ShowsNone (lists_of asked.entry.question) (pair_of asked.entry.question))) }
    ensures walker { OnOk result (walker.new ≡ walker.old) }
{
    if let Some(port) = port {
        take_open(asked, walker, port, true);
    }
    refuse_second(asked, walker);
    allow_firsts(asked, walker);
    let found = refute(alloc, asked, walker)?;
    walker.go_to_root();
    Ok(found)
}

// What the branch tells, where no pair of integrity metadata is said to hold.
fn view_of<'v>(asked: NamedQuestion<'v>, walker: &'v Walker) -> View<'v> {
    View {
        question: asked.question,
        branch: walker.branch(),
        pair: None,
    }
}

// Takes a literal if its name is asked for and open.
fn take_open(asked: NamedQuestion, walker: &mut Walker, name: usize, positive: bool)
    requires { StandsOn asked walker.old }
    ensures kept { at_root walker.new ≡ at_root walker.old }
    ensures stands { StandsOn asked.entry walker.new }
{
    if is_open(asked, walker.branch(), name) {
        walker.take(name, positive);
    }
}

// Has nothing hold that makes the policy of the second list allow a check.
fn refuse_second(asked: NamedQuestion, walker: &mut Walker)
    requires { StandsOn asked walker.old }
    ensures kept { at_root walker.new ≡ at_root walker.old }
    ensures stands { StandsOn asked.entry walker.new }
{
    let Some(answer) = second_answer(asked.question) else {
        return;
    };
    for conjunction in answer.conjunctions() {
        refuse(asked, walker, *conjunction);
    }
    if let Some(rule) = answer.integrity() {
        for pair in &rule.own {
            take_open(asked, walker, *pair, false);
        }
    }
}

// Denies an open name of a conjunction, unless one of its names is denied already.
fn refuse(asked: NamedQuestion, walker: &mut Walker, conjunction: Conjunction)
    requires { StandsOn asked walker.old }
    ensures kept { at_root walker.new ≡ at_root walker.old }
    ensures stands { StandsOn asked.entry walker.new }
{
    if !view_of(asked, walker).may_hold(conjunction) {
        return;
    }
    for name in names_in(conjunction).into_iter().flatten() {
        if is_open(asked, walker.branch(), name) {
            walker.take(name, false);
            return;
        }
    }
}

// Has something hold for each policy of the first list, so that it allows a check.
fn allow_firsts(asked: NamedQuestion, walker: &mut Walker)
    requires { StandsOn asked walker.old }
    ensures kept { at_root walker.new ≡ at_root walker.old }
    ensures stands { StandsOn asked.entry walker.new }
{
    for place in 0..asked.question.lists.first.policies.len() {
        if let Some(answer) = first_answer(asked.question, place) {
            allow(asked, walker, answer);
        }
    }
}

// Has the first conjunction of some names hold that can, or else a pair of integrity metadata. Where the
// policy allows everything without either, nothing has to hold.
fn allow(asked: NamedQuestion, walker: &mut Walker, answer: &ShapeAnswer)
    requires { StandsOn asked walker.old }
    ensures kept { at_root walker.new ≡ at_root walker.old }
    ensures stands { StandsOn asked.entry walker.new }
{
    let conjunctions = answer.conjunctions();
    let view = view_of(asked, walker);
    let can_hold = |one: &&Conjunction| one.lead.is_some() && view.may_hold(**one);
    if let Some(found) = conjunctions.iter().find(can_hold) {
        for name in names_in(*found).into_iter().flatten() {
            take_open(asked, walker, name, true);
        }
    } else if conjunctions.first() != Some(&Conjunction::always())
        && let Some(rule) = answer.integrity()
        && let Some(pair) = rule.own.first()
    {
        take_open(asked, walker, *pair, true);
    }
}
