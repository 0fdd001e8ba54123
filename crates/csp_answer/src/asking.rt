//! The answer of a policy to a question.
ghost use Rattle.std.specs.Prelude.{◌≡◌, ◌++◌, IfOk, List as Items};
ghost use Rattle.csp_model.specs.declared.check.FetchRule.TheVariants as rule;
ghost use Rattle.csp_model.specs.declared.source.Hash.{Hash as HashValue};
ghost use Rattle.csp_facts.specs.declared.atom.Atom.{Atom as AtomValue};
ghost use Rattle.csp_formula.specs.Compiled as compiled;
ghost use Rattle.csp_formula.specs.Questions.{answer_of_list, shape_asked};
ghost use Rattle.csp_formula.specs.Sentences.{Known};
ghost use Rattle.csp_formula.specs.Sources.{list_sentence};
ghost use Rattle.csp_answer.specs.Asking as parts;
ghost use Rattle.csp_answer.specs.Naming.{ArePairs, IsNamed};
ghost use Rattle.csp_answer.specs.Policies.{IsAnswerTo};
ghost use Rattle.csp_answer.specs.Tables.{Says};

use crate::answer::ShapeAnswer;
use crate::conjunction::Conjunction;
use crate::listed::{NamedList, list_at, list_conjunctions};
use crate::naming::{NamedPolicy, PairNames};
use crate::words::{WordKind, integrity_of, word_conjunctions};
use csp_branch::Names;
use csp_formula::{ListQuestion, ShapeQuestion, is_dynamic};
use csp_model::{FetchRule, InlineKind, Memory};
use csp_rules::{allows_all_inline, hash_counts, is_element_kind};
use std::alloc::Global;

// What answers are given by.
#[derive(Clone, Copy)]
pub(crate) struct Naming<'n> {
    pub(crate) names: &'n Names,
    pub(crate) pairs: &'n PairNames,
}

// The answer of a policy to a question.
pub(crate) fn answer_to(
    alloc: Global,
    naming: Naming,
    named: &NamedPolicy,
    question: ShapeQuestion,
) -> Result<ShapeAnswer, Memory>
    requires { IsNamed naming.names.now named.now }
    ensures { IfOk result (IsAnswerTo naming.entry.names.now naming.entry.pairs.now named.now.policy.now
        question) }
{
    match question {
        ShapeQuestion::Known(known) => known_answer(alloc, known),
        ShapeQuestion::Listed(asked) => match list_at(named, asked.place) {
            None => known_answer(alloc, true),
            Some(list) => list_answer(alloc, naming, list, asked),
        },
        ShapeQuestion::Inline { place, kind } => match list_at(named, place) {
            None => known_answer(alloc, true),
            Some(list) => inline_answer(alloc, list, kind),
        },
    }
}

// The answer that holds always or never.
fn known_answer(alloc: Global, known: bool) -> Result<ShapeAnswer, Memory>
    ensures { IfOk result (λ made. (atoms : Items AtomValue) → Says atoms (Known known) made) }
{
    ShapeAnswer::new(constant(alloc, known)?, None)
}

// The conjunction of nothing, or none.
fn constant(alloc: Global, known: bool) -> Result<Vec<Conjunction>, Memory>
    ensures { IfOk result (λ made. (atoms : Items AtomValue)
        → parts.AmountTo atoms (Known known) made.items) }
{
    if known {
        Ok(vec![in alloc; Conjunction::always()]?)
    } else {
        Ok(Vec::new(alloc))
    }
}

// The answer of a list.
fn list_answer(
    alloc: Global,
    naming: Naming,
    list: NamedList,
    asked: ListQuestion,
) -> Result<ShapeAnswer, Memory>
    requires { parts.IsListNamed naming.names.now list }
    ensures { IfOk result (λ made. (hashes : Items HashValue)
        → ArePairs naming.entry.names.now hashes naming.entry.pairs.now
        → Says naming.entry.names.now
        (answer_of_list list.entry.origin.now hashes asked list.entry.sources.now) made) }
{
    match asked.rule {
        FetchRule::Script => script_answer(alloc, naming, list, asked),
        FetchRule::Style => {
            let nonces = word_conjunctions(alloc, list, WordKind::Nonce)?;
            let listed = list_conjunctions(alloc, naming.names, list, asked.shape())?;
            ShapeAnswer::new(concatenate(nonces, listed)?, None)
        }
        FetchRule::List => ShapeAnswer::new(
            list_conjunctions(alloc, naming.names, list, asked.shape())?,
            None,
        ),
    }
}

// The answer of a list that decides on scripts.
fn script_answer(
    alloc: Global,
    naming: Naming,
    list: NamedList,
    asked: ListQuestion,
) -> Result<ShapeAnswer, Memory>
    requires { parts.IsListNamed naming.names.now list }
    ensures { IfOk result (λ made. (hashes : Items HashValue)
        → ArePairs naming.entry.names.now hashes naming.entry.pairs.now
        → Says naming.entry.names.now
        (compiled.fetch_sentence rule.Script hashes list.entry.sources.now asked.parser_inserted
        (list_sentence list.entry.origin.now (shape_asked asked) list.entry.sources.now)) made) }
{
    let nonces = word_conjunctions(alloc, list, WordKind::Nonce)?;
    let last = dynamic_or_listed(alloc, naming.names, list, asked)?;
    let integrity = integrity_of(alloc, naming.names, naming.pairs, list)?;
    ShapeAnswer::new(concatenate(nonces, last)?, Some(integrity))
}

// What the list says of URLs, or `'strict-dynamic'` in its place.
fn dynamic_or_listed(
    alloc: Global,
    names: &Names,
    list: NamedList,
    asked: ListQuestion,
) -> Result<Vec<Conjunction>, Memory>
    requires { parts.IsListNamed names.now list }
    ensures { IfOk result (λ made. parts.AmountTo names.now
        (compiled.dynamic_sentence list.entry.sources.now asked.parser_inserted
        (list_sentence list.entry.origin.now (shape_asked asked) list.entry.sources.now)) made.items) }
{
    if is_dynamic(FetchRule::Script, list.sources) {
        constant(alloc, !asked.parser_inserted)
    } else {
        list_conjunctions(alloc, names, list, asked.shape())
    }
}

// The answer of a list on inline code or style of a kind.
fn inline_answer(alloc: Global, list: NamedList, kind: InlineKind) -> Result<ShapeAnswer, Memory>
    ensures { IfOk result (λ made. (atoms : Items AtomValue) → parts.IsListNamed atoms list.entry
        → Says atoms (compiled.inline_sentence kind list.entry.sources.now) made) }
{
    if allows_all_inline(kind, list.sources) {
        return known_answer(alloc, true);
    }
    let nonces = words_that_count(alloc, is_element_kind(kind), list, WordKind::Nonce)?;
    let digests = words_that_count(
        alloc,
        hash_counts(kind, list.sources),
        list,
        WordKind::Digest,
    )?;
    ShapeAnswer::new(concatenate(nonces, digests)?, None)
}

// The conjunctions of words, or none where they don't count.
fn words_that_count(
    alloc: Global,
    counts: bool,
    list: NamedList,
    word: WordKind,
) -> Result<Vec<Conjunction>, Memory>
    ensures { IfOk result (λ made. (atoms : Items AtomValue) → parts.IsListNamed atoms list.entry
        → parts.AmountTo atoms
        (compiled.only_where counts (parts.word_sentence word list.entry.sources.now)) made.items) }
{
    if counts {
        word_conjunctions(alloc, list, word)
    } else {
        Ok(Vec::new(alloc))
    }
}

// The ones and then the others.
fn concatenate(
    mut ones: Vec<Conjunction>,
    mut others: Vec<Conjunction>,
) -> Result<Vec<Conjunction>, Memory>
    ensures { IfOk result (λ made. made.items ≡ ones.items ++ others.items) }
{
    ones.append(&mut others)?;
    Ok(ones)
}
