//! The formula of a policy at a shape.
ghost use Rattle.std.specs.Prelude.{◌≡◌, IfOk};
ghost use Rattle.csp_model.specs.DecideVerdict.{allows};
ghost use Rattle.csp_model.specs.Policies.{IsReadablePolicy};
ghost use Rattle.csp_model.specs.Validity.{IsValidCheck};
ghost use Rattle.csp_model.specs.declared.check.Check.{Check as CheckValue};
ghost use Rattle.csp_facts.specs.Shapes.{HasShape};
ghost use Rattle.csp_formulas.specs.Formulas.{sentence_of};
ghost use Rattle.csp_formula.specs.Compiled as spec;
ghost use Rattle.csp_formula.specs.Questions.{answer_of_list, question_sentence};
ghost use Rattle.csp_formula.specs.Values.{is_true_for};

use crate::formula::Formula;
use crate::sources::list_formula;
use crate::tokens::{digests_formula, integrity_formula, nonces_formula};
use csp_facts::{Shape, Vocabulary};
use csp_formula::laws::a_formula_is_what_the_policy_allows;
use csp_formula::{ListQuestion, ShapeQuestion, question_at, sources_at};
use csp_model::{FetchRule, InlineKind, Keyword, List, Memory, Origin, Policy, Source};
use csp_rules::{allows_all_inline, hash_counts, is_element_kind};
use csp_token::Tokens;
use std::alloc::Global;

/// The formula of a policy at a shape: it is true of a valid check of the shape exactly where the policy
/// allows the check, whatever the policy's disposition, where the policy is as reading makes it and the
/// vocabulary has its hash-sources.
///
/// Its sentence is that of the tables in `specs/Compiled` and `specs/Sources`, so its atoms are those of the
/// tables, and so is what literals decide of it. Time and memory grow with the list that governs and, for
/// scripts and workers, with the vocabulary.
pub fn compile(
    alloc: Global,
    policy: &Policy,
    shape: Shape,
    vocabulary: &Vocabulary,
) -> Result<Formula, Memory>
    ensures sentence { IfOk result (λ made. sentence_of made
        ≡ spec.policy_sentence policy.now shape vocabulary.now.hashes) }
    ensures allows { IfOk result (λ made. (asked : CheckValue) → IsReadablePolicy policy.now
        → spec.HasHashesOf vocabulary.now.hashes policy.now → IsValidCheck asked → HasShape asked shape
        → is_true_for vocabulary.now.hashes asked (sentence_of made) ≡ allows policy.now asked) }
{
    a_formula_is_what_the_policy_allows();
    formula_of(alloc, policy, question_at(policy, shape), vocabulary)
}

// The formula of a policy's answer to a question.
fn formula_of(
    alloc: Global,
    policy: &Policy,
    question: ShapeQuestion,
    vocabulary: &Vocabulary,
) -> Result<Formula, Memory>
    ensures { IfOk result (λ made. sentence_of made
        ≡ question_sentence policy.now vocabulary.now.hashes question) }
{
    match question {
        ShapeQuestion::Known(known) => Ok(Formula::Constant(known)),
        ShapeQuestion::Listed(asked) => match sources_at(policy, asked.place) {
            None => Ok(Formula::Constant(true)),
            Some(sources) => list_answer(alloc, &policy.origin, asked, sources, vocabulary),
        },
        ShapeQuestion::Inline { place, kind } => match sources_at(policy, place) {
            None => Ok(Formula::Constant(true)),
            Some(sources) => inline_formula(alloc, kind, sources),
        },
    }
}

// The formula of what the list says.
fn list_answer(
    alloc: Global,
    origin: &Origin,
    asked: ListQuestion,
    sources: &List<Source>,
    vocabulary: &Vocabulary,
) -> Result<Formula, Memory>
    ensures { IfOk result (λ made. sentence_of made
        ≡ answer_of_list origin.now vocabulary.now.hashes asked sources.now) }
{
    let listed = list_formula(alloc, origin, asked.shape(), sources.as_slice())?;
    ruled_formula(
        alloc,
        asked.rule,
        vocabulary,
        sources,
        asked.parser_inserted,
        listed,
    )
}

// The formula of fetches by the rule of a governing list; `listed` says whether the list matches their URL.
fn ruled_formula(
    alloc: Global,
    rule: FetchRule,
    vocabulary: &Vocabulary,
    sources: &List<Source>,
    parser_inserted: bool,
    listed: Formula,
) -> Result<Formula, Memory>
    ensures { IfOk result (λ made. sentence_of made
        ≡ spec.fetch_sentence rule vocabulary.now.hashes sources.now parser_inserted (sentence_of listed)) }
{
    match rule {
        FetchRule::Script => {
            let nonces = nonces_formula(alloc, sources.as_slice())?;
            let integrity = integrity_formula(
                alloc,
                vocabulary.hashes.as_slice(),
                sources.as_slice(),
            )?;
            let last = dynamic_or_listed(sources, parser_inserted, listed);
            Ok(Formula::OneOf(vec![in alloc; nonces, integrity, last]?))
        }
        FetchRule::Style => {
            let nonces = nonces_formula(alloc, sources.as_slice())?;
            Ok(Formula::OneOf(vec![in alloc; nonces, listed]?))
        }
        FetchRule::List => Ok(listed),
    }
}

// What the list says, or `'strict-dynamic'` in its place.
fn dynamic_or_listed(sources: &List<Source>, parser_inserted: bool, listed: Formula) -> Formula
    ensures { sentence_of result
        ≡ spec.dynamic_sentence sources.now parser_inserted (sentence_of listed) }
{
    if sources.has_keyword(Keyword::StrictDynamic) {
        Formula::Constant(!parser_inserted)
    } else {
        listed
    }
}

// The formula of inline code or style of a kind, where this list governs.
fn inline_formula(
    alloc: Global,
    kind: InlineKind,
    sources: &List<Source>,
) -> Result<Formula, Memory>
    ensures { IfOk result (λ made. sentence_of made ≡ spec.inline_sentence kind sources.now) }
{
    if allows_all_inline(kind, sources) {
        return Ok(Formula::Constant(true));
    }
    let nonces = if is_element_kind(kind) {
        nonces_formula(alloc, sources.as_slice())?
    } else {
        Formula::Constant(false)
    };
    let digests = if hash_counts(kind, sources) {
        digests_formula(alloc, sources.as_slice())?
    } else {
        Formula::Constant(false)
    };
    Ok(Formula::OneOf(vec![in alloc; nonces, digests]?))
}
