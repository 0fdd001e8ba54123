//! Tests of csp_formulas and csp_answer.
ghost use Rattle.std.specs.Prelude.{IsTrue};
ghost use Rattle.csp_facts.specs.Shapes.{is_shape};

use crate::cells::cell_of;
use crate::values::{literals, policies};
use csp_answer::answers_of;
use csp_cell::Cell;
use csp_facts::{Atom, Literal, Shape, Vocabulary, holds, shape_at, vocabulary_of};
use csp_formulas::{Formula, compile, residual, surely};
use csp_model::{Check, Duplicate, List, Memory, PolicyList};
use csp_pick::representative;
use csp_verdict::allows;
use std::alloc::Global;
use std::process::Abort;
use std::test::Fail;

// A policy, the number of a shape, literals, and what they decide of the policy's formula.
type Row = (&'static str, u8, &'static str, Option<bool>);

const DECIDED: [Row; 20] = [
    ("img-src https://a.example:443", 38, "", None),
    (
        "img-src https://a.example:443",
        38,
        "host a.example;https;",
        Some(true),
    ),
    (
        "img-src https://a.example:443",
        38,
        "-host a.example;",
        Some(false),
    ),
    ("img-src https://a.example:443", 36, "", Some(false)),
    ("img-src https://a.example:443", 48, "", Some(true)),
    ("img-src https://*.0.0.1", 38, "", Some(false)),
    ("img-src https://a.example/x/../y", 38, "", Some(false)),
    (
        "img-src https://10.0.0.1",
        38,
        "address 10.0.0.1;https;",
        Some(true),
    ),
    ("img-src https://10.0.0.1", 38, "domain;", Some(false)),
    ("img-src https://010.0.0.1", 38, "", Some(false)),
    (
        "img-src https://a.example/x",
        39,
        "host a.example;https;",
        Some(true),
    ),
    (
        "img-src https://a.example/x",
        38,
        "host a.example;https;",
        None,
    ),
    ("img-src 'self'", 38, "host a.example;https;", Some(true)),
    ("script-src 'nonce-abc'", 98, "nonce abc;", Some(true)),
    ("script-src 'strict-dynamic' https:", 98, "", Some(true)),
    (
        "script-src 'strict-dynamic' https:",
        110,
        "-outside;",
        Some(false),
    ),
    ("default-src 'strict-dynamic'", 122, "", Some(false)),
    ("script-src 'unsafe-inline'", 169, "", Some(true)),
    (
        "script-src 'unsafe-inline' 'nonce-abc'",
        169,
        "-nonce abc;",
        Some(false),
    ),
    ("sandbox allow-forms", 188, "", Some(false)),
];

// The value of the first policy's formula under the literals.
fn decided(
    rt: &(impl Abort + AllocGlobal),
    list: &PolicyList,
    number: u8,
    known: &str,
) -> Result<Option<bool>, Fail> {
    let vocabulary: Vocabulary = vocabulary_of(rt.alloc(), list, list)?;
    let policy = list.policies.get(0).ok_or("no policy")?;
    let shape = shape_at(number).ok_or("no shape")?;
    let formula = compile(rt.alloc(), policy, shape, &vocabulary)?;
    let known = literals(rt.alloc(), known)?;
    Ok(surely(&formula, known.as_slice()))
}

#[test]
fn what_literals_decide(rt: HostRuntime) -> Result<(), Fail> {
    for &(policy, number, known, wanted) in &DECIDED {
        let block = format!(in rt.alloc(); "Content-Security-Policy: {policy}")?;
        let list = policies(&rt, block.as_str())?;
        let found = decided(&rt, &list, number, known)?;
        assert_eq!(rt; found, wanted, "{policy} at {number} under {known}");
    }
    Ok(())
}

// What is left of a formula where these literals are true.
fn left_where(
    rt: &(impl Abort + AllocGlobal),
    formula: &Formula,
    shape: Shape,
    known: &str,
) -> Result<Formula, Memory> {
    let known = literals(rt.alloc(), known)?;
    let cell = cell_of(rt, shape, known.as_slice())?;
    residual(rt.alloc(), formula, &cell)
}

// Literals, whether a formula is left, and what is sure of it.
const LEFT: [(&str, bool, Option<bool>); 5] = [
    ("", true, None),
    ("host a.example;", true, None),
    ("-host a.example;", false, Some(false)),
    ("host b.example;", false, Some(false)),
    ("host a.example;https;", false, Some(true)),
];

#[test]
fn what_is_left_of_a_formula(rt: HostRuntime) -> Result<(), Fail> {
    let list = policies(
        &rt,
        "Content-Security-Policy: img-src https://a.example:443",
    )?;
    let vocabulary = vocabulary_of(rt.alloc(), &list, &list)?;
    let policy = list.policies.get(0).ok_or("no policy")?;
    let shape = shape_at(38).ok_or("no shape")?;
    let formula = compile(rt.alloc(), policy, shape, &vocabulary)?;
    for &(known, is_open, value) in &LEFT {
        let left = left_where(&rt, &formula, shape, known)?;
        assert_eq!(rt;
            !matches!(&left, Formula::Constant(_)),
            is_open,
            "under {known}"
        );
        assert_eq!(rt; surely(&left, &[]), value, "under {known}");
    }
    Ok(())
}

// A policy with every kind of source.
const EVERY_KIND: &str = "Content-Security-Policy: \
    default-src 'self' https://*.b.example:8443/x/ 10.0.0.1 * 'report-sample'; \
    script-src 'strict-dynamic' 'nonce-abc' 'unsafe-hashes' 'wasm-unsafe-eval' https: \
    'sha256-47DEQpj8HBSa+/TImW+5JCeuQeRkm5NMpJWZG3hSuFU='; \
    style-src 'unsafe-inline' https://a.example; img-src data: https://a.example/x/y https://*:*; \
    form-action 'self' https://pay.example:65536; base-uri http://b.example:*; \
    frame-ancestors https:; worker-src 'nonce-d' a.example; sandbox allow-forms allow-scripts";

// A check of the shape.
fn check_at(alloc: Global, vocabulary: &Vocabulary, shape: Shape) -> Result<Check, Memory>
    requires { IsTrue (is_shape shape) }
{
    let cell = Cell::new(alloc, shape);
    representative(alloc, &cell, shape, vocabulary)
}

// Each of these atoms as it is for the check.
fn facts_of(
    alloc: Global,
    atoms: &[Atom],
    vocabulary: &Vocabulary,
    check: &Check,
) -> Result<List<Literal>, Memory> {
    let mut known = List::new(alloc);
    for atom in atoms {
        known.push(Literal {
            atom: atom.copy(alloc)?,
            positive: holds(atom, check, vocabulary),
        })?;
    }
    Ok(known)
}

#[test]
fn formulas_are_what_the_policy_allows(rt: HostRuntime) -> Result<(), Fail> {
    let list = policies(&rt, EVERY_KIND)?;
    let vocabulary = vocabulary_of(rt.alloc(), &list, &list)?;
    let named = answers_of(rt.alloc(), &list, &list, &vocabulary, &[])?;
    let policy = list.policies.get(0).ok_or("no policy")?;
    for number in 0..189 {
        let shape = shape_at(number).ok_or("no shape")?;
        let check = check_at(rt.alloc(), &vocabulary, shape)?;
        let known = facts_of(rt.alloc(), named.names.atoms(), &vocabulary, &check)?;
        let formula = compile(rt.alloc(), policy, shape, &vocabulary)?;
        let value = surely(&formula, known.as_slice());
        let is_allowed = allows(policy, &check);
        drop(check);
        assert_eq!(rt; value, Some(is_allowed), "{number}");
    }
    Ok(())
}
