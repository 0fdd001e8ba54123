//! Tests of csp_cell and csp_pick.
ghost use Rattle.std.specs.Prelude.{◌≡◌, IfOk};

use crate::asked::{can_pick, looks_at};
use crate::values::literals;
use csp_cell::Cell;
use csp_facts::{Literal, Shape, Vocabulary, holds, shape_at};
use csp_model::{Algorithm, Bytes, Hash, List, Memory, Text};
use csp_pick::representative;
use csp_request::check_json;
use std::alloc::Global;
use std::process::Abort;
use std::test::Fail;

// The checks of the cell of which the literal is true.
fn narrowed(rt: &(impl Abort + AllocGlobal), cell: &Cell, literal: &Literal) -> Result<Cell, Memory>
    ensures { IfOk result (λ made. made.shape ≡ cell.now.shape) }
{
    let atom = &literal.atom;
    assert!(rt; atom.is_valid());
    assert!(rt; looks_at(cell.shape(), atom.part()));
    assert!(rt; cell.value(atom).is_none());
    let (with, without) = cell.split(atom)?;
    if literal.positive {
        Ok(with)
    } else {
        Ok(without)
    }
}

// The cell that is left where the literals, three at most, are taken one after the other.
pub(crate) fn cell_of(
    rt: &(impl Abort + AllocGlobal),
    shape: Shape,
    literals: &[Literal],
) -> Result<Cell, Memory>
    ensures { IfOk result (λ made. made.shape ≡ shape) }
{
    let whole = Cell::new(rt.alloc(), shape);
    match literals {
        [] => Ok(whole),
        [one] => narrowed(rt, &whole, one),
        [one, two] => narrowed(rt, &narrowed(rt, &whole, one)?, two),
        [one, two, three, ..] => {
            let cell = narrowed(rt, &narrowed(rt, &whole, one)?, two)?;
            narrowed(rt, &cell, three)
        }
    }
}

// The vocabulary of one hash.
fn vocabulary(alloc: Global) -> Result<Vocabulary, Memory> {
    let mut hashes = List::new(alloc);
    hashes.push(Hash {
        algorithm: Algorithm::Sha256,
        value: Text::new(alloc, "abc")?,
    })?;
    Ok(Vocabulary { hashes })
}

// The number of a shape, literals, and the check that stands for their cell, as it is printed.
const PICKED: [(u8, &str, &str); 16] = [
    (
        38,
        "",
        r#"{"destination":"image","integrity":"","kind":"fetch","nonce":"","parser-inserted":false,"redirects":0,"url":{"host":"other.example","path":"/","port":null,"scheme":"https"}}"#,
    ),
    (
        38,
        "under a.example;-host a.a.example;-under b.a.example;",
        r#"{"destination":"image","integrity":"","kind":"fetch","nonce":"","parser-inserted":false,"redirects":0,"url":{"host":"other.a.example","path":"/","port":null,"scheme":"https"}}"#,
    ),
    (
        38,
        "-domain;",
        r#"{"destination":"image","integrity":"","kind":"fetch","nonce":"","parser-inserted":false,"redirects":0,"url":{"host":"[2001:db8::1]","path":"/","port":null,"scheme":"https"}}"#,
    ),
    (
        38,
        "-https;",
        r#"{"destination":"image","integrity":"","kind":"fetch","nonce":"","parser-inserted":false,"redirects":0,"url":{"host":"other.example","path":"/","port":8080,"scheme":"https"}}"#,
    ),
    (
        38,
        "below x;-path x/y;",
        r#"{"destination":"image","integrity":"","kind":"fetch","nonce":"","parser-inserted":false,"redirects":0,"url":{"host":"other.example","path":"/x/","port":null,"scheme":"https"}}"#,
    ),
    (
        46,
        "-scheme data;",
        r#"{"destination":"image","integrity":"","kind":"fetch","nonce":"","parser-inserted":false,"redirects":0,"url":{"scheme":"blob"}}"#,
    ),
    (
        98,
        "nonce abc;has abc;",
        r#"{"destination":"script","integrity":"sha256-abc","kind":"fetch","nonce":"abc","parser-inserted":false,"redirects":0,"url":{"host":"other.example","path":"/","port":null,"scheme":"https"}}"#,
    ),
    (
        98,
        "outside;",
        r#"{"destination":"script","integrity":"sha256-other","kind":"fetch","nonce":"","parser-inserted":false,"redirects":0,"url":{"host":"other.example","path":"/","port":null,"scheme":"https"}}"#,
    ),
    (
        169,
        "-zeros;-nonce abc;",
        r#"{"digests":{"sha256":"0000000000000001000000000000000000000000000000000000000000000000","sha384":"000000000000000000000000000000000000000000000000000000000000000000000000000000000000000000000000","sha512":"00000000000000000000000000000000000000000000000000000000000000000000000000000000000000000000000000000000000000000000000000000000"},"kind":"inline","nonce":"","type":"script"}"#,
    ),
    (
        163,
        "host a.example;",
        r#"{"ancestors":[{"host":"a.example","path":"/","port":null,"scheme":"https"}],"kind":"ancestors"}"#,
    ),
    (168, "", r#"{"ancestors":["null"],"kind":"ancestors"}"#),
    (
        38,
        "under a.example;-host x.a.example;",
        r#"{"destination":"image","integrity":"","kind":"fetch","nonce":"","parser-inserted":false,"redirects":0,"url":{"host":"other.a.example","path":"/","port":null,"scheme":"https"}}"#,
    ),
    (
        38,
        "-host other.example;-host other2.example;",
        r#"{"destination":"image","integrity":"","kind":"fetch","nonce":"","parser-inserted":false,"redirects":0,"url":{"host":"other3.example","path":"/","port":null,"scheme":"https"}}"#,
    ),
    (
        38,
        "under a.example;-host other.a.example;",
        r#"{"destination":"image","integrity":"","kind":"fetch","nonce":"","parser-inserted":false,"redirects":0,"url":{"host":"other2.a.example","path":"/","port":null,"scheme":"https"}}"#,
    ),
    (
        38,
        "-under example;-host other;",
        r#"{"destination":"image","integrity":"","kind":"fetch","nonce":"","parser-inserted":false,"redirects":0,"url":{"host":"other2","path":"/","port":null,"scheme":"https"}}"#,
    ),
    (
        38,
        "-path x/;",
        r#"{"destination":"image","integrity":"","kind":"fetch","nonce":"","parser-inserted":false,"redirects":0,"url":{"host":"other.example","path":"/2","port":null,"scheme":"https"}}"#,
    ),
];

// The check that stands for the cell of these literals, of which each is true of it.
fn picked(
    rt: &(impl Abort + AllocGlobal),
    number: u8,
    spelling: &str,
    vocabulary: &Vocabulary,
) -> Result<Bytes, Fail> {
    let shape = shape_at(number).ok_or("no shape")?;
    let literals = literals(rt.alloc(), spelling)?;
    let cell = cell_of(rt, shape, literals.as_slice())?;
    assert!(rt; can_pick(&cell, vocabulary));
    let check = representative(rt.alloc(), &cell, shape, vocabulary)?;
    for literal in literals.as_slice() {
        assert_eq!(rt;
            holds(&literal.atom, &check, vocabulary),
            literal.positive,
            "{spelling}"
        );
    }
    let text = check_json(rt.alloc(), &check);
    drop(check);
    Ok(text?)
}

// Each literal is true of the check, and the check is the simplest of its kind.
#[test]
fn checks_of_cells(rt: HostRuntime) -> Result<(), Fail> {
    let vocabulary = vocabulary(rt.alloc())?;
    for &(number, spelling, printed) in &PICKED {
        let text = picked(&rt, number, spelling, &vocabulary)?;
        assert_eq!(rt; text.as_slice(), printed.as_bytes(), "{spelling}");
    }
    Ok(())
}
