//! Tests of csp_facts: tables of what literals say of atoms, and of atoms that hold.
use crate::values::{check, policies};
use csp_facts::{Atom, Literal, Vocabulary, follows, holds, vocabulary_of};
use csp_model::{Algorithm, Digest, Hash, Host, Memory, Path, Text};
use csp_token::{integrity_text, read_integrity};
use std::alloc::Global;
use std::process::Abort;
use std::test::Fail;

// The atom of a kind and a text behind a space; that of a path has "/" between its pieces.
pub(crate) fn atom(alloc: Global, spelling: &str) -> Result<Atom, Memory> {
    let (kind, text) = spelling.split_once(' ').unwrap_or((spelling, ""));
    Ok(match kind {
        "host" => Atom::HostIs(Host::Domain(Text::new(alloc, text)?)),
        "address" => Atom::HostIs(Host::Address(Text::new(alloc, text)?)),
        "under" => Atom::HostUnder(Text::new(alloc, text)?),
        "domain" => Atom::HostDomain,
        "https" => Atom::PortIs(443),
        "http" => Atom::PortIs(80),
        "path" => Atom::PathIs(Path::read(alloc, text.as_bytes())?),
        "below" => Atom::PathUnder(Path::read(alloc, text.as_bytes())?),
        "scheme" => Atom::SchemeIs(Text::new(alloc, text)?),
        "nonce" => Atom::NonceIs(Text::new(alloc, text)?),
        "has" => Atom::IntegrityHas(Hash {
            algorithm: Algorithm::Sha256,
            value: Text::new(alloc, text)?,
        }),
        "ones" => Atom::DigestIs(Digest::Sha256([1; 32])),
        "twos" => Atom::DigestIs(Digest::Sha256([2; 32])),
        "longer" => Atom::DigestIs(Digest::Sha384([1; 48])),
        _ => Atom::IntegrityOutside,
    })
}

pub(crate) fn literal(alloc: Global, positive: bool, spelling: &str) -> Result<Literal, Memory> {
    Ok(Literal {
        atom: atom(alloc, spelling)?,
        positive,
    })
}

// Whether the literal is positive, its atom, the atom that is asked for, and what is said of it.
type Row = (bool, &'static str, &'static str, Option<bool>);

const OF_HOSTS: [Row; 33] = [
    (true, "under a.example", "under example", Some(true)),
    (true, "under a.example", "host b.example", Some(false)),
    (true, "under a.example", "under x.a.example", None),
    (false, "under example", "under a.example", Some(false)),
    (true, "under a.example", "under a.example", Some(true)),
    (true, "under a.example", "under b.example", Some(false)),
    (true, "under xa.example", "under a.example", Some(false)),
    (true, "under a.example", "domain", Some(true)),
    (true, "under a.example", "host a.example", Some(false)),
    (true, "under a.example", "host x.a.example", None),
    (true, "under a.example", "address 10.0.0.1", Some(false)),
    (false, "under a.example", "under example", None),
    (false, "under a.example", "host x.a.example", Some(false)),
    (false, "under a.example", "host a.example", None),
    (false, "under a.example", "domain", None),
    (true, "host x.a.example", "host x.a.example", Some(true)),
    (true, "host x.a.example", "host a.example", Some(false)),
    (true, "host x.a.example", "under a.example", Some(true)),
    (true, "host a.example", "under a.example", Some(false)),
    (true, "host a.example", "domain", Some(true)),
    (true, "address 10.0.0.1", "domain", Some(false)),
    (true, "address 10.0.0.1", "under 0.1", Some(false)),
    (false, "host a.example", "host a.example", Some(false)),
    (false, "host a.example", "host b.example", None),
    (false, "host x.a.example", "under a.example", None),
    (true, "domain", "domain", Some(true)),
    (true, "domain", "address 10.0.0.1", Some(false)),
    (true, "domain", "host a.example", None),
    (true, "domain", "under a.example", None),
    (false, "domain", "domain", Some(false)),
    (false, "domain", "under a.example", Some(false)),
    (false, "domain", "host a.example", Some(false)),
    (false, "domain", "address 10.0.0.1", None),
];

const OF_PORTS_AND_PATHS: [Row; 22] = [
    (true, "https", "https", Some(true)),
    (true, "https", "http", Some(false)),
    (false, "https", "https", Some(false)),
    (false, "https", "http", None),
    (true, "path x/y", "path x/y", Some(true)),
    (true, "path x/y", "path x", Some(false)),
    (true, "path x/y", "below x", Some(true)),
    (true, "path x/y", "below x/y", Some(false)),
    (false, "path x/y", "path x/y", Some(false)),
    (false, "path x/y", "below x", None),
    (true, "below x/y", "below x", Some(true)),
    (true, "below x/y", "below x/y", Some(true)),
    (true, "below x/y", "below x/z", Some(false)),
    (true, "below x", "below x/y", None),
    (true, "below x", "path x", Some(false)),
    (true, "below x", "path x/y", None),
    (false, "below x", "below x/y", Some(false)),
    (false, "below x", "below x", Some(false)),
    (false, "below x/y", "below x", None),
    (false, "below x", "path x/y", Some(false)),
    (false, "below x", "path x", None),
    (true, "path x", "https", None),
];

const OF_THE_REST: [Row; 20] = [
    (true, "scheme data", "scheme data", Some(true)),
    (true, "scheme data", "scheme blob", Some(false)),
    (false, "scheme data", "scheme data", Some(false)),
    (false, "scheme data", "scheme blob", None),
    (true, "nonce abc", "nonce abc", Some(true)),
    (true, "nonce abc", "nonce ABC", Some(false)),
    (false, "nonce abc", "nonce abc", Some(false)),
    (false, "nonce abc", "nonce ABC", None),
    (true, "ones", "ones", Some(true)),
    (true, "ones", "twos", Some(false)),
    (true, "ones", "longer", None),
    (false, "ones", "ones", Some(false)),
    (false, "ones", "twos", None),
    (true, "has abc", "has abc", Some(true)),
    (true, "has abc", "has d", None),
    (false, "has abc", "has abc", Some(false)),
    (true, "has abc", "outside", None),
    (true, "outside", "outside", Some(true)),
    (false, "outside", "outside", Some(false)),
    (false, "outside", "has abc", None),
];

// What a literal says of an atom.
fn said(alloc: Global, positive: bool, known: &str, asked: &str) -> Result<Option<bool>, Memory> {
    let known = literal(alloc, positive, known)?;
    let asked = atom(alloc, asked)?;
    let answer = follows(&known, &asked);
    drop(asked);
    drop(known);
    Ok(answer)
}

fn are_said(rt: &(impl Abort + AllocGlobal), rows: &[Row]) -> Result<(), Memory> {
    for &(positive, known, asked, wanted) in rows {
        let answer = said(rt.alloc(), positive, known, asked)?;
        assert_eq!(rt; answer, wanted, "{positive} {known}, {asked}");
    }
    Ok(())
}

#[test]
fn what_literals_say(rt: HostRuntime) -> Result<(), Fail> {
    are_said(&rt, &OF_HOSTS)?;
    are_said(&rt, &OF_PORTS_AND_PATHS)?;
    are_said(&rt, &OF_THE_REST)?;
    Ok(())
}

// A check, an atom, and whether it holds for the check, with the vocabulary of the hash `abc`.
const HELD: [(&str, &str, bool); 21] = [
    ("script", "host x.a.example", true),
    ("script", "address x.a.example", false),
    ("script", "under a.example", true),
    ("script", "under x.a.example", false),
    ("script", "domain", true),
    ("script", "https", true),
    ("script", "http", false),
    ("script", "path p/q", true),
    ("script", "below p", true),
    ("script", "below p/q", false),
    ("script", "scheme https", false),
    ("script", "nonce abc", true),
    ("script", "has d", true),
    ("script", "has e", false),
    ("script", "outside", true),
    ("script", "ones", false),
    ("style", "longer", true),
    ("style", "twos", false),
    ("style", "outside", false),
    ("plain", "scheme data", true),
    ("plain", "domain", false),
];

fn holds_for(alloc: Global, name: &str, spelling: &str) -> Result<bool, Fail> {
    let vocabulary = Vocabulary {
        hashes: read_integrity(alloc, "sha256-abc")?,
    };
    let check = check(alloc, name)?;
    let atom = atom(alloc, spelling)?;
    let answer = holds(&atom, &check, &vocabulary);
    drop(atom);
    drop(check);
    Ok(answer)
}

#[test]
fn what_holds(rt: HostRuntime) -> Result<(), Fail> {
    for &(name, spelling, wanted) in &HELD {
        let answer = holds_for(rt.alloc(), name, spelling)?;
        assert_eq!(rt; answer, wanted, "{spelling} for {name}");
    }
    Ok(())
}

// The hashes of unknown directives and of report-only policies count, each once.
#[test]
fn vocabulary_of_two_lists(rt: HostRuntime) -> Result<(), Fail> {
    let first = policies(
        &rt,
        "Content-Security-Policy-Report-Only: x 'sha256-b' 'sha256-a' 'sha256-b'",
    )?;
    let second = policies(&rt, "Content-Security-Policy: x 'sha256-c' 'sha256-a'")?;
    let made = vocabulary_of(rt.alloc(), &first, &second)?;
    let text = integrity_text(rt.alloc(), &made.hashes)?;
    assert_eq!(rt; text.as_str(), "sha256-b sha256-a sha256-c");
    Ok(())
}
