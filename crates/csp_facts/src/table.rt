//! What one literal says of an atom.
ghost use Rattle.std.specs.Prelude.{◌≡◌, IfSome, IsTrue, List as Items};
ghost use Rattle.csp_model.specs.declared.check.Check.{Check as CheckValue};
ghost use Rattle.csp_model.specs.declared.source.Hash.{Hash as HashValue};
ghost use Rattle.csp_facts.specs.Follows as spec;
ghost use Rattle.csp_facts.specs.Holding.{holds, is_true_of};

use crate::atom::{Atom, Literal};
use crate::hosts::lies_within;
use csp_model::Digest;

/// What a literal says of an atom: the value that the atom has for each check of which the literal is true.
/// None comes exactly where the table of `specs/Follows` says nothing.
pub fn follows(literal: &Literal, atom: &Atom) -> Option<bool>
    ensures value { result ≡ spec.follows literal.now atom.now }
    ensures sound { (hashes : Items HashValue) (asked : CheckValue)
        → IsTrue (is_true_of hashes asked literal.now)
        → IfSome result (λ known. holds hashes asked atom.now ≡ known) }
{
    follows_as(&literal.atom, literal.positive, atom)
}

/// What `follows` answers for the literal of this atom and sign, whose atom stands anywhere.
pub fn follows_as(known: &Atom, positive: bool, asked: &Atom) -> Option<bool>
    ensures { result ≡ spec.follows (record { atom = known.now; positive = positive }) asked.now }
{
    if positive {
        follows_true(known, asked)
    } else {
        follows_false(known, asked)
    }
}

fn true_where(test: bool) -> Option<bool>
    ensures { result ≡ spec.true_where test }
{
    if test { Some(true) } else { None }
}

fn false_where(test: bool) -> Option<bool>
    ensures { result ≡ spec.false_where test }
{
    if test { Some(false) } else { None }
}

fn by_nesting(inner: bool, outer: bool) -> Option<bool>
    ensures { result ≡ spec.nested inner outer }
{
    if inner {
        Some(true)
    } else {
        false_where(!outer)
    }
}

fn same_digest(known: &Digest, asked: &Digest) -> Option<bool>
    ensures { result ≡ spec.same_digest known.now asked.now }
{
    match (known, asked) {
        (Digest::Sha256(known), Digest::Sha256(asked)) => Some(known == asked),
        (Digest::Sha384(known), Digest::Sha384(asked)) => Some(known == asked),
        (Digest::Sha512(known), Digest::Sha512(asked)) => Some(known == asked),
        _ => None,
    }
}

fn false_of_digest(known: &Digest, asked: &Digest) -> Option<bool>
    ensures { result ≡ spec.false_of_digest known.now asked.now }
{
    match same_digest(known, asked) {
        Some(true) => Some(false),
        _ => None,
    }
}

// What an atom that holds says of another.
fn follows_true(known: &Atom, asked: &Atom) -> Option<bool>
    ensures { result ≡ spec.follows_true known.now asked.now }
{
    match (known, asked) {
        (Atom::HostIs(host), Atom::HostIs(other)) => Some(host == other),
        (Atom::HostIs(host), Atom::HostUnder(suffix)) => Some(host.is_under(suffix.as_str())),
        (Atom::HostIs(host), Atom::HostDomain) => Some(host.is_domain()),
        (Atom::HostUnder(_) | Atom::HostDomain, Atom::HostDomain) => Some(true),
        (Atom::HostUnder(known), Atom::HostUnder(asked)) => by_nesting(
            lies_within(known.as_str(), asked.as_str()),
            lies_within(asked.as_str(), known.as_str()),
        ),
        (Atom::HostUnder(suffix), Atom::HostIs(host)) => false_where(!host.is_under(
            suffix.as_str(),
        )),
        (Atom::HostDomain, Atom::HostIs(host)) => false_where(!host.is_domain()),
        (Atom::PortIs(known), Atom::PortIs(asked)) => Some(known == asked),
        (Atom::PathIs(known), Atom::PathIs(asked)) => Some(known == asked),
        (Atom::PathIs(path), Atom::PathUnder(front)) => Some(path.goes_beyond(front)),
        (Atom::PathUnder(known), Atom::PathUnder(asked)) => by_nesting(
            known.begins_with(asked),
            asked.begins_with(known),
        ),
        (Atom::PathUnder(front), Atom::PathIs(path)) => false_where(!path.goes_beyond(front)),
        (Atom::SchemeIs(known), Atom::SchemeIs(asked)) => Some(known == asked),
        (Atom::NonceIs(known), Atom::NonceIs(asked)) => Some(known == asked),
        (Atom::DigestIs(known), Atom::DigestIs(asked)) => same_digest(known, asked),
        (Atom::IntegrityHas(known), Atom::IntegrityHas(asked)) => true_where(known == asked),
        (Atom::IntegrityOutside, Atom::IntegrityOutside) => Some(true),
        _ => None,
    }
}

// What an atom that doesn't hold says of another.
fn follows_false(known: &Atom, asked: &Atom) -> Option<bool>
    ensures { result ≡ spec.follows_false known.now asked.now }
{
    match (known, asked) {
        (Atom::HostIs(host), Atom::HostIs(other)) => false_where(host == other),
        (Atom::HostUnder(known), Atom::HostUnder(asked)) => false_where(lies_within(
            asked.as_str(),
            known.as_str(),
        )),
        (Atom::HostUnder(suffix), Atom::HostIs(host)) => false_where(host.is_under(
            suffix.as_str(),
        )),
        (Atom::HostDomain, Atom::HostDomain | Atom::HostUnder(_)) => Some(false),
        (Atom::HostDomain, Atom::HostIs(host)) => false_where(host.is_domain()),
        (Atom::PortIs(known), Atom::PortIs(asked)) => false_where(known == asked),
        (Atom::PathIs(known), Atom::PathIs(asked)) => false_where(known == asked),
        (Atom::PathUnder(known), Atom::PathUnder(asked)) => false_where(asked.begins_with(known)),
        (Atom::PathUnder(front), Atom::PathIs(path)) => false_where(path.goes_beyond(front)),
        (Atom::SchemeIs(known), Atom::SchemeIs(asked)) => false_where(known == asked),
        (Atom::NonceIs(known), Atom::NonceIs(asked)) => false_where(known == asked),
        (Atom::DigestIs(known), Atom::DigestIs(asked)) => false_of_digest(known, asked),
        (Atom::IntegrityHas(known), Atom::IntegrityHas(asked)) => false_where(known == asked),
        (Atom::IntegrityOutside, Atom::IntegrityOutside) => Some(false),
        _ => None,
    }
}
