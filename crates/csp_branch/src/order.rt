//! The order of names.
ghost use Rattle.std.specs.Prelude.{◌≡◌, ◌∷◌, reverse};
ghost use Rattle.csp_model.specs.declared.check.CheckPart.TheVariants as part;
ghost use Rattle.csp_facts.specs.Atoms.{part_of};
ghost use Rattle.csp_facts.specs.declared.atom.Atom.TheVariants.{HostIs, HostDomain};
ghost use Rattle.csp_branch.specs.Order as spec;

use csp_facts::Atom;
use csp_facts::order::{compare, compare_paths};
use csp_model::{Algorithm, CheckPart, Host};
use std::cmp::Ordering;

// The order of two atoms. Those on one part stand together, and those that an atom is around right behind
// it.
pub(crate) fn compare_names(one: &Atom, other: &Atom) -> Ordering
    ensures { result ≡ spec.name_cmp one.now other.now }
{
    let ours = part_number(one.part());
    let theirs = part_number(other.part());
    if ours == theirs {
        compare_on_part(one, other)
    } else {
        ours.cmp(&theirs)
    }
}

/// The place of a part of a check among the nine parts, from 0. The names of atoms stand in this order.
pub fn part_number(part: CheckPart) -> u8
    ensures { result ≡ spec.part_number part }
{
    match part {
        CheckPart::Host => 0,
        CheckPart::Path => 1,
        CheckPart::Port => 2,
        CheckPart::PlainScheme => 3,
        CheckPart::Nonce => 4,
        CheckPart::Integrity => 5,
        CheckPart::Digest(Algorithm::Sha256) => 6,
        CheckPart::Digest(Algorithm::Sha384) => 7,
        CheckPart::Digest(Algorithm::Sha512) => 8,
    }
}

fn compare_on_part(one: &Atom, other: &Atom) -> Ordering
    requires { part_of one.now ≡ part_of other.now }
    ensures { result ≡ spec.content_cmp one.now other.now }
{
    match one.part() {
        CheckPart::Host => compare_on_hosts(one, other),
        CheckPart::Path => compare_on_paths(one, other),
        _ => compare(one, other),
    }
}

fn compare_on_hosts(one: &Atom, other: &Atom) -> Ordering
    requires one { part_of one.now ≡ part.Host }
    requires other { part_of other.now ≡ part.Host }
    ensures { result ≡ spec.content_cmp one.now other.now }
{
    match (one, other) {
        (Atom::HostDomain, _) => compare_with_any_domain(other),
        (_, Atom::HostDomain) => compare_with_any_domain(one).reverse(),
        (Atom::HostIs(one), Atom::HostIs(other)) => compare_hosts(one, other),
        (Atom::HostIs(Host::Domain(one)), Atom::HostUnder(other)) => {
            compare_ends(one.as_str().as_bytes(), 0, other.as_str().as_bytes(), b'.')
        }
        (Atom::HostUnder(one), Atom::HostIs(Host::Domain(other))) => {
            compare_ends(one.as_str().as_bytes(), b'.', other.as_str().as_bytes(), 0)
        }
        (Atom::HostUnder(one), Atom::HostUnder(other)) => {
            compare_ends(
                one.as_str().as_bytes(),
                b'.',
                other.as_str().as_bytes(),
                b'.',
            )
        }
        (Atom::HostIs(_), _) => Ordering::Less,
        _ => Ordering::Greater,
    }
}

fn compare_on_paths(one: &Atom, other: &Atom) -> Ordering
    requires one { part_of one.now ≡ part.Path }
    requires other { part_of other.now ≡ part.Path }
    ensures { result ≡ spec.content_cmp one.now other.now }
{
    match (one, other) {
        (Atom::PathIs(one), Atom::PathIs(other)) => compare_paths(one, other),
        (Atom::PathIs(one), Atom::PathUnder(other)) => {
            compare_paths(one, other).then(Ordering::Less)
        }
        (Atom::PathUnder(one), Atom::PathIs(other)) => {
            compare_paths(one, other).then(Ordering::Greater)
        }
        (Atom::PathUnder(one), Atom::PathUnder(other)) => compare_paths(one, other),
        _ => Ordering::Equal,
    }
}

// The order of two texts read from their ends, the first with this mark behind it and the other with that.
fn compare_ends(one: &[u8], mark: u8, other: &[u8], other_mark: u8) -> Ordering
    ensures { result ≡ spec.text_cmp (reverse (mark ∷ one.now)) (reverse (other_mark ∷ other.now)) }
{
    let end = [mark];
    let other_end = [other_mark];
    let ours = one.iter().rev().chain(end.iter());
    let theirs = other.iter().rev().chain(other_end.iter());
    ours.cmp(theirs)
}

fn compare_hosts(one: &Host, other: &Host) -> Ordering
    ensures { result ≡ spec.content_cmp (HostIs one.now) (HostIs other.now) }
{
    match (one, other) {
        (Host::Domain(one), Host::Domain(other)) => {
            compare_ends(one.as_str().as_bytes(), 0, other.as_str().as_bytes(), 0)
        }
        (Host::Address(one), Host::Address(other)) => {
            compare_ends(one.as_str().as_bytes(), 0, other.as_str().as_bytes(), 0)
        }
        (Host::Domain(_), Host::Address(_)) => Ordering::Greater,
        (Host::Address(_), Host::Domain(_)) => Ordering::Less,
    }
}

fn compare_with_any_domain(one: &Atom) -> Ordering
    requires { part_of one.now ≡ part.Host }
    ensures { result ≡ spec.content_cmp HostDomain one.now }
{
    match one {
        Atom::HostDomain => Ordering::Equal,
        Atom::HostIs(Host::Address(_)) => Ordering::Greater,
        _ => Ordering::Less,
    }
}
