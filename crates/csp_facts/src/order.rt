//! An order of atoms, for sets and for searches of lists.
ghost use Rattle.std.specs.Prelude.{◌≡◌};
ghost use Rattle.csp_model.specs.Paths.{front_text};
ghost use Rattle.csp_model.specs.Tokens.{algorithm_of};
ghost use Rattle.csp_facts.specs.declared.atom.Atom.TheVariants.{DigestIs};
ghost use Rattle.csp_facts.specs.Kinds as kinds;
ghost use Rattle.csp_facts.specs.Order as spec;

use crate::atom::Atom;
use csp_model::{Algorithm, Digest, Host, Path};
use std::cmp::Ordering;

/// The order of two atoms: by kind, so that those on one part of a check stand together, and then by what
/// they say.
pub fn compare(one: &Atom, other: &Atom) -> Ordering
    ensures { result ≡ spec.atom_cmp one.now other.now }
{
    by_kind(one, other)
}

fn by_kind(one: &Atom, other: &Atom) -> Ordering
    ensures { result ≡ kinds.by_kind one.now other.now }
{
    match (one, other) {
        (Atom::HostIs(one), Atom::HostIs(other)) => compare_hosts(one, other),
        (Atom::HostUnder(one), Atom::HostUnder(other)) => one.cmp(other),
        (Atom::PortIs(one), Atom::PortIs(other)) => one.cmp(other),
        (Atom::PathIs(one), Atom::PathIs(other)) => compare_paths(one, other),
        (Atom::PathUnder(one), Atom::PathUnder(other)) => compare_paths(one, other),
        (Atom::SchemeIs(one), Atom::SchemeIs(other)) => one.cmp(other),
        (Atom::NonceIs(one), Atom::NonceIs(other)) => one.cmp(other),
        (Atom::IntegrityHas(one), Atom::IntegrityHas(other)) => algorithm_rank(one.algorithm)
            .cmp(&algorithm_rank(other.algorithm))
            .then(one.value.cmp(&other.value)),
        (Atom::DigestIs(one), Atom::DigestIs(other)) => compare_digests(one, other),
        _ => rank(one).cmp(&rank(other)),
    }
}

fn compare_hosts(one: &Host, other: &Host) -> Ordering
    ensures { result ≡ kinds.host_cmp one.now other.now }
{
    match (one, other) {
        (Host::Domain(one), Host::Domain(other)) => one.cmp(other),
        (Host::Address(one), Host::Address(other)) => one.cmp(other),
        (Host::Domain(_), Host::Address(_)) => Ordering::Less,
        (Host::Address(_), Host::Domain(_)) => Ordering::Greater,
    }
}

/// The order of two paths: that of their texts, so that those that begin with the same pieces stand together.
pub fn compare_paths(one: &Path, other: &Path) -> Ordering
    ensures value { result ≡ kinds.path_cmp one.now other.now }
    ensures text { result ≡ kinds.text_cmp (front_text one.now) (front_text other.now) }
{
    one.as_front().cmp(other.as_front())
}

fn compare_digests(one: &Digest, other: &Digest) -> Ordering
    ensures { result ≡ kinds.by_kind (DigestIs one.now) (DigestIs other.now) }
{
    match (one, other) {
        (Digest::Sha256(one), Digest::Sha256(other)) => one.as_slice().cmp(other.as_slice()),
        (Digest::Sha384(one), Digest::Sha384(other)) => one.as_slice().cmp(other.as_slice()),
        (Digest::Sha512(one), Digest::Sha512(other)) => one.as_slice().cmp(other.as_slice()),
        _ => digest_rank(one).cmp(&digest_rank(other)),
    }
}

fn digest_rank(digest: &Digest) -> u8
    ensures { result ≡ spec.algorithm_rank (algorithm_of digest.now) }
{
    match digest {
        Digest::Sha256(_) => 0,
        Digest::Sha384(_) => 1,
        Digest::Sha512(_) => 2,
    }
}

fn algorithm_rank(algorithm: Algorithm) -> u8
    ensures { result ≡ spec.algorithm_rank algorithm }
{
    match algorithm {
        Algorithm::Sha256 => 0,
        Algorithm::Sha384 => 1,
        Algorithm::Sha512 => 2,
    }
}

// The place of an atom's kind in the order, from 0 to 10.
fn rank(atom: &Atom) -> u8
    ensures { result ≡ spec.rank atom.now }
{
    match atom {
        Atom::HostIs(_) => 0,
        Atom::HostUnder(_) => 1,
        Atom::HostDomain => 2,
        Atom::PortIs(_) => 3,
        Atom::PathIs(_) => 4,
        Atom::PathUnder(_) => 5,
        Atom::SchemeIs(_) => 6,
        Atom::NonceIs(_) => 7,
        Atom::IntegrityHas(_) => 8,
        Atom::IntegrityOutside => 9,
        Atom::DigestIs(_) => 10,
    }
}
