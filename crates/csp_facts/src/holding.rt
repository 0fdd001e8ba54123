//! Whether an atom holds for a check.
ghost use Rattle.std.specs.Prelude.{◌≡◌, ◌↔◌, [], IsTrue};
ghost use Rattle.csp_facts.specs.Atoms.{Holds};
ghost use Rattle.csp_facts.specs.Holding as spec;

use crate::atom::{Atom, Vocabulary};
use csp_model::{Check, Digest, Digests, Hash, List, Url};

/// Whether an atom holds for a check. A check without the part that the atom speaks of doesn't have the fact.
/// The vocabulary counts for `IntegrityOutside` alone.
pub fn holds(atom: &Atom, check: &Check, vocabulary: &Vocabulary) -> bool
    ensures value { result ≡ spec.holds vocabulary.now.hashes check.now atom.now }
    ensures fact { IsTrue result ↔ Holds vocabulary.now.hashes check.now atom.now }
{
    match atom {
        Atom::NonceIs(value) => check.nonce().is_some_and(|nonce| nonce == value),
        Atom::IntegrityHas(hash) => check
            .integrity()
            .is_some_and(|pairs| pairs.as_slice().contains(hash)),
        Atom::IntegrityOutside => check
            .integrity()
            .is_some_and(|pairs| has_other(&vocabulary.hashes, pairs)),
        Atom::DigestIs(digest) => check
            .digests()
            .is_some_and(|digests| has_digest(digests, digest)),
        _ => check.url().is_some_and(|url| holds_of_url(atom, url)),
    }
}

// Whether an atom holds for a check that has this URL and no other part, as one of a base URL. So an atom on
// another part doesn't.
fn holds_of_url(atom: &Atom, url: &Url) -> bool
    ensures { result ≡ spec.holds [] (Check.Base url.now) atom.now }
{
    match (atom, url) {
        (Atom::HostIs(known), Url::Hosted { host, .. }) => host == known,
        (Atom::HostUnder(suffix), Url::Hosted { host, .. }) => host.is_under(suffix.as_str()),
        (Atom::HostDomain, Url::Hosted { host, .. }) => host.is_domain(),
        (Atom::PortIs(number), Url::Hosted { scheme, port, .. }) => {
            port.unwrap_or(scheme.default_port()) == *number
        }
        (Atom::PathIs(known), Url::Hosted { path, .. }) => known == path,
        (Atom::PathUnder(front), Url::Hosted { path, .. }) => path.goes_beyond(front),
        (Atom::SchemeIs(known), Url::Plain { scheme }) => scheme == known,
        _ => false,
    }
}

// Whether a digest is among those of a text.
fn has_digest(digests: &Digests, digest: &Digest) -> bool
    ensures { result ≡ spec.has_digest digests.now digest.now }
{
    match digest {
        Digest::Sha256(bytes) => digests.sha256 == *bytes,
        Digest::Sha384(bytes) => digests.sha384 == *bytes,
        Digest::Sha512(bytes) => digests.sha512 == *bytes,
    }
}

// Whether some pair isn't among the hashes. These stand in no order, so each pair is looked for among all of
// them. That is fine, since a check has a handful of pairs.
fn has_other(hashes: &List<Hash>, pairs: &List<Hash>) -> bool
    ensures { result ≡ spec.has_other hashes.now pairs.now }
{
    pairs
        .as_slice()
        .iter()
        .any(|pair| !hashes.as_slice().contains(pair))
}
