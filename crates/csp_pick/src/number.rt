//! Numbers that no literal says of a part. Of one number more than there are literals, one is such a number.
ghost use Rattle.std.specs.Prelude.{◌≡◌, ◌≢◌, ◌↔◌, ◌≤◌, ◌+◌, All, Any, IsTrue, Some, filter_map, length, option_copied};
ghost use Rattle.csp_facts.specs.declared.atom.Literal.{Literal as LiteralValue};
ghost use Rattle.csp_pick.specs.Said as spec;

use csp_facts::{Atom, Literal};
use csp_model::{Algorithm, CheckPart, Digest};

// The first number from this one on that no literal says of the part.
pub(crate) fn free_number(first: u16, literals: &[Literal], part: CheckPart) -> u64
    ensures free { All (λ l. spec.number_of part l.atom ≢ Some result) literals.now }
    ensures bound { result ≤ first
        + length (filter_map (λ (l : LiteralValue). spec.number_of part l.atom) literals.now) }
{
    let first = u64::from(first);
    for number in first..first + literals.len() as u64 + 1 {
        if !is_said(literals, part, number) {
            return number;
        }
    }
    unreachable!()
}

fn is_said(literals: &[Literal], part: CheckPart, number: u64) -> bool
    ensures { IsTrue result ↔ Any (λ l. spec.number_of part l.atom ≡ Some number) literals.now }
{
    literals
        .iter()
        .any(|literal| number_of(&literal.atom, part) == Some(number))
}

// What an atom says of the part: a port, or the number with which a digest begins.
fn number_of(atom: &Atom, part: CheckPart) -> Option<u64>
    ensures { result ≡ spec.number_of part atom.now }
{
    match (part, atom) {
        (CheckPart::Port, Atom::PortIs(number)) => Some(u64::from(*number)),
        (CheckPart::Digest(algorithm), _) => digest_of(atom, algorithm).map(lead),
        _ => None,
    }
}

// The digest that an atom speaks of, where it is one of the algorithm.
pub(crate) fn digest_of(atom: &Atom, algorithm: Algorithm) -> Option<&[u8]>
    ensures { option_copied result ≡ spec.digest_of algorithm atom.now }
{
    match (algorithm, atom) {
        (Algorithm::Sha256, Atom::DigestIs(Digest::Sha256(bytes))) => Some(bytes.as_slice()),
        (Algorithm::Sha384, Atom::DigestIs(Digest::Sha384(bytes))) => Some(bytes.as_slice()),
        (Algorithm::Sha512, Atom::DigestIs(Digest::Sha512(bytes))) => Some(bytes.as_slice()),
        _ => None,
    }
}

// The number that the first eight bytes are, the highest first. Fewer bytes are 0.
fn lead(bytes: &[u8]) -> u64
    ensures { result ≡ spec.lead bytes.now }
{
    match bytes.first_chunk() {
        Some(front) => u64::from_be_bytes(*front),
        None => 0,
    }
}
