//! Whether a cell may take an atom, and whether a check of it may be asked for.
ghost use Rattle.std.specs.Prelude.{◌≡◌, ◌↔◌, IsTrue, filter, length};
ghost use Rattle.csp_facts.specs.Vocabulary.{IsOfVocabulary};
ghost use Rattle.csp_pick.specs.Picks as spec;
ghost use Rattle.csp_facts.specs.Shapes as shapes;

use csp_cell::Cell;
use csp_facts::{Atom, Literal, Shape, Vocabulary};
use csp_model::{CheckPart, Scheme};

// As many ports as two lists of policies can name.
const PORT_LIMIT: usize = 2048;

// Whether an answer on the shape's checks can depend on the part: they have it, and a path is compared.
pub(crate) fn looks_at(shape: Shape, part: CheckPart) -> bool
    ensures { result ≡ shapes.looks_at shape part }
{
    checks_have(shape, part) && (!matches!(part, CheckPart::Path) || compares_paths(shape))
}

// Whether the shape's checks have the part.
fn checks_have(shape: Shape, part: CheckPart) -> bool
    ensures { result ≡ shapes.checks_have shape part }
{
    match (shape, part) {
        (Shape::Fetch { .. }, CheckPart::Nonce | CheckPart::Integrity) => true,
        (
            Shape::Fetch { scheme, .. }
            | Shape::Form { scheme, .. }
            | Shape::Base { scheme }
            | Shape::Ancestor { scheme },
            part,
        ) => is_url_part(scheme, part),
        (Shape::Inline { .. }, CheckPart::Nonce | CheckPart::Digest(_)) => true,
        _ => false,
    }
}

// Whether the paths of its checks are compared.
fn compares_paths(shape: Shape) -> bool
    ensures { result ≡ shapes.compares_paths shape }
{
    match shape {
        Shape::Fetch { redirected, .. } | Shape::Form { redirected, .. } => !redirected,
        Shape::Base { .. } => true,
        _ => false,
    }
}

// Whether the part is one of a URL of this scheme.
fn is_url_part(scheme: Option<Scheme>, part: CheckPart) -> bool
    ensures { result ≡ shapes.is_url_part scheme part }
{
    match part {
        CheckPart::Host | CheckPart::Port | CheckPart::Path => scheme.is_some(),
        CheckPart::PlainScheme => scheme.is_none(),
        _ => false,
    }
}

// Whether `representative` may be asked for a check of the cell: the vocabulary has the hashes that the
// cell's literals speak of, and no more ports are denied than two lists of policies can name.
pub(crate) fn can_pick(cell: &Cell, vocabulary: &Vocabulary) -> bool
    ensures { IsTrue result ↔ (spec.AreOfVocabulary vocabulary.now.hashes cell.now.literals
        × spec.LeavesPorts cell.now.literals) }
{
    can_pick_among(cell.placing(), cell.others(), vocabulary)
}

// The same of the literals of a cell, in two parts.
fn can_pick_among(placing: &[Literal], others: &[Literal], vocabulary: &Vocabulary) -> bool
    ensures { IsTrue result ↔ (spec.AreOfVocabulary vocabulary.now.hashes placing.now
        × spec.AreOfVocabulary vocabulary.now.hashes others.now × spec.LeavesPorts others.now) }
{
    are_known(placing, vocabulary)
        && are_known(others, vocabulary)
        && denied_ports(others) <= PORT_LIMIT
}

fn is_known(atom: &Atom, vocabulary: &Vocabulary) -> bool
    ensures { IsTrue result ↔ IsOfVocabulary vocabulary.now.hashes atom.now }
{
    match atom {
        Atom::IntegrityHas(hash) => vocabulary.hashes.as_slice().contains(hash),
        _ => true,
    }
}

fn are_known(literals: &[Literal], vocabulary: &Vocabulary) -> bool
    ensures { IsTrue result ↔ spec.AreOfVocabulary vocabulary.now.hashes literals.now }
{
    literals
        .iter()
        .all(|literal| is_known(&literal.atom, vocabulary))
}

fn denies_port(literal: &Literal) -> bool
    ensures { result ≡ spec.denies_port literal.now }
{
    matches!(literal.atom, Atom::PortIs(_)) && !literal.positive
}

fn denied_ports(literals: &[Literal]) -> usize
    ensures { result ≡ length (filter spec.denies_port literals.now) }
{
    let mut count = 0;
    for literal in literals {
        if denies_port(literal) {
            count += 1;
        }
    }
    count
}
