//! Which literals another one makes needless.
ghost use Rattle.std.specs.Prelude.{◌≡◌, None};
ghost use Rattle.csp_facts.specs.Follows.{decided};
ghost use Rattle.csp_cell.specs.Cells as spec;

use csp_facts::{Atom, Literal, follows};

// Whether what the literal says makes the other true. Then it decides all that the other decides.
fn implies(literal: &Literal, other: &Literal) -> bool
    ensures { result ≡ spec.implies literal.now other.now }
{
    match follows(literal, &other.atom) {
        Some(value) => value == other.positive,
        None => false,
    }
}

// Leaves the literals that this one, which they don't decide, doesn't make needless.
pub(crate) fn keep_needed(literals: &mut Vec<Literal>, literal: &Literal)
    requires { decided literals.old.items literal.now.atom ≡ None }
    ensures { literals.new.items ≡ spec.needed_beside literal.now literals.old.items }
{
    if !decides_alone(literal) {
        literals.retain(|other| !implies(literal, other));
    }
}

// Whether the literal decides no atom but its own. Then it makes none needless that leaves it open.
fn decides_alone(literal: &Literal) -> bool
    ensures { result ≡ spec.decides_alone literal.now.atom literal.now.positive }
{
    match literal.atom {
        Atom::HostUnder(_) | Atom::HostDomain | Atom::PathUnder(_) => false,
        Atom::IntegrityHas(_) | Atom::IntegrityOutside => true,
        _ => !literal.positive,
    }
}

// What the first literal that decides the atom says.
pub(crate) fn first_decided(literals: &[Literal], atom: &Atom) -> Option<bool>
    ensures { result ≡ decided literals.now atom.now }
{
    for literal in literals {
        if let Some(value) = follows(literal, atom) {
            return Some(value);
        }
    }
    None
}
