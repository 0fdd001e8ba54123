//! What literals decide of a formula.
ghost use Rattle.std.specs.Prelude.{◌≡◌, IfSome, List as Items};
ghost use Rattle.csp_model.specs.declared.check.Check.{Check as CheckValue};
ghost use Rattle.csp_model.specs.declared.source.Hash.{Hash as HashValue};
ghost use Rattle.csp_facts.specs.Follows as literals_say;
ghost use Rattle.csp_formulas.specs.Formulas.{sentence_of};
ghost use Rattle.csp_formula.specs.Surely as spec;
ghost use Rattle.csp_formula.specs.Values.{AreTrueOf, is_true_for};

use crate::formula::Formula;
use csp_facts::{Atom, Literal, follows};

/// The value of a formula where the literals decide it, which is its value on each check of which all of them
/// are true. A fact is decided by the first literal that says something of it. An and is surely false where a
/// part is, and surely true where all parts are; an or goes the other way round. Else there is None.
pub fn surely(formula: &Formula, literals: &[Literal]) -> Option<bool>
    ensures value { result ≡ spec.surely literals.now (sentence_of formula.now) }
    ensures sound { (hashes : Items HashValue) (asked : CheckValue) → AreTrueOf hashes asked literals.now
        → IfSome result (λ known. is_true_for hashes asked (sentence_of formula.now) ≡ known) }
{
    value_by(formula, literals)
}

#[tactic(auto, using(csp_formula::proofs::Maybe::maybe_and_assoc, csp_formula::proofs::Maybe::maybe_or_assoc))]
fn value_by(formula: &Formula, literals: &[Literal]) -> Option<bool>
    ensures { result ≡ spec.surely literals.now (sentence_of formula.now) }
{
    match formula {
        Formula::Constant(known) => Some(*known),
        Formula::Fact(atom) => decide_atom(literals, atom),
        Formula::Not(part) => match value_by(part, literals) {
            Some(known) => Some(!known),
            None => None,
        },
        Formula::Every(parts) => {
            let mut so_far = Some(true);
            'every: for part in parts {
                so_far = maybe_and(so_far, value_by(part, literals));
                if let Some(false) = so_far {
                    return Some(false);
                }
            }
            so_far
        }
        Formula::OneOf(parts) => {
            let mut so_far = Some(false);
            'one: for part in parts {
                so_far = maybe_or(so_far, value_by(part, literals));
                if let Some(true) = so_far {
                    return Some(true);
                }
            }
            so_far
        }
    }
}

// What the first literal that decides the atom says.
fn decide_atom(literals: &[Literal], atom: &Atom) -> Option<bool>
    ensures { result ≡ literals_say.decided literals.now atom.now }
{
    for literal in literals {
        let answer = follows(literal, atom);
        if answer.is_some() {
            return answer;
        }
    }
    None
}

fn maybe_and(one: Option<bool>, other: Option<bool>) -> Option<bool>
    ensures { result ≡ spec.maybe_and one other }
{
    match (one, other) {
        (Some(false), _) | (_, Some(false)) => Some(false),
        (Some(true), Some(true)) => Some(true),
        _ => None,
    }
}

fn maybe_or(one: Option<bool>, other: Option<bool>) -> Option<bool>
    ensures { result ≡ spec.maybe_or one other }
{
    match (one, other) {
        (Some(true), _) | (_, Some(true)) => Some(true),
        (Some(false), Some(false)) => Some(false),
        _ => None,
    }
}
