//! Integrity metadata.
ghost use Rattle.std.specs.Prelude.{◌≡◌, IfOk, All, Contains, option_copied};
ghost use Rattle.std.specs.List.{list_any};
ghost use Rattle.csp_model.specs.Validity.{IsIntegrityValue};
ghost use Rattle.csp_model.specs.declared.check.CheckPart.TheVariants as part;
ghost use Rattle.csp_model.specs.declared.source.Hash.{Hash as HashValue};
ghost use Rattle.csp_pick.specs.Pairs as spec;
ghost use Rattle.csp_pick.specs.Parts.{MeetPart, integrity_holds};
ghost use Rattle.csp_pick.specs.Picks.{AreOfVocabulary};

use crate::fresh::fresh_text;
use csp_cell::Cell;
use csp_facts::{Atom, Literal, Vocabulary};
use csp_model::{Algorithm, Duplicate, Hash, List, Memory};
use std::alloc::Global;

// Integrity metadata of which each literal on it is true: none, where they allow it.
pub(crate) fn pick_integrity(
    alloc: Global,
    cell: &Cell,
    vocabulary: &Vocabulary,
) -> Result<List<Hash>, Memory>
    requires { AreOfVocabulary vocabulary.now.hashes cell.now.literals }
    ensures valid { IfOk result (λ pairs. All (λ (h : HashValue). IsIntegrityValue h.value) pairs) }
    ensures meets { IfOk result (λ pairs.
        MeetPart part.Integrity (integrity_holds vocabulary.now.hashes pairs) cell.now.literals) }
{
    let mut pairs = said_pairs(alloc, cell.others())?;
    if any_outside(cell.others()) {
        pairs.push(fresh_pair(alloc, vocabulary.hashes.as_slice())?)?;
    }
    Ok(pairs)
}

// The pairs that literals say, in their order.
fn said_pairs(alloc: Global, literals: &[Literal]) -> Result<List<Hash>, Memory>
    ensures { IfOk result (λ pairs. pairs ≡ spec.pairs_in literals.now) }
{
    let mut pairs = List::new(alloc);
    for literal in literals {
        if let Some(hash) = said_pair(literal) {
            pairs.push(hash.copy(alloc)?)?;
        }
    }
    Ok(pairs)
}

fn said_pair(literal: &Literal) -> Option<&Hash>
    ensures { option_copied result ≡ spec.pair_of literal.now }
{
    match &literal.atom {
        Atom::IntegrityHas(hash) if literal.positive => Some(hash),
        _ => None,
    }
}

// Whether a literal says that a pair is outside of the vocabulary.
fn any_outside(literals: &[Literal]) -> bool
    ensures { result ≡ list_any spec.says_outside literals.now }
{
    literals.iter().any(|literal| says_outside(literal))
}

fn says_outside(literal: &Literal) -> bool
    ensures { result ≡ spec.says_outside literal.now }
{
    literal.positive && matches!(literal.atom, Atom::IntegrityOutside)
}

// A pair that is none of these: its value isn't theirs.
fn fresh_pair(alloc: Global, hashes: &[Hash]) -> Result<Hash, Memory>
    ensures valid { IfOk result (λ pair. IsIntegrityValue pair.value) }
    ensures fresh { IfOk result (λ pair. ¬ Contains hashes.now pair) }
{
    Ok(Hash {
        algorithm: Algorithm::Sha256,
        value: fresh_text(alloc, "other", "", hashes)?,
    })
}
