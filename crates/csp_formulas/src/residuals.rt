//! What is left of a formula in a cell.
ghost use Rattle.std.specs.Prelude.{◌≡◌, ◌↔◌, [], All, Bool, Contains, IfOk, IsTrue, List as Items, None, Some, map};
ghost use Rattle.std.specs.List.{list_all};
ghost use Rattle.csp_facts.specs.Follows.{decided};
ghost use Rattle.csp_facts.specs.declared.atom.Atom.{Atom as AtomValue};
ghost use Rattle.csp_facts.specs.declared.atom.Literal.{Literal as LiteralValue};
ghost use Rattle.csp_cell.specs.Cells.{Meets};
ghost use Rattle.csp_formulas.specs.Residuals.{IsDenied, IsLeft, KeepsValues, has_no_constant, joined_by};
ghost use Rattle.csp_formulas.specs.Formulas.{sentence_of};
ghost use Rattle.csp_formula.specs.Surely.{surely};
ghost use Rattle.csp_formula.specs.Values.{atoms_in, is_true_for};
ghost use Rattle.csp_model.specs.declared.check.Check.{Check as CheckValue};
ghost use Rattle.csp_model.specs.declared.source.Hash.{Hash as HashValue};

use crate::formula::Formula;
use csp_cell::Cell;
use csp_model::{Duplicate, Memory};
use std::alloc::Global;

/// The formula that is left where the literals of a cell are true.
pub fn residual(alloc: Global, formula: &Formula, cell: &Cell) -> Result<Formula, Memory>
    ensures constant_where_sure { IfOk result (λ left. (known : Bool) → (left ≡ Formula.Constant known)
        ↔ (surely cell.now.literals (sentence_of formula.now) ≡ Some known)) }
    ensures no_constant_elsewhere { IfOk result (λ left.
        surely cell.now.literals (sentence_of formula.now) ≡ None → IsTrue (has_no_constant left)) }
    ensures undecided { IfOk result (λ left.
        All (λ (atom : AtomValue). decided cell.now.literals atom ≡ None) (atoms_in (sentence_of left))) }
    ensures value { IfOk result (λ left. (hashes : Items HashValue) (asked : CheckValue)
        → Meets hashes asked cell.now.literals → is_true_for hashes asked (sentence_of left)
        ≡ is_true_for hashes asked (sentence_of formula.now)) }
    ensures atoms { IfOk result (λ left. (atom : AtomValue) → Contains (atoms_in (sentence_of left)) atom
        → Contains (atoms_in (sentence_of formula.now)) atom) }
    ensures further { IfOk result (λ left. (literals : Items LiteralValue)
        → KeepsValues (decided cell.now.literals) (decided literals) (atoms_in (sentence_of formula.now))
        → surely literals (sentence_of left) ≡ surely literals (sentence_of formula.now)) }
{
    left_of(alloc, formula, cell)
}

#[cycle(left)]
fn left_of(alloc: Global, formula: &Formula, cell: &Cell) -> Result<Formula, Memory>
    ensures { IfOk result (IsLeft cell.now.literals (sentence_of formula.now)) }
{
    match formula {
        Formula::Constant(known) => Ok(Formula::Constant(*known)),
        Formula::Fact(atom) => match cell.value(atom) {
            Some(known) => Ok(Formula::Constant(known)),
            None => Ok(Formula::Fact(atom.copy(alloc)?)),
        },
        Formula::Not(part) => negate(alloc, left_of(alloc, part, cell)?),
        Formula::Every(parts) => left_of_parts(alloc, parts, cell, true),
        Formula::OneOf(parts) => left_of_parts(alloc, parts, cell, false),
    }
}

// The and of what is left of each part, or the or. A part that is surely true, or surely false, makes no
// difference or decides all.
#[cycle(left)]
fn left_of_parts(
    alloc: Global,
    parts: &[Formula],
    cell: &Cell,
    every: bool,
) -> Result<Formula, Memory>
    ensures { IfOk result (IsLeft cell.now.literals (joined_by every (map sentence_of parts.now))) }
{
    let mut left = Vec::new(alloc);
    for part in parts {
        match left_of(alloc, part, cell)? {
            Formula::Constant(known) => {
                if known != every {
                    return Ok(Formula::Constant(known));
                }
            }
            rest => left.push(rest)?,
        }
    }
    Ok(join(left, every))
}

// The and of these parts, or the or.
fn join(parts: Vec<Formula>, every: bool) -> Formula
    ensures says { sentence_of result ≡ joined_by every (map sentence_of parts.items) }
    ensures nothing { parts.items ≡ [] → result ≡ Formula.Constant every }
    ensures some { (parts.items ≡ [] → ⊥)
        → has_no_constant result ≡ list_all has_no_constant parts.items }
{
    if parts.is_empty() {
        Formula::Constant(every)
    } else if every {
        Formula::Every(parts)
    } else {
        Formula::OneOf(parts)
    }
}

fn negate(alloc: Global, left: Formula) -> Result<Formula, Memory>
    ensures { IfOk result (IsDenied left) }
{
    match left {
        Formula::Constant(known) => Ok(Formula::Constant(!known)),
        part => Ok(Formula::Not(Box::new(alloc, part)?)),
    }
}
