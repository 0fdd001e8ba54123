//! A cell, what an atom narrows it to, and the two that the atom splits it into.
ghost use Rattle.std.specs.Prelude.{◌≡◌, ◌↔◌, ◌≤◌, [], ◌∷◌, ◌++◌, length, All, Any, AllPairs, IfOk, OnOk, MatchOption, List as Items, None, Some, true, false, not, filter};
ghost use Rattle.csp_facts.specs.Atoms.{BelongsTo, Holds, IsValidAtom};
ghost use Rattle.csp_facts.specs.Follows.{follows, decided};
ghost use Rattle.csp_facts.specs.declared.atom.Atom.{Atom as AtomValue};
ghost use Rattle.csp_cell.specs.Cells.{IsCell, IsOf, Meets, StandTogether, Takes, places};
ghost use Rattle.csp_cell.specs.Inside.{Adds};
ghost use Rattle.csp_model.specs.declared.check.Check.{Check as CheckValue};
ghost use Rattle.csp_model.specs.declared.source.Hash.{Hash as HashValue};
ghost use Rattle.csp_facts.specs.Shapes.{looks_at};

use crate::implies::{first_decided, keep_needed};
use csp_facts::order::compare;
use csp_facts::{Atom, Literal, Shape};
use csp_model::{Duplicate, Memory};
use std::alloc::Global;
use std::marker::Model;

/// The checks of one shape of which each of some literals is true. No literal refutes another, and none
/// decides all that another decides.
#[derive(Debug, Drop)]
pub struct Cell {
    alloc: Global,
    shape: Shape,
    placing: Vec<Literal>,
    others: Vec<Literal>,
}

impl Model for Cell {
    ghost use Rattle.csp_cell.specs.Cells.{Region};
    ghost use Rattle.csp_cell.specs.Inside.{IsMade, region_of};

    ghost Value = { Region };

    ghost view = { region_of };

    ghost invariant = { IsMade };
}

impl Cell {
    /// The cell of all checks of a shape.
    pub fn new(alloc: Global, shape: Shape) -> Cell
        ensures { result ≡ record { shape = shape; literals = [] } }
    {
        Cell {
            alloc,
            shape,
            placing: Vec::new(alloc),
            others: Vec::new(alloc),
        }
    }

    /// The shape of the cell's checks.
    pub fn shape(&self) -> Shape
        ensures shape { result ≡ self.now.shape }
        ensures each { All (IsOf result) self.now.literals }
        ensures together { AllPairs StandTogether self.now.literals }
    {
        self.shape
    }

    /// The positive literals, but for those on integrity metadata. There is at most one on the host, on the
    /// port, on the path, on the scheme of a URL without a host, on the nonce and on the digest of each
    /// algorithm.
    pub fn placing(&self) -> &[Literal]
        ensures cell { IsCell self.now }
        ensures placing { result.now ≡ filter places self.now.literals }
    {
        &self.placing
    }

    /// The denials, and the literals on integrity metadata.
    pub fn others(&self) -> &[Literal]
        ensures cell { IsCell self.now }
        ensures others { result.now ≡ filter (λ literal. not (places literal)) self.now.literals }
    {
        &self.others
    }

    /// The value that the atom has for each check of the cell, where a literal of the cell decides it.
    pub fn value(&self, atom: &Atom) -> Option<bool>
        ensures first { result ≡ decided self.now.literals atom.now }
        ensures some { MatchOption result
            (All (λ literal. follows literal atom.now ≡ None) self.now.literals)
            (λ value. Any (λ literal. follows literal atom.now ≡ Some value) self.now.literals) }
    {
        match first_decided(&self.placing, atom) {
            Some(value) => Some(value),
            None => first_decided(&self.others, atom),
        }
    }

    /// The cell of its checks that have the fact, or, where `positive` is false, of those that don't. It
    /// keeps those of the old literals, as they stand, that the new one doesn't make needless. Only the atom
    /// is copied.
    pub fn narrow(mut self, atom: &Atom, positive: bool) -> Result<Cell, Memory>
        requires undecided { decided self.literals atom.now ≡ None }
        requires valid { IsValidAtom atom.now }
        requires belongs { BelongsTo (looks_at self.shape) atom.now }
        ensures shape { IfOk result (λ cell. cell.shape ≡ self.shape) }
        ensures takes { IfOk result (λ cell.
            Takes self.literals (record { atom = atom.now; positive = positive }) cell.literals) }
        ensures decides { IfOk result (λ cell. (asked : AtomValue) → decided cell.literals asked
            ≡ decided (self.literals ++ record { atom = atom.now; positive = positive } ∷ []) asked) }
        ensures meets_positive { IfOk result (λ cell. (hashes : Items HashValue) (asked : CheckValue)
            → positive ≡ true → (Meets hashes asked cell.literals
            ↔ (Meets hashes asked self.literals × Holds hashes asked atom.now))) }
        ensures meets_negative { IfOk result (λ cell. (hashes : Items HashValue) (asked : CheckValue)
            → positive ≡ false → (Meets hashes asked cell.literals
            ↔ (Meets hashes asked self.literals × ¬ Holds hashes asked atom.now))) }
    {
        let literal = Literal {
            atom: atom.copy(self.alloc)?,
            positive,
        };
        keep_needed(&mut self.placing, &literal);
        keep_needed(&mut self.others, &literal);
        add(&mut self.placing, &mut self.others, literal)?;
        Ok(self)
    }

    /// The cell of its checks that have the fact, and that of those that don't. Of the old literals each new
    /// cell has those that its own new one doesn't make needless.
    pub fn split(&self, atom: &Atom) -> Result<(Cell, Cell), Memory>
        requires undecided { decided self.now.literals atom.now ≡ None }
        requires valid { IsValidAtom atom.now }
        requires belongs { BelongsTo (looks_at self.now.shape) atom.now }
        ensures shape { IfOk result (λ cells.
            (cells.0.shape ≡ self.now.shape) × (cells.1.shape ≡ self.now.shape)) }
        ensures first { IfOk result (λ cells.
            Takes self.now.literals (record { atom = atom.now; positive = true }) cells.0.literals) }
        ensures second { IfOk result (λ cells.
            Takes self.now.literals (record { atom = atom.now; positive = false }) cells.1.literals) }
        ensures first_decides { IfOk result (λ cells. (asked : AtomValue) → decided cells.0.literals asked
            ≡ decided (self.now.literals ++ record { atom = atom.now; positive = true } ∷ []) asked) }
        ensures second_decides { IfOk result (λ cells. (asked : AtomValue) → decided cells.1.literals asked
            ≡ decided (self.now.literals ++ record { atom = atom.now; positive = false } ∷ []) asked) }
        ensures first_meets { IfOk result (λ cells. (hashes : Items HashValue) (asked : CheckValue)
            → (Meets hashes asked cells.0.literals
            ↔ (Meets hashes asked self.now.literals × Holds hashes asked atom.now))) }
        ensures second_meets { IfOk result (λ cells. (hashes : Items HashValue) (asked : CheckValue)
            → (Meets hashes asked cells.1.literals
            ↔ (Meets hashes asked self.now.literals × ¬ Holds hashes asked atom.now))) }
    {
        let first = self.copy()?.narrow(atom, true)?;
        let second = self.copy()?.narrow(atom, false)?;
        Ok((first, second))
    }

    // A cell of the same literals.
    fn copy(&self) -> Result<Cell, Memory>
        ensures { IfOk result (λ cell. cell ≡ self.now) }
    {
        Ok(Cell {
            alloc: self.alloc,
            shape: self.shape,
            placing: copies(self.alloc, &self.placing)?,
            others: copies(self.alloc, &self.others)?,
        })
    }
}

// Copies of the literals.
fn copies(alloc: Global, literals: &[Literal]) -> Result<Vec<Literal>, Memory>
    ensures { IfOk result (λ made. made.items ≡ literals.now) }
{
    let mut made = Vec::new(alloc);
    for literal in literals {
        made.push(literal.copy(alloc)?)?;
    }
    Ok(made)
}

// Adds the literal to the part that is its own.
fn add(
    placing: &mut Vec<Literal>,
    others: &mut Vec<Literal>,
    literal: Literal,
) -> Result<(), Memory>
    ensures { OnOk result
        (Adds placing.old.items others.old.items literal placing.new.items others.new.items) }
{
    if is_placing(&literal) {
        placing.push(literal)?;
    } else {
        let place = place_for(others, &literal.atom);
        others.insert(place, literal)?;
    }
    Ok(())
}

// Where the literals of lower atoms end. The hashes that a check is given stand in this order.
fn place_for(literals: &[Literal], atom: &Atom) -> usize
    ensures { result ≤ length literals.now }
{
    literals.partition_point(|literal| compare(&literal.atom, atom).is_lt())
}

// Whether the literal says what one part of a check is, or within what it lies.
fn is_placing(literal: &Literal) -> bool
    ensures { result ≡ places literal.now }
{
    literal.positive && !matches!(literal.atom, Atom::IntegrityHas(_) | Atom::IntegrityOutside)
}
