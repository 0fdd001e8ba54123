//! Names of atoms.
ghost use Rattle.std.specs.Prelude.{◌≡◌, ◌<◌, ◌≤◌, ◌&&◌, ℕ, nat_le, nat_lt, All, IfOk, MatchOption, Some};
ghost use Rattle.std.specs.Prelude.{length, slice_get};
ghost use Rattle.std.specs.List.{Contains, slice_index_or};
ghost use Rattle.csp_facts.specs.Atoms.{IsValidAtom};
ghost use Rattle.csp_facts.specs.declared.atom.Atom.{Atom as AtomValue};
ghost use Rattle.csp_branch.specs.Numbers.{AreInOrder, IsOuterOr, around_in};
ghost use Rattle.csp_branch.specs.Order.{number_of};

use crate::order::{compare_names, part_number};
use crate::ranges::Ranges;
use crate::sorting::sort_atoms;
use csp_facts::Atom;
use csp_model::{List, Memory};
use std::alloc::Global;
use std::marker::Model;

/// Atoms on any parts of a check, each once. Those that an atom is around stand right behind it. An atom's
/// name is its number in this order, from 0.
#[derive(Drop)]
pub struct Names {
    ranges: Ranges,
    // For each name the innermost one around it, but for itself.
    outers: Vec<Option<usize>>,
}

impl Model for Names {
    ghost use Rattle.std.specs.Prelude.{List, length};
    ghost use Rattle.csp_facts.specs.declared.atom.Atom.{Atom};
    ghost use Rattle.csp_branch.specs.Numbers.{AreOutersTo};

    ghost Value = { List Atom };

    ghost view = { λ v. v.ranges };

    ghost invariant = { λ v. AreOutersTo v.ranges v.outers.items (length v.ranges) };
}

impl Names {
    /// Names valid atoms, which may stand in any order and more than once: those of two lists of policies, or
    /// also those of a proof.
    pub fn new(alloc: Global, atoms: List<Atom>) -> Result<Names, Memory>
        requires { All IsValidAtom atoms }
        ensures each { IfOk result (λ made. All (Contains made) atoms) }
        ensures only { IfOk result (λ made. All (Contains atoms) made) }
    {
        let sorted = sort_atoms(atoms)?;
        let ranges = Ranges::new(alloc, sorted)?;
        let outers = ranges.outers(alloc)?;
        Ok(Names { ranges, outers })
    }

    /// The atoms are in order, of which the laws speak. It does nothing.
    pub fn are_in_order(&self)
        ensures { AreInOrder self.now }
    {
        let _ = self.atoms();
    }

    /// The atoms, in the order of their names.
    pub fn atoms(&self) -> &[Atom]
        ensures atoms { result.now ≡ self.now }
        ensures order { AreInOrder self.now }
    {
        self.ranges.atoms()
    }

    /// The name of an atom, if it has one. Only as many texts are looked at as a binary search meets.
    pub fn find(&self, atom: &Atom) -> Option<usize>
        ensures { MatchOption result (¬ Contains self.now atom.now)
            (λ name. slice_get self.now name ≡ Some atom.now) }
    {
        let atoms = self.atoms();
        let name = atoms.partition_point(|named| compare_names(named, atom).is_lt());
        let found = atoms.get(name)?;
        if compare_names(found, atom).is_eq() {
            Some(name)
        } else {
            None
        }
    }

    /// Where the names of the parts begin whose number is not below this one.
    pub fn start(&self, part: u8) -> usize
        ensures inside { result ≤ length self.now }
        ensures before { (k : ℕ) (d : AtomValue) → k < result
            → number_of (slice_index_or self.now k d) < part }
        ensures from { (k : ℕ) (d : AtomValue) → result ≤ k → k < length self.now
            → part ≤ number_of (slice_index_or self.now k d) }
    {
        self.atoms()
            .partition_point(|atom| part_number(atom.part()) < part)
    }

    /// Whether the atom of the first name is around that of the second, or is the same. No, where a name
    /// isn't there.
    pub fn is_around(&self, outer: usize, inner: usize) -> bool
        ensures { result ≡ around_in self.now outer inner }
    {
        self.ranges.is_around(outer, inner)
    }

    /// Where the names end that a name is around: they begin with itself.
    pub fn end(&self, name: usize) -> usize
        requires { name < length self.now }
        ensures inside { result ≤ length self.now }
        ensures range { (k : ℕ) → around_in self.now name k ≡ (nat_le name k && nat_lt k result) }
    {
        self.ranges.end(name)
    }

    /// The innermost of the names around a name, but for itself.
    pub fn outer(&self, name: usize) -> Option<usize>
        requires { name < length self.now }
        ensures { IsOuterOr self.now name result }
    {
        self.outers[name]
    }
}
