//! A walker of trees: the literals that lead to where it stands, and the way back from there.
ghost use Rattle.std.specs.Prelude.{◌≡◌, ◌<◌, ◌≤◌, [], ◌∷◌, ◌++◌, length, true};
ghost use Rattle.std.specs.Prelude.{All, Contains, IfOk, MatchBool, MatchOption, map, take};
ghost use Rattle.csp_branch.specs.Paths.{literal_in, literal_of};
ghost use Rattle.csp_branch.specs.Walks as spec;
ghost use Rattle.csp_branch.specs.declared.branch.Change.{Change as ChangeValue};

use crate::branch::{Branch, Change};
use crate::laws::a_walk_keeps_the_changes_of_its_path;
use crate::named_literal::NamedLiteral;
use crate::names::Names;
use csp_facts::Atom;
use csp_model::Memory;
use std::alloc::Global;
use std::marker::Model;

/// It stands at one branch of a tree. The branches that wait are those of the literals that hold: for each of
/// them the branch where it doesn't. Once the walker is made no call takes memory.
#[derive(Drop)]
pub struct Walker {
    branch: Branch,
    // What each literal of the branch changed, the root's first.
    changes: Vec<Change>,
    // So many literals can be taken.
    room: usize,
}

impl Model for Walker {
    ghost use Rattle.std.specs.Prelude.{◌≤◌, length, vec_capacity};
    ghost use Rattle.csp_branch.specs.Changes.{AreChanges};
    ghost use Rattle.csp_branch.specs.Walks.{Position};

    ghost Value = { Position };

    ghost view = { λ w. record {
      atoms = w.branch.atoms;
      literals = w.branch.literals;
      room = w.room;
    } };

    ghost invariant = { λ w. AreChanges w.changes.items w.branch × (length w.changes.items ≤ w.room)
        × (w.room ≤ vec_capacity w.changes) };
}

impl Walker {
    /// A walker at a root, for trees by these names in which no path has more literals than there is room
    /// for.
    pub fn new(alloc: Global, names: Names, room: usize) -> Result<Walker, Memory>
        ensures { IfOk result (λ made. made ≡ record { atoms = names; literals = []; room = room }) }
    {
        a_walk_keeps_the_changes_of_its_path();
        Ok(Walker {
            branch: Branch::new(alloc, names)?,
            changes: Vec::with_capacity(alloc, room)?,
            room,
        })
    }

    /// The literals that lead to where it stands.
    pub fn branch(&self) -> &Branch
        ensures { result.now ≡ record { atoms = self.now.atoms; literals = self.now.literals } }
    {
        &self.branch
    }

    /// The literals that lead to where it stands, the root's first, each with what it changed.
    pub fn changes(&self) -> &[Change]
        ensures literals { map (λ (change : ChangeValue). literal_of self.now.atoms change.step) result.now
            ≡ self.now.literals }
        ensures named { All (λ (change : ChangeValue). change.step.name < length self.now.atoms) result.now }
    {
        &self.changes
    }

    /// How many literals lead to where it stands.
    pub fn depth(&self) -> usize
        ensures { result ≡ length self.now.literals }
    {
        self.changes.len()
    }

    /// Goes back to the root.
    pub fn go_to_root(&mut self)
        ensures { self.new ≡ spec.at_root self.old }
    {
        self.go_back_to(0);
    }

    /// Takes literals back until at most so many are left.
    pub fn go_back_to(&mut self, count: usize)
        ensures { self.new ≡ record self.old { literals = take count self.old.literals } }
    {
        while self.depth() > count {
            self.take_back();
        }
    }

    /// Goes on below a split, to the branch where its atom holds.
    pub fn split(&mut self, atom: &Atom)
        requires named { Contains self.old.atoms atom.now }
        requires room { length self.old.literals < self.old.room }
        ensures { self.new ≡ record self.old { literals = spec.with self.old.literals atom.now true } }
    {
        let name = self.branch.names().find(atom).unwrap();
        self.take(name, true);
    }

    /// Goes on to the next branch that waits, if there is one: takes back what is done, and turns the deepest
    /// literal that is positive.
    pub fn next_branch(&mut self) -> bool
        ensures branch { MatchBool result
            (self.new.literals ∷ spec.pending [] self.new.literals ≡ spec.pending [] self.old.literals)
            (spec.pending [] self.old.literals ≡ []) }
        ensures kept { spec.at_root self.new ≡ spec.at_root self.old }
        ensures shorter { length self.new.literals ≤ length self.old.literals }
    {
        while let Some(step) = self.take_back() {
            if step.positive {
                self.take(step.name, false);
                return true;
            }
        }
        false
    }

    /// Takes a literal by the name of its atom.
    pub fn take(&mut self, name: usize, positive: bool)
        requires named { name < length self.old.atoms }
        requires room { length self.old.literals < self.old.room }
        ensures { self.new ≡ record self.old {
          literals = self.old.literals ++ literal_in self.old.atoms name positive ∷ [];
        } }
    {
        a_walk_keeps_the_changes_of_its_path();
        let change = self.branch.take(name, positive);
        self.changes.push(change).unwrap();
    }

    /// Takes the last literal back, if there is one.
    pub fn take_back(&mut self) -> Option<NamedLiteral>
        ensures { MatchOption result
            ((self.old.literals ≡ []) × (self.new ≡ self.old))
            (λ last. (last.name < length self.new.atoms) × (length self.new.literals < self.new.room)
            × (self.old ≡ record self.new {
              literals = self.new.literals ++ literal_in self.new.atoms last.name last.positive ∷ [];
            })) }
    {
        a_walk_keeps_the_changes_of_its_path();
        let change = self.changes.pop()?;
        self.branch.take_back(change);
        Some(change.step)
    }
}
