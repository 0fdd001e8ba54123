//! What the literals from the root of a tree to a node decide.
ghost use Rattle.std.specs.Prelude.{◌≡◌, ◌<◌, [], ◌∷◌, ◌++◌, IfOk, IfSome, length};
ghost use Rattle.std.specs.List.{slice_index_or};
ghost use Rattle.csp_facts.specs.Follows.{decided};
ghost use Rattle.csp_facts.specs.declared.atom.Atom.{Atom as AtomValue};
ghost use Rattle.csp_branch.specs.Changes.{IsLast};
ghost use Rattle.csp_branch.specs.Numbers.{AreInOrder};
ghost use Rattle.csp_branch.specs.Paths.{literal_in};
ghost use Rattle.csp_branch.specs.Places.{IsPlace};

use crate::group::{group_count, group_of};
use crate::mark::{GroupState, Mark, known_of};
use crate::named_literal::NamedLiteral;
use crate::names::Names;
use crate::order::part_number;
use csp_model::{CheckPart, Memory, Trace};
use std::alloc::Global;
use std::marker::Model;

/// The literals from the root of a tree to a node, the root's first, by what they decide of each name.
///
/// A walk of a tree takes a literal on its way down and takes it back on its way up. Once the branch is made
/// no call takes memory. Asking and taking look at the names around a name, at most as far out as the
/// innermost one that holds; taking back looks at none.
#[derive(Drop)]
pub struct Branch {
    names: Names,
    groups: Vec<GroupState>,
    // Of each name whether it was denied while it was open.
    denied: Vec<bool>,
    path: Trace<NamedLiteral>,
}

impl Model for Branch {
    ghost use Rattle.csp_branch.specs.Marks.{AreMarks};
    ghost use Rattle.csp_branch.specs.Paths.{Path, path_of};

    ghost Value = { Path };

    ghost view = { λ v. path_of v.names v.path.items };

    ghost invariant = { λ v. AreMarks v.names v.path.items v.groups.items v.denied.items };
}

/// What a literal changed. The branch takes it back.
#[derive(Clone, Copy, Debug)]
pub struct Change {
    /// The literal.
    pub step: NamedLiteral,
    // What stood at its name before.
    was: Mark,
}

impl Branch {
    /// The branch at the root, where no literal is taken.
    pub fn new(alloc: Global, names: Names) -> Result<Branch, Memory>
        ensures { IfOk result (λ made. made ≡ record { atoms = names; literals = [] }) }
    {
        let group = GroupState {
            place: None,
            seal: None,
        };
        let groups = vec![in alloc; group; group_count(&names)]?;
        let denied = vec![in alloc; false; names.atoms().len()]?;
        Ok(Branch {
            names,
            groups,
            denied,
            path: Trace::new(),
        })
    }

    /// The names that the literals speak of.
    pub fn names(&self) -> &Names
        ensures names { result.now ≡ self.now.atoms }
        ensures order { AreInOrder self.now.atoms }
    {
        &self.names
    }

    /// The innermost name on a part whose atom was said to hold while it was open, if there is one: what is
    /// around it holds, and of what is apart from it nothing does. A check may have many pairs of integrity
    /// metadata, so there is none on that part.
    pub fn place(&self, part: CheckPart) -> Option<usize>
        ensures { IfSome result (IsPlace self.now part) }
    {
        match part {
            CheckPart::Integrity => None,
            _ => self.groups[part_number(part) as usize].place,
        }
    }

    /// What the literals decide of the atom of a name: what the first of them says that decides it.
    pub fn known(&self, asked: usize) -> Option<bool>
        requires { asked < length self.now.atoms }
        ensures { (d : AtomValue)
            → result ≡ decided self.now.literals (slice_index_or self.now.atoms asked d) }
    {
        let group = self.groups[group_of(&self.names, asked)];
        known_of(&self.names, group, &self.denied, asked)
    }

    /// Takes a literal: that the atom of a name holds, or that it doesn't. This may be known already, or the
    /// contrary may be known.
    pub fn take(&mut self, name: usize, positive: bool) -> Change
        requires { name < length self.old.atoms }
        ensures path { self.new ≡ record self.old {
          literals = self.old.literals ++ literal_in self.old.atoms name positive ∷ [];
        } }
        ensures step { result.step ≡ record { name = name; positive = positive } }
        ensures last { IsLast result self.new }
    {
        let number = group_of(&self.names, name);
        let was = Mark {
            group: self.groups[number],
            denied: self.denied[name],
        };
        let known = known_of(&self.names, was.group, &self.denied, name);
        let step = NamedLiteral { name, positive };
        let mark = was.after(known, step);
        self.groups[number] = mark.group;
        self.denied[name] = mark.denied;
        self.path = self.path.then(&step);
        Change { step, was }
    }

    /// Takes the last literal back: the branch is as before it. The change is what `take` answered, once all
    /// that was taken after that literal is taken back.
    pub fn take_back(&mut self, change: Change)
        requires { IsLast change self.old }
        ensures { self.old ≡ record self.new {
          literals = self.new.literals
              ++ literal_in self.new.atoms change.step.name change.step.positive ∷ [];
        } }
    {
        let name = change.step.name;
        let number = group_of(&self.names, name);
        self.groups[number] = change.was.group;
        self.denied[name] = change.was.denied;
        self.path = self.path.before();
    }
}
