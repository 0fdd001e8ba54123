//! Where the range of names that each atom is around ends.
ghost use Rattle.std.specs.Prelude.{◌≡◌, ◌<◌, ◌+◌, ◌≤◌, ◌&&◌, ℕ, nat_le, nat_lt, IfOk, length};
ghost use Rattle.csp_branch.specs.Around as around;
ghost use Rattle.csp_branch.specs.Numbers.{AreInOrder, AreEnds, AreEndsFrom, AreOutersTo, IsEnd, IsOuterOr};
ghost use Rattle.csp_branch.specs.Numbers.{around_in};

use csp_facts::{Atom, follows_as};
use csp_model::{List, Memory};
use std::alloc::Global;
use std::marker::Model;

// Atoms in the order of names.
#[derive(Drop)]
pub(crate) struct Ranges {
    atoms: List<Atom>,
    // For each name the end of the names that it is around.
    ends: Vec<usize>,
}

impl Model for Ranges {
    ghost use Rattle.std.specs.Prelude.{List};
    ghost use Rattle.csp_facts.specs.declared.atom.Atom.{Atom};
    ghost use Rattle.csp_branch.specs.Numbers.{AreInOrder, AreEnds};

    ghost Value = { List Atom };

    ghost view = { λ v. v.atoms };

    ghost invariant = { λ v. AreInOrder v.atoms × AreEnds v.atoms v.ends.items };
}

impl Ranges {
    pub(crate) fn new(alloc: Global, atoms: List<Atom>) -> Result<Ranges, Memory>
        requires { AreInOrder atoms }
        ensures { IfOk result (λ made. made ≡ atoms) }
    {
        let ends = ends_of(alloc, atoms.as_slice())?;
        Ok(Ranges { atoms, ends })
    }

    pub(crate) fn atoms(&self) -> &[Atom]
        ensures atoms { result.now ≡ self.now }
        ensures order { AreInOrder self.now }
    {
        self.atoms.as_slice()
    }

    // Where the names end that this one is around.
    pub(crate) fn end(&self, name: usize) -> usize
        requires { name < length self.now }
        ensures inside { result ≤ length self.now }
        ensures range { (k : ℕ) → around_in self.now name k ≡ (nat_le name k && nat_lt k result) }
    {
        self.ends[name]
    }

    // Whether the atom of the first name is around that of the second.
    pub(crate) fn is_around(&self, outer: usize, inner: usize) -> bool
        ensures { result ≡ around_in self.now outer inner }
    {
        if outer < self.atoms.len() {
            outer <= inner && inner < self.end(outer)
        } else {
            false
        }
    }

    // The innermost of the names around this one, but for itself: the name before it, or one around that.
    fn outer_of(&self, outers: &[Option<usize>], name: usize) -> Option<usize>
        requires name { name < length self.now }
        requires outers { AreOutersTo self.now outers.now name }
        ensures { IsOuterOr self.now name result }
    {
        let _ = &self.atoms;
        let mut next = name.checked_sub(1);
        while let Some(outer) = next {
            if self.is_around(outer, name) {
                return next;
            }
            next = outers[outer];
        }
        None
    }

    // For each name the innermost one around it, but for itself.
    pub(crate) fn outers(&self, alloc: Global) -> Result<Vec<Option<usize>>, Memory>
        ensures { IfOk result (λ made. AreOutersTo self.now made.items (length self.now)) }
    {
        let count = self.atoms.len();
        let mut outers = Vec::with_capacity(alloc, count)?;
        for name in 0..count {
            let outer = self.outer_of(&outers, name);
            outers.push(outer)?;
        }
        Ok(outers)
    }
}

// Whether each check that has the inner atom has the outer one.
fn is_around(outer: &Atom, inner: &Atom) -> bool
    ensures { result ≡ around.is_around outer.now inner.now }
{
    follows_as(outer, false, inner).is_some()
}

// For each atom the end of those that it is around. The last one's is found first: those under an atom are
// the ones right behind it, with what lies under them.
fn ends_of(alloc: Global, atoms: &[Atom]) -> Result<Vec<usize>, Memory>
    requires { AreInOrder atoms.now }
    ensures { IfOk result (λ made. AreEnds atoms.now made.items) }
{
    let mut ends = vec![in alloc; 0; atoms.len()]?;
    for number in (0..atoms.len()).rev() {
        let end = end_of(atoms, &ends, number);
        ends[number] = end;
    }
    Ok(ends)
}

fn end_of(atoms: &[Atom], ends: &[usize], number: usize) -> usize
    requires order { AreInOrder atoms.now }
    requires number { number < length atoms.now }
    requires ends { AreEndsFrom atoms.now ends.now (number + 1) }
    ensures { IsEnd atoms.now number result }
{
    let mut end = number + 1;
    while end < atoms.len() && is_around(&atoms[number], &atoms[end]) {
        end = ends[end];
    }
    end
}
