//! Atoms in the order of names, each once.
ghost use Rattle.std.specs.Prelude.{All, IfOk};
ghost use Rattle.std.specs.List.{Contains};
ghost use Rattle.csp_branch.specs.Sorting.{Rise};

use crate::order::compare_names;
use csp_facts::Atom;
use csp_model::{List, Memory};

// Sorts atoms, and leaves each once.
pub(crate) fn sort_atoms(given: List<Atom>) -> Result<List<Atom>, Memory>
    ensures rises { IfOk result Rise }
    ensures each { IfOk result (λ made. All (Contains made) given) }
    ensures only { IfOk result (λ made. All (Contains given) made) }
{
    let mut atoms = given.into_vec();
    atoms.sort_by(|one, other| compare_names(one, other))?;
    atoms.dedup_by(|one, other| compare_names(one, other).is_eq());
    Ok(List::from_vec(atoms))
}
