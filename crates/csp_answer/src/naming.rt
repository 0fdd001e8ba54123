//! The names of the atoms that a policy's sources speak of.
ghost use Rattle.std.specs.Prelude.{◌≡◌, All, Contains, IfOk, IfSome, Some, slice_get};
ghost use Rattle.std.specs.List.{AllZip, flat_map};
ghost use Rattle.csp_answer.specs.Naming as spec;

use crate::source::{lead_atom, rest_atom};
use csp_branch::Names;
use csp_facts::Atom;
use csp_model::{Duplicate, Hash, List, Memory, Origin, Policy, Source};
use std::alloc::Global;

// The names of the atoms of a source, where it has them.
#[derive(Clone, Copy)]
pub(crate) struct SourceNames {
    pub(crate) lead: Option<usize>,
    pub(crate) rest: Option<usize>,
}

// A policy, with the names of the sources of each directive.
#[derive(Drop)]
pub(crate) struct NamedPolicy<'p> {
    pub(crate) policy: &'p Policy,
    pub(crate) directives: List<List<SourceNames>>,
}

// The name of the atom that there is a pair of integrity metadata outside the vocabulary, and those of the
// vocabulary's pairs, in its order.
#[derive(Drop)]
pub(crate) struct PairNames {
    pub(crate) outside: usize,
    pub(crate) pairs: Vec<usize>,
}

impl NamedPolicy<'_> {
    pub(crate) fn new<'p>(
        alloc: Global,
        names: &Names,
        policy: &'p Policy,
    ) -> Result<NamedPolicy<'p>, Memory>
        requires { All (Contains names.now) (spec.policy_atoms policy.now) }
        ensures policy { IfOk result (λ made. made.policy.now ≡ policy.now) }
        ensures named { IfOk result (spec.IsNamed names.now) }
    {
        let mut directives = List::new(alloc);
        for directive in policy.directives.as_slice() {
            let sources = directive.sources.as_slice();
            directives.push(names_of_sources(alloc, names, &policy.origin, sources)?)?;
        }
        Ok(NamedPolicy { policy, directives })
    }
}

impl PairNames {
    pub(crate) fn new(alloc: Global, names: &Names, hashes: &[Hash]) -> Result<PairNames, Memory>
        requires { All (Contains names.now) (spec.pair_atoms hashes.now) }
        ensures { IfOk result (spec.ArePairs names.now hashes.now) }
    {
        let mut pairs = Vec::with_capacity(alloc, hashes.len())?;
        for hash in hashes {
            let pair = Atom::IntegrityHas(hash.copy(alloc)?);
            pairs.push(name_of(names, &pair))?;
        }
        Ok(PairNames {
            outside: name_of(names, &Atom::IntegrityOutside),
            pairs,
        })
    }
}

// The names of sources of a policy of this origin.
fn names_of_sources(
    alloc: Global,
    names: &Names,
    origin: &Origin,
    sources: &[Source],
) -> Result<List<SourceNames>, Memory>
    requires { All (Contains names.now) (flat_map (spec.source_atoms origin.now) sources.now) }
    ensures { IfOk result (AllZip (spec.IsSourceNamed names.now origin.now) sources.now) }
{
    let mut named = List::new(alloc);
    for source in sources {
        let lead = lead_atom(alloc, origin, source)?;
        let rest = rest_atom(alloc, source)?;
        named.push(SourceNames {
            lead: name_of_some(names, &lead),
            rest: name_of_some(names, &rest),
        })?;
    }
    Ok(named)
}

// The name of an atom, where there is one.
fn name_of_some(names: &Names, atom: &Option<Atom>) -> Option<usize>
    requires { IfSome atom.now (Contains names.now) }
    ensures { spec.IsNameOf names.now atom.now result }
{
    match atom {
        Some(atom) => Some(name_of(names, atom)),
        None => None,
    }
}

fn name_of(names: &Names, atom: &Atom) -> usize
    requires { Contains names.now atom.now }
    ensures { slice_get names.now result ≡ Some atom.now }
{
    match names.find(atom) {
        Some(name) => name,
        None => unreachable!(),
    }
}
