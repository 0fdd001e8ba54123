//! The atoms that two lists of policies speak of, one after another.
ghost use Rattle.std.specs.Prelude.{◌≡◌, ◌++◌, IfOk, OnOk};
ghost use Rattle.std.specs.List.{flat_map};
ghost use Rattle.std.specs.Option.{option_to_list};
ghost use Rattle.csp_branch.specs.Sorting.{referred};
ghost use Rattle.csp_answer.specs.Naming as spec;

use crate::source::{lead_atom, own_port, port_atom, rest_atom};
use csp_facts::{Atom, Vocabulary};
use csp_model::{Duplicate, Hash, List, Memory, Origin, Policy, PolicyList, Scheme, Source};
use std::alloc::Global;

// Collects the atoms of a vocabulary and of two lists of policies, and these others.
pub(crate) fn collect(
    alloc: Global,
    vocabulary: &Vocabulary,
    first: &PolicyList,
    second: &PolicyList,
    others: &[&Atom],
) -> Result<List<Atom>, Memory>
    ensures { IfOk result (λ made. made ≡ spec.all_atoms vocabulary.now.hashes first.now.policies
        second.now.policies (referred others.now)) }
{
    let mut atoms = List::new(alloc);
    add_pairs(alloc, vocabulary.hashes.as_slice(), &mut atoms)?;
    add_policies(alloc, first.policies.as_slice(), &mut atoms)?;
    add_policies(alloc, second.policies.as_slice(), &mut atoms)?;
    add_others(alloc, others, &mut atoms)?;
    Ok(atoms)
}

// Adds the pairs of integrity metadata of a vocabulary, and the atom that there is another.
fn add_pairs(alloc: Global, hashes: &[Hash], atoms: &mut List<Atom>) -> Result<(), Memory>
    ensures { OnOk result (atoms.new ≡ atoms.old ++ spec.pair_atoms hashes.now) }
{
    atoms.push(Atom::IntegrityOutside)?;
    for hash in hashes {
        atoms.push(Atom::IntegrityHas(hash.copy(alloc)?))?;
    }
    Ok(())
}

fn add_policies(alloc: Global, policies: &[Policy], atoms: &mut List<Atom>) -> Result<(), Memory>
    ensures { OnOk result (atoms.new ≡ atoms.old ++ flat_map spec.policy_atoms policies.now) }
{
    for policy in policies {
        add_ports(&policy.origin, atoms)?;
        add_directives(alloc, policy, atoms)?;
    }
    Ok(())
}

// Adds the ports that a policy of this origin may ask for without naming them. That of ws is that of http, and
// that of wss that of https.
fn add_ports(origin: &Origin, atoms: &mut List<Atom>) -> Result<(), Memory>
    ensures { OnOk result (atoms.new ≡ atoms.old ++ spec.port_atoms origin.now) }
{
    atoms.push(Atom::PortIs(Scheme::Http.default_port()))?;
    atoms.push(Atom::PortIs(Scheme::Https.default_port()))?;
    atoms.push(Atom::PortIs(Scheme::Ftp.default_port()))?;
    add_some(own_port(origin), atoms)
}

fn add_directives(alloc: Global, policy: &Policy, atoms: &mut List<Atom>) -> Result<(), Memory>
    ensures { OnOk result (atoms.new
        ≡ atoms.old ++ flat_map (spec.directive_atoms policy.now.origin) policy.now.directives) }
{
    for directive in policy.directives.as_slice() {
        add_sources(alloc, &policy.origin, directive.sources.as_slice(), atoms)?;
    }
    Ok(())
}

// Adds the atoms of sources of a policy of this origin.
fn add_sources(
    alloc: Global,
    origin: &Origin,
    sources: &[Source],
    atoms: &mut List<Atom>,
) -> Result<(), Memory>
    ensures { OnOk result (atoms.new ≡ atoms.old ++ flat_map (spec.source_atoms origin.now) sources.now) }
{
    for source in sources {
        add_some(port_atom(source), atoms)?;
        add_some(lead_atom(alloc, origin, source)?, atoms)?;
        add_some(rest_atom(alloc, source)?, atoms)?;
    }
    Ok(())
}

fn add_others(alloc: Global, others: &[&Atom], atoms: &mut List<Atom>) -> Result<(), Memory>
    ensures { OnOk result (atoms.new ≡ atoms.old ++ referred others.now) }
{
    for other in others {
        atoms.push((*other).copy(alloc)?)?;
    }
    Ok(())
}

// Adds an atom where there is one.
fn add_some(atom: Option<Atom>, atoms: &mut List<Atom>) -> Result<(), Memory>
    ensures { OnOk result (atoms.new ≡ atoms.old ++ option_to_list atom) }
{
    if let Some(atom) = atom {
        atoms.push(atom)?;
    }
    Ok(())
}
