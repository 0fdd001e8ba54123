//! Makes what a checker walks with. All memory is taken here.
ghost use Rattle.std.specs.Prelude.{◌≡◌, ◌≤◌, ◌++◌, All, IfOk, OnOk, length, map};
ghost use Rattle.std.specs.List.{flat_map, list_all};
ghost use Rattle.csp_model.specs.Policies.{policy_limit};
ghost use Rattle.csp_branch.specs.Sorting.{referred};
ghost use Rattle.csp_proof.specs.declared.proof.Tree.{Tree as TreeValue};
ghost use Rattle.csp_checker.specs.PreparedClaim.{due, numbered};
ghost use Rattle.csp_checker.specs.Walk.{atoms_below, atoms_of, is_unmet, is_unmet_below};

use crate::prepared_claim::NumberedPair;
use csp_facts::Atom;
use csp_model::{Memory, PolicyList};
use csp_proof::{Body, Node, Tree};
use std::alloc::Global;

// The atoms of splits, and how many the tree has that has the most.
#[derive(Drop)]
pub(crate) struct Splits<'p> {
    pub(crate) atoms: Vec<&'p Atom>,
    pub(crate) most: usize,
}

// Adds the pairs of one shape.
fn push_pairs(pairs: &mut Vec<NumberedPair>, shape: u8, enforced: &[u32]) -> Result<(), Memory>
    ensures { OnOk result (pairs.new.items
        ≡ pairs.old.items ++ map (λ policy. record { shape = shape; policy = policy }) enforced.now) }
{
    for policy in enforced {
        pairs.push(NumberedPair {
            shape,
            policy: *policy,
        })?;
    }
    Ok(())
}

// All pairs that a proof has to show, by their numbers.
pub(crate) fn pairs_of(alloc: Global, second: &PolicyList) -> Result<Vec<NumberedPair>, Memory>
    requires { length second.now.policies ≤ policy_limit }
    ensures { IfOk result (λ made. made.items ≡ map numbered (due second.now)) }
{
    let enforced = second.enforced(alloc)?;
    let mut pairs = Vec::new(alloc);
    for shape in 0..189 {
        push_pairs(&mut pairs, shape, &enforced)?;
    }
    Ok(pairs)
}

fn is_unmet(node: &Node) -> bool
    ensures { result ≡ is_unmet node.now }
{
    match node {
        Node::Met => false,
        Node::Split { .. } | Node::Blocked { .. } => true,
    }
}

fn are_unmet(nodes: &[Node]) -> bool
    ensures { result ≡ list_all is_unmet nodes.now }
{
    nodes.iter().all(|node| is_unmet(node))
}

fn is_unmet_below(body: &Body) -> bool
    ensures { result ≡ is_unmet_below body.now }
{
    match body {
        Body::Nodes { nodes } => are_unmet(nodes.as_slice()),
        Body::Same { .. } => false,
    }
}

// For each tree whether it has nodes of its own, of which none is met.
pub(crate) fn unmet_of(alloc: Global, trees: &[Tree]) -> Result<Vec<bool>, Memory>
    ensures { IfOk result
        (λ made. made.items ≡ map (λ (tree : TreeValue). is_unmet_below tree.body) trees.now) }
{
    let mut unmet = Vec::with_capacity(alloc, trees.len())?;
    for tree in trees {
        unmet.push(is_unmet_below(&tree.body))?;
    }
    Ok(unmet)
}

// The atoms of the splits of all trees, and how many the tree has that has the most.
pub(crate) fn splits_of(alloc: Global, trees: &[Tree]) -> Result<Splits<'_>, Memory>
    ensures atoms { IfOk result (λ made. referred made.atoms.items
        ≡ flat_map (λ (tree : TreeValue). atoms_below tree.body) trees.now) }
    ensures most { IfOk result (λ made.
        All (λ (tree : TreeValue). length (atoms_below tree.body) ≤ made.most) trees.now) }
{
    let mut atoms = Vec::new(alloc);
    let mut most = 0;
    for tree in trees {
        let before = atoms.len();
        push_below(&mut atoms, &tree.body)?;
        most = greater(most, atoms.len() - before);
    }
    Ok(Splits { atoms, most })
}

fn greater(one: usize, other: usize) -> usize
    ensures first { one ≤ result }
    ensures second { other ≤ result }
{
    if one < other { other } else { one }
}

fn push_below<'p>(atoms: &mut Vec<&'p Atom>, body: &'p Body) -> Result<(), Memory>
    ensures { OnOk result (referred atoms.new.items ≡ referred atoms.old.items ++ atoms_below body.now) }
{
    match body {
        Body::Nodes { nodes } => push_atoms(atoms, nodes.as_slice()),
        Body::Same { .. } => Ok(()),
    }
}

fn push_atoms<'p>(atoms: &mut Vec<&'p Atom>, nodes: &'p [Node]) -> Result<(), Memory>
    ensures { OnOk result (referred atoms.new.items ≡ referred atoms.old.items ++ atoms_of nodes.now) }
{
    for node in nodes {
        if let Node::Split { atom } = node {
            atoms.push(atom)?;
        }
    }
    Ok(())
}
