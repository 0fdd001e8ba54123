//! The trees of a proof that is being made.
ghost use Rattle.std.specs.Prelude.{◌≡◌, ◌≢◌, ◌<◌, ◌^◌, [], ◌∷◌, ◌++◌, length, Contains, IfOk, OnOk, MatchOption, Some, IsTrue, ◌↔◌, ℕ};
ghost use Rattle.csp_compare.specs.Answers.{SharesNodes};
ghost use Rattle.csp_compare.specs.Drafts.{HasNone, IsAdded, tree_behind};
ghost use Rattle.csp_proof.specs.WellFormed.{body_at, line_behind};

use crate::numbers::note;
use csp_model::{List, Memory};
use csp_proof::{Body, Format, Node, Proof, Tree};
use std::alloc::Global;
use std::collections::BTreeMap;
use std::marker::Model;

// The trees so far, of which no two have equal nodes of their own.
#[derive(Drop)]
pub(crate) struct Draft {
    alloc: Global,
    trees: List<Tree>,
    // The line behind the last tree.
    line: u128,
    // The numbers of the trees with nodes of their own, by how many they have.
    by_count: BTreeMap<usize, Vec<u32>>,
}

impl Model for Draft {
    ghost use Rattle.std.specs.Prelude.{List};
    ghost use Rattle.csp_compare.specs.Drafts.{IsMade};
    ghost use Rattle.csp_proof.specs.declared.proof.Tree.{Tree as TreeValue};

    ghost Value = { List TreeValue };

    ghost view = { λ d. d.trees };

    ghost invariant = { IsMade };
}

impl Draft {
    // No tree.
    pub(crate) fn new(alloc: Global) -> Draft
        ensures { result ≡ [] }
    {
        Draft {
            alloc,
            trees: List::new(alloc),
            line: 2,
            by_count: BTreeMap::new(alloc),
        }
    }

    // The proof that the trees are.
    pub(crate) fn into_proof(self) -> Proof
        ensures format { result.format ≡ Format.Two }
        ensures trees { result.trees ≡ self }
        ensures last_line { result.last_line ≡ line_behind self }
        ensures shares { SharesNodes self }
    {
        Proof {
            format: Format::Two,
            trees: self.trees,
            last_line: self.line,
        }
    }

    // Adds a tree that shares the nodes of the tree of this number.
    pub(crate) fn share(&mut self, shape: u8, policy: u32, tree: u32) -> Result<(), Memory>
        requires { length self.old < 2 ^ 32 }
        ensures { OnOk result
            (self.new ≡ self.old ++ tree_behind self.old shape policy (Body.Same tree) ∷ []) }
    {
        let line = self.line;
        let body = Body::Same { tree };
        self.trees.push(Tree {
            shape,
            policy,
            line,
            body,
        })?;
        self.line += 2;
        Ok(())
    }

    // Adds a tree with these nodes, which it shares where one before it has them. The number of the tree that
    // has them.
    pub(crate) fn add(&mut self, shape: u8, policy: u32, nodes: List<Node>) -> Result<u32, Memory>
        requires { length self.old < 2 ^ 32 }
        ensures { IfOk result (IsAdded self.old self.new shape policy nodes) }
    {
        match self.find(&nodes) {
            Some(number) => {
                self.share(shape, policy, number)?;
                Ok(number)
            }
            None => self.put(shape, policy, nodes),
        }
    }

    // The number of the tree that has these nodes.
    fn find(&self, nodes: &List<Node>) -> Option<u32>
        ensures { MatchOption result (HasNone self.now nodes.now)
            (λ number. body_at self.now number ≡ Some (Body.Nodes nodes.now)) }
    {
        match self.by_count.get(&nodes.len()) {
            Some(numbers) => first_with(&self.trees, numbers.as_slice(), nodes),
            None => None,
        }
    }

    // Adds a tree with nodes that none before it has. Its number.
    fn put(&mut self, shape: u8, policy: u32, nodes: List<Node>) -> Result<u32, Memory>
        requires room { length self.old < 2 ^ 32 }
        requires none { HasNone self.old nodes }
        ensures { IfOk result (λ number. (number ≡ length self.old)
            × (self.new ≡ self.old ++ tree_behind self.old shape policy (Body.Nodes nodes) ∷ [])) }
    {
        let line = self.line;
        let count = nodes.len();
        let number = self.trees.len() as u32;
        note(self.alloc, &mut self.by_count, count, number)?;
        let body = Body::Nodes { nodes };
        self.trees.push(Tree {
            shape,
            policy,
            line,
            body,
        })?;
        self.line += 1 + count as u128;
        Ok(number)
    }
}

// The first of these numbers of which the tree has these nodes.
fn first_with(trees: &List<Tree>, numbers: &[u32], nodes: &List<Node>) -> Option<u32>
    ensures { MatchOption result
        ((number : ℕ) → Contains numbers.now number → body_at trees.now number ≢ Some (Body.Nodes nodes.now))
        (λ number. body_at trees.now number ≡ Some (Body.Nodes nodes.now)) }
{
    for number in numbers {
        if has_nodes(trees, *number, nodes) {
            return Some(*number);
        }
    }
    None
}

fn has_nodes(trees: &List<Tree>, number: u32, nodes: &List<Node>) -> bool
    ensures { IsTrue result ↔ (body_at trees.now number ≡ Some (Body.Nodes nodes.now)) }
{
    match trees.get(number as usize) {
        Some(tree) => has_own(&tree.body, nodes),
        None => false,
    }
}

fn has_own(body: &Body, nodes: &List<Node>) -> bool
    ensures { IsTrue result ↔ (body.now ≡ Body.Nodes nodes.now) }
{
    match body {
        Body::Nodes { nodes: own } => own == nodes,
        Body::Same { .. } => false,
    }
}
