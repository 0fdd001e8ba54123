//! Proofs that one list of policies is at least as strict as another.
use csp_facts::Atom;
use csp_model::List;

/// A step of a tree of cases.
#[derive(Debug, PartialEq, Eq, Drop)]
pub enum Node {
    /// Two cases: the checks for which the atom holds, and the others.
    Split { atom: Atom },
    /// The first list's policy of this number, counted from 0, allows no check of the case.
    Blocked { policy: u32 },
    /// The second list's policy allows each check of the case.
    Met,
}

/// The format of a proof. Only in the second a tree may share the nodes of one before it.
#[derive(Clone, Copy, Debug, PartialEq, Eq)]
pub enum Format {
    One,
    Two,
}

/// What stands below the line of a tree.
#[derive(Debug, PartialEq, Eq, Drop)]
pub enum Body {
    /// Nodes in preorder: behind a split come those of the case where the atom holds, and then the others.
    Nodes { nodes: List<Node> },
    /// The nodes of the tree of this number, counted from 0.
    Same { tree: u32 },
}

/// The cases of the checks of one shape, for one policy of the second list.
#[derive(Debug, PartialEq, Eq, Drop)]
pub struct Tree {
    /// The number of the shape, from 0 to 188.
    pub shape: u8,
    /// The number of the policy, counted from 0.
    pub policy: u32,
    /// The line of the proof's text where the tree begins, counted from 1. Its nodes stand in the lines
    /// behind it.
    pub line: u128,
    pub body: Body,
}

/// A proof, with the numbers of its lines.
#[derive(Debug, PartialEq, Eq, Drop)]
pub struct Proof {
    pub format: Format,
    pub trees: List<Tree>,
    /// The line of the word `end`.
    pub last_line: u128,
}
