//! Copies of proofs.
ghost use Rattle.std.specs.Prelude.{◌≡◌, IfOk};

use csp_model::{Duplicate, List, Memory};
use csp_proof::{Body, Node, Proof, Tree};
use std::alloc::Global;

// A copy that equals the proof.
pub(crate) fn copy_proof(alloc: Global, proof: &Proof) -> Result<Proof, Memory>
    ensures { IfOk result (λ made. made ≡ proof.now) }
{
    Ok(Proof {
        format: proof.format,
        trees: copy_trees(alloc, proof.trees.as_slice())?,
        last_line: proof.last_line,
    })
}

fn copy_trees(alloc: Global, trees: &[Tree]) -> Result<List<Tree>, Memory>
    ensures { IfOk result (λ made. made ≡ trees.now) }
{
    let mut made = Vec::with_capacity(alloc, trees.len())?;
    for tree in trees {
        made.push(copy_tree(alloc, tree)?)?;
    }
    Ok(List::from_vec(made))
}

fn copy_tree(alloc: Global, tree: &Tree) -> Result<Tree, Memory>
    ensures { IfOk result (λ made. made ≡ tree.now) }
{
    Ok(Tree {
        shape: tree.shape,
        policy: tree.policy,
        line: tree.line,
        body: copy_body(alloc, &tree.body)?,
    })
}

fn copy_body(alloc: Global, body: &Body) -> Result<Body, Memory>
    ensures { IfOk result (λ made. made ≡ body.now) }
{
    Ok(match body {
        Body::Nodes { nodes } => Body::Nodes {
            nodes: copy_nodes(alloc, nodes.as_slice())?,
        },
        Body::Same { tree } => Body::Same { tree: *tree },
    })
}

fn copy_nodes(alloc: Global, nodes: &[Node]) -> Result<List<Node>, Memory>
    ensures { IfOk result (λ made. made ≡ nodes.now) }
{
    let mut made = Vec::with_capacity(alloc, nodes.len())?;
    for node in nodes {
        made.push(copy_node(alloc, node)?)?;
    }
    Ok(List::from_vec(made))
}

fn copy_node(alloc: Global, node: &Node) -> Result<Node, Memory>
    ensures { IfOk result (λ made. made ≡ node.now) }
{
    Ok(match node {
        Node::Split { atom } => Node::Split {
            atom: atom.copy(alloc)?,
        },
        Node::Blocked { policy } => Node::Blocked { policy: *policy },
        Node::Met => Node::Met,
    })
}
