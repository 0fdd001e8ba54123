//! Where the lines of a proof's text have come to.
ghost use Rattle.std.specs.Prelude.{◌≡◌, ◌+◌, ◌≤◌, ◌<◌, ◌^◌, ◌++◌, ◌∷◌, [], IfOk, IfSome, slice_get};
ghost use Rattle.csp_proof.specs.Places as spec;
ghost use Rattle.csp_proof.specs.WellFormed.{has_nodes, body_at};

use crate::line::ProofLine;
use crate::proof::{Body, Format, Node, Proof, Tree};
use csp_model::{List, Memory};
use std::alloc::Global;

// A tree whose line is read.
#[derive(Clone, Copy)]
pub(crate) struct OpenTree {
    pub(crate) shape: u8,
    pub(crate) policy: u32,
    pub(crate) line: u128,
}

impl OpenTree {
    // The tree, with its body.
    fn with_body(self, body: Body) -> Tree
        ensures { result ≡ spec.closed self body }
    {
        Tree {
            shape: self.shape,
            policy: self.policy,
            line: self.line,
            body,
        }
    }
}

// What the lines so far say, and so what may come next.
#[derive(Drop)]
pub(crate) enum Progress {
    // Nothing is read.
    Start,
    // A tree or the end may come.
    Between {
        format: Format,
        trees: List<Tree>,
    },
    // A node may come, or at first the number of a tree that has nodes. So many branches are still to come
    // besides the next.
    Within {
        format: Format,
        trees: List<Tree>,
        opened: OpenTree,
        nodes: List<Node>,
        more: u32,
    },
    // The proof is whole: no line may come.
    Done {
        proof: Proof,
    },
}

// How many branches are still to come besides the next, behind a node. None where the tree is whole.
fn branches_behind(more: u32, node: &Node) -> Option<u32>
    requires { more + 1 < 2 ^ 32 }
    ensures { result ≡ spec.branches_behind more node.now }
{
    match node {
        Node::Split { .. } => Some(more + 1),
        _ => more.checked_sub(1),
    }
}

fn has_nodes(trees: &List<Tree>, number: u32) -> bool
    ensures { result ≡ has_nodes (body_at trees.now number) }
{
    match trees.get(number as usize) {
        Some(tree) => matches!(&tree.body, Body::Nodes { .. }),
        None => false,
    }
}

fn may_share(format: Format, trees: &List<Tree>, number: u32) -> bool
    ensures { result ≡ spec.may_share format trees.now number }
{
    format == Format::Two && has_nodes(trees, number)
}

// The place behind a tree that has this body.
fn behind_tree(
    format: Format,
    mut trees: List<Tree>,
    opened: OpenTree,
    body: Body,
) -> Result<Progress, Memory>
    ensures { IfOk result (λ place. place
        ≡ Progress.Between format (trees ++ spec.closed opened body ∷ [])) }
{
    trees.push(opened.with_body(body))?;
    Ok(Progress::Between { format, trees })
}

// The nodes, without room for more: there may be many trees.
fn without_spare(nodes: List<Node>) -> List<Node>
    ensures { result ≡ nodes }
{
    let mut kept = nodes.into_vec();
    kept.shrink_to_fit();
    List::from_vec(kept)
}

// The place behind a node of the opened tree.
fn behind_node(
    format: Format,
    trees: List<Tree>,
    opened: OpenTree,
    mut nodes: List<Node>,
    more: u32,
    node: Node,
) -> Result<Progress, Memory>
    requires { more + 1 < 2 ^ 32 }
    ensures { IfOk result (λ place. place
        ≡ spec.behind_node format trees opened (nodes ++ node ∷ []) (spec.branches_behind more node)) }
{
    let still = branches_behind(more, &node);
    nodes.push(node)?;
    match still {
        Some(more) => Ok(Progress::Within {
            format,
            trees,
            opened,
            nodes,
            more,
        }),
        None => {
            let nodes = without_spare(nodes);
            behind_tree(format, trees, opened, Body::Nodes { nodes })
        }
    }
}

impl Progress {
    // The place behind a line, which is the one of this number. None where the line can't stand there.
    pub(crate) fn next(
        self,
        alloc: Global,
        number: u32,
        line: ProofLine,
    ) -> Result<Option<Progress>, Memory>
        requires { spec.branches self + 1 < 2 ^ 32 }
        ensures { IfOk result (λ place. place ≡ spec.next number self line) }
    {
        match (self, line) {
            (Progress::Start, ProofLine::Head { format }) => Ok(Some(Progress::Between {
                format,
                trees: List::new(alloc),
            })),
            (Progress::Between { format, trees }, ProofLine::Tree { shape, policy }) => {
                Ok(Some(Progress::Within {
                    format,
                    trees,
                    opened: OpenTree {
                        shape,
                        policy,
                        line: number.into(),
                    },
                    nodes: List::new(alloc),
                    more: 0,
                }))
            }
            (Progress::Between { format, trees }, ProofLine::End) => Ok(Some(Progress::Done {
                proof: Proof {
                    format,
                    trees,
                    last_line: number.into(),
                },
            })),
            (
                Progress::Within {
                    format,
                    trees,
                    opened,
                    nodes,
                    more,
                },
                ProofLine::Node { node },
            ) => Ok(Some(behind_node(format, trees, opened, nodes, more, node)?)),
            (
                Progress::Within {
                    format,
                    trees,
                    opened,
                    nodes,
                    ..
                },
                ProofLine::Same { tree },
            ) => {
                if nodes.is_empty() && may_share(format, &trees, tree) {
                    Ok(Some(behind_tree(format, trees, opened, Body::Same { tree })?))
                } else {
                    Ok(None)
                }
            }
            _ => Ok(None),
        }
    }
}
