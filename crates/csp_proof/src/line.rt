//! The lines of a proof's text.
ghost use Rattle.std.specs.Prelude.{◌≡◌, IfOk, Some, None};
ghost use Rattle.csp_facts.specs.Numbers.{shape_count};
ghost use Rattle.csp_proof.specs.Reading as spec;

use crate::atom::read_atom;
use crate::proof::{Format, Node};
use crate::words::{cut, number_below};
use csp_model::Memory;
use std::alloc::Global;

// What a line says.
#[derive(Drop)]
pub(crate) enum ProofLine {
    // The first line of a proof, with its format.
    Head { format: Format },
    // A tree begins, for a shape and a policy.
    Tree { shape: u8, policy: u32 },
    // The tree has the nodes of the tree of this number.
    Same { tree: u32 },
    Node { node: Node },
    // The last line.
    End,
}

fn format_named(text: &str) -> Option<Format>
    ensures { result ≡ spec.format_named text.now }
{
    match text {
        "1" => Some(Format::One),
        "2" => Some(Format::Two),
        _ => None,
    }
}

fn shape_of(text: &str) -> Option<u8>
    ensures { result ≡ spec.number_below shape_count text.now }
{
    match number_below(189, text) {
        Some(number) => Some(number as u8),
        None => None,
    }
}

// The line of a tree for this shape and this policy.
fn tree_of(text: &str) -> Option<ProofLine>
    ensures { result ≡ spec.tree_of (spec.cut text.now) }
{
    let (shape, policy) = cut(text)?;
    let shape = shape_of(shape)?;
    let policy = number_below(64, policy)?;
    Some(ProofLine::Tree { shape, policy })
}

fn bare_line(word: &str) -> Option<ProofLine>
    ensures { result ≡ spec.bare_line word.now }
{
    match word {
        "met" => Some(ProofLine::Node { node: Node::Met }),
        "end" => Some(ProofLine::End),
        _ => None,
    }
}

// The line of a word and what stands behind it.
#[tactic(auto, unfolding(crate::specs::Reading::line_about))]
fn line_about(alloc: Global, word: &str, value: &str) -> Result<Option<ProofLine>, Memory>
    ensures { IfOk result (λ found. found ≡ spec.line_about word.now value.now) }
{
    match word {
        "split" => Ok(read_atom(alloc, value)?.map(|atom| ProofLine::Node {
            node: Node::Split { atom },
        })),
        "blocked" => Ok(number_below(64, value).map(|policy| ProofLine::Node {
            node: Node::Blocked { policy },
        })),
        "tree" => Ok(tree_of(value)),
        "same" => Ok(number_below(1 << 32, value).map(|tree| ProofLine::Same { tree })),
        "csp-proof" => Ok(format_named(value).map(|format| ProofLine::Head { format })),
        _ => Ok(None),
    }
}

fn read_text(alloc: Global, text: &str) -> Result<Option<ProofLine>, Memory>
    ensures { IfOk result (λ found. found ≡ spec.line_of text.now) }
{
    match cut(text) {
        None => Ok(bare_line(text)),
        Some((word, value)) => line_about(alloc, word, value),
    }
}

// The line that these bytes spell.
pub(crate) fn read_line(alloc: Global, bytes: &[u8]) -> Result<Option<ProofLine>, Memory>
    ensures { IfOk result (λ found. spec.IsReadAs bytes.now found) }
{
    match str::from_utf8(bytes) {
        Ok(text) => read_text(alloc, text),
        Err(_) => Ok(None),
    }
}
