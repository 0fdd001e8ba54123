//! Writes proofs.
ghost use Rattle.std.specs.Prelude.{◌≡◌, ◌++◌, ◌∷◌, [], IfOk, OnOk, string_bytes, codes};
ghost use Rattle.std.specs.List.{flat_map, join_with_byte};
ghost use Rattle.csp_model.specs.Ascii.{code};
ghost use Rattle.csp_model.specs.Tokens.{algorithm_of, bytes_of};
ghost use Rattle.csp_model.specs.Grammar.{algorithm_text};
ghost use Rattle.hex.specs.Hex.{encode_lower};
ghost use Rattle.csp_proof.specs.Spelling as spec;
ghost use Rattle.csp_proof.specs.declared.line.ProofLine.TheVariants as line;
ghost use Rattle.csp_proof.specs.WellFormed.{IsWellFormed};

use crate::proof::{Body, Format, Node, Proof, Tree};
use csp_facts::Atom;
use csp_model::{Algorithm, Bytes, Digest, Memory};
use itoa::Buffer;
use std::alloc::Global;

// Writes a word, a space and a word.
fn push_two(text: &mut String, first: &str, second: &str) -> Result<(), Memory>
    ensures { OnOk result (string_bytes text.new
        ≡ string_bytes text.old ++ join_with_byte (code " ") (first.now ∷ second.now ∷ [])) }
{
    text.push_str(first)?;
    text.push(' ')?;
    text.push_str(second)?;
    Ok(())
}

// Writes three words with a space between each two.
fn push_three(text: &mut String, first: &str, second: &str, third: &str) -> Result<(), Memory>
    ensures { OnOk result (string_bytes text.new
        ≡ string_bytes text.old ++ join_with_byte (code " ") (first.now ∷ second.now ∷ third.now ∷ [])) }
{
    push_two(text, first, second)?;
    text.push(' ')?;
    text.push_str(third)?;
    Ok(())
}

fn algorithm_of(digest: &Digest) -> Algorithm
    ensures { result ≡ algorithm_of digest.now }
{
    match digest {
        Digest::Sha256(_) => Algorithm::Sha256,
        Digest::Sha384(_) => Algorithm::Sha384,
        Digest::Sha512(_) => Algorithm::Sha512,
    }
}

// The hexadecimal digits of a digest.
fn hex_digits(alloc: Global, digest: &Digest) -> Result<String, Memory>
    ensures { IfOk result (λ digits. string_bytes digits ≡ encode_lower (bytes_of digest.now)) }
{
    Ok(match digest {
        Digest::Sha256(bytes) => hex::encode(alloc, bytes)?,
        Digest::Sha384(bytes) => hex::encode(alloc, bytes)?,
        Digest::Sha512(bytes) => hex::encode(alloc, bytes)?,
    })
}

// Writes an atom.
pub(crate) fn push_atom(alloc: Global, text: &mut String, atom: &Atom) -> Result<(), Memory>
    ensures { OnOk result (string_bytes text.new ≡ string_bytes text.old ++ spec.atom_text atom.now) }
{
    match atom {
        Atom::HostIs(host) => push_two(text, "host-is", host.as_str()),
        Atom::HostUnder(suffix) => push_two(text, "host-under", suffix.as_str()),
        Atom::HostDomain => Ok(text.push_str("host-domain")?),
        Atom::PortIs(port) => push_two(text, "port-is", Buffer::new().format(*port)),
        Atom::PathIs(path) => push_two(text, "path-is", path.as_str()),
        Atom::PathUnder(path) => push_two(text, "path-under", path.as_str()),
        Atom::SchemeIs(scheme) => push_two(text, "scheme-is", scheme.as_str()),
        Atom::NonceIs(value) => push_two(text, "nonce-is", value.as_str()),
        Atom::IntegrityHas(hash) => push_three(
            text,
            "integrity-has",
            hash.algorithm.as_str(),
            hash.value.as_str(),
        ),
        Atom::IntegrityOutside => Ok(text.push_str("integrity-outside")?),
        Atom::DigestIs(digest) => {
            let digits = hex_digits(alloc, digest)?;
            push_three(
                text,
                "digest-is",
                algorithm_of(digest).as_str(),
                digits.as_str(),
            )
        }
    }
}

// Writes the line of a node.
#[tactic(auto, using(crate::proofs::LineTexts::split_text))]
fn push_node(alloc: Global, text: &mut String, node: &Node) -> Result<(), Memory>
    ensures { OnOk result (string_bytes text.new
        ≡ string_bytes text.old ++ (spec.line_text (line.Node node.now) ++ codes "\n")) }
{
    match node {
        Node::Split { atom } => {
            text.push_str("split ")?;
            push_atom(alloc, text, atom)?;
        }
        Node::Blocked { policy } => push_two(text, "blocked", Buffer::new().format(*policy))?,
        Node::Met => text.push_str("met")?,
    }
    text.push('\n')?;
    Ok(())
}

// Writes the lines of nodes.
fn push_nodes(alloc: Global, text: &mut String, nodes: &[Node]) -> Result<(), Memory>
    ensures { OnOk result (string_bytes text.new
        ≡ string_bytes text.old ++ flat_map (λ node. spec.line_text (line.Node node) ++ codes "\n") nodes.now) }
{
    for node in nodes {
        push_node(alloc, text, node)?;
    }
    Ok(())
}

// Writes the lines of a tree.
#[tactic(auto, using(crate::proofs::LineTexts::nodes_text))]
fn push_tree(alloc: Global, text: &mut String, tree: &Tree) -> Result<(), Memory>
    ensures { OnOk result (string_bytes text.new ≡ string_bytes text.old ++ spec.lines_text (spec.tree_lines tree.now)) }
{
    push_three(
        text,
        "tree",
        Buffer::new().format(tree.shape),
        Buffer::new().format(tree.policy),
    )?;
    text.push('\n')?;
    match &tree.body {
        Body::Nodes { nodes } => push_nodes(alloc, text, nodes.as_slice())?,
        Body::Same { tree } => {
            push_two(text, "same", Buffer::new().format(*tree))?;
            text.push('\n')?;
        }
    }
    Ok(())
}

// Writes the lines of trees.
fn push_trees(alloc: Global, text: &mut String, trees: &[Tree]) -> Result<(), Memory>
    ensures { OnOk result (string_bytes text.new
        ≡ string_bytes text.old ++ flat_map (λ tree. spec.lines_text (spec.tree_lines tree)) trees.now) }
{
    for tree in trees {
        push_tree(alloc, text, tree)?;
    }
    Ok(())
}

fn format_number(format: Format) -> &'static str
    ensures { result.now ≡ spec.format_text format }
{
    match format {
        Format::One => "1",
        Format::Two => "2",
    }
}

/// The text of a proof, which has no other: the line of its format, a line for each tree and each node, and
/// the line `end`.
#[tactic(auto, using(crate::proofs::LineTexts::text_of_proof))]
pub fn proof_text(alloc: Global, proof: &Proof) -> Result<Bytes, Memory>
    requires { IsWellFormed proof.now }
    ensures { IfOk result (λ text. text ≡ spec.proof_text proof.now) }
{
    let mut text = String::new(alloc);
    push_two(&mut text, "csp-proof", format_number(proof.format))?;
    text.push('\n')?;
    push_trees(alloc, &mut text, proof.trees.as_slice())?;
    text.push_str("end\n")?;
    Ok(Bytes::from_vec(text.into_bytes()))
}
