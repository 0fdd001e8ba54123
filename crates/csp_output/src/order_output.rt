//! What `order` prints: of each two of many lists whether the second allows all that the first allows, and
//! what shows it.
ghost use Rattle.std.specs.Prelude.{◌≡◌, ◌≤◌, ◌++◌, All, IfOk, OnOk, Ok, length, codes};
ghost use Rattle.csp_model.specs.Policies.{IsReadable};
ghost use Rattle.csp_model.specs.Validity.{IsValidCheck};
ghost use Rattle.csp_order.specs.Pairs.{list_limit};
ghost use Rattle.csp_proof.specs.Spelling as spelling;
ghost use Rattle.csp_proof.specs.WellFormed.{IsWellFormed};
ghost use Rattle.csp_request.specs.Requests.{check_of};
ghost use Rattle.csp_output.specs.Comparisons.{description_of};
ghost use Rattle.csp_output.specs.Orders as spec;

use crate::built::Built;
use crate::lines::push_all;
use crate::status::Status;
use csp_model::{Bytes, Check, List, Memory, PolicyList};
use csp_order::{Because, Relation, order as relations_of};
use csp_proof::{Proof, proof_text};
use csp_request::check_json;
use itoa::Buffer;
use std::alloc::Global;

/// What `order` prints of 2 to 16 lists, which count from 1: for each two of them a line that says whether
/// the second allows all that the first allows. Behind it stands a proof or a check, or it names the lists
/// through which earlier proofs lead. The status is `Clean`.
pub fn order(alloc: Global, lists: &List<PolicyList>) -> Result<Built, Memory>
    requires some { 2 ≤ length lists.now }
    requires few { length lists.now ≤ list_limit }
    requires readable { All IsReadable lists.now }
    ensures { IfOk result (spec.IsOrdering lists.now) }
{
    let relations = relations_of(alloc, lists)?;
    let mut text = Vec::new(alloc);
    for relation in relations.as_slice() {
        push_relation(alloc, &mut text, relation)?;
    }
    Ok(Built {
        status: Status::Clean,
        text: Bytes::from_vec(text),
    })
}

// Writes what is said of a pair.
fn push_relation(alloc: Global, text: &mut Vec<u8>, relation: &Relation) -> Result<(), Memory>
    requires { spec.IsWritable relation.now.because }
    ensures text { OnOk result (text.new.items ≡ text.old.items ++ spec.relation_text relation.now) }
    ensures read_back { OnOk result (spec.IsReadBack relation.now.because) }
{
    let mut first = Buffer::new();
    let mut second = Buffer::new();
    push_all(
        text,
        &[
            first.format(relation.first),
            " ",
            second.format(relation.second),
        ],
    )?;
    push_because(alloc, text, &relation.because)
}

// Writes the end of a pair's line, and what stands behind it.
fn push_because(alloc: Global, text: &mut Vec<u8>, because: &Because) -> Result<(), Memory>
    requires { spec.IsWritable because.now }
    ensures text { OnOk result (text.new.items ≡ text.old.items ++ spec.because_text because.now) }
    ensures read_back { OnOk result (spec.IsReadBack because.now) }
{
    match because {
        Because::Proof { proof } => push_proof(alloc, text, proof),
        Because::Through { lists } => push_through(text, lists.as_slice()),
        Because::Check { check } => push_check(alloc, text, check),
    }
}

fn push_proof(alloc: Global, text: &mut Vec<u8>, proof: &Proof) -> Result<(), Memory>
    requires { IsWellFormed proof.now }
    ensures { OnOk result (text.new.items
        ≡ text.old.items ++ (codes " yes proof\n" ++ spelling.proof_text proof.now)) }
{
    let shown = proof_text(alloc, proof)?;
    text.extend_from_slice(b" yes proof\n")?;
    text.extend_from_slice(shown.as_slice())?;
    Ok(())
}

fn push_through(text: &mut Vec<u8>, lists: &[u32]) -> Result<(), Memory>
    ensures { OnOk result (text.new.items
        ≡ text.old.items ++ (codes " yes through" ++ (spec.numbers_text lists.now ++ codes "\n"))) }
{
    text.extend_from_slice(b" yes through")?;
    push_numbers(text, lists)?;
    text.push(b'\n')?;
    Ok(())
}

fn push_check(alloc: Global, text: &mut Vec<u8>, check: &Check) -> Result<(), Memory>
    requires { IsValidCheck check.now }
    ensures text { OnOk result (text.new.items
        ≡ text.old.items ++ (codes " no\n" ++ (description_of check.now ++ codes "\n"))) }
    ensures read_back { OnOk result (check_of (description_of check.now) ≡ Ok check.now) }
{
    let description = check_json(alloc, check)?;
    text.extend_from_slice(b" no\n")?;
    text.extend_from_slice(description.as_slice())?;
    text.push(b'\n')?;
    Ok(())
}

// Writes numbers, with a space before each.
fn push_numbers(text: &mut Vec<u8>, numbers: &[u32]) -> Result<(), Memory>
    ensures { OnOk result (text.new.items ≡ text.old.items ++ spec.numbers_text numbers.now) }
{
    for number in numbers {
        push_all(text, &[" ", Buffer::new().format(*number)])?;
    }
    Ok(())
}
