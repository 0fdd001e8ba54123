//! What `check` prints: whether a proof is accepted.
ghost use Rattle.std.specs.Prelude.{◌≡◌, ◌<◌, ◌-◌, ◌^◌, ◌++◌, IfErr, IfOk, length, codes, decimal};
ghost use Rattle.csp_model.specs.Policies.{IsReadable};
ghost use Rattle.csp_proof.specs.Accepts.{first_bad_node};
ghost use Rattle.csp_proof.specs.Texts.{IsRefusal};
ghost use Rattle.csp_proof.specs.WellFormed.{IsWellFormed};
ghost use Rattle.csp_output.specs.Checks as spec;

use crate::built::Built;
use crate::lines::push_all;
use crate::status::Status;
use csp_checker::Checker;
use csp_model::{Bytes, Memory, PolicyList};
use csp_proof::{Proof, ProofError, read_proof};
use itoa::Buffer;
use std::alloc::Global;

/// What `check` prints: whether the proof that a text is shows that the second list allows all that the first
/// allows. `BadProof` comes where the text isn't a proof's, as `read_proof` says.
pub fn check(
    alloc: Global,
    first: &PolicyList,
    second: &PolicyList,
    text: &[u8],
) -> Result<Built, ProofError>
    requires first { IsReadable first.now }
    requires second { IsReadable second.now }
    requires short { length text.now < 2 ^ 32 - 1 }
    ensures output { IfOk result (spec.IsChecked first.now second.now text.now) }
    ensures bad { IfErr result (IsRefusal text.now) }
{
    let proof = read_proof(alloc, text)?;
    Ok(check_proof(alloc, first, second, &proof)?)
}

// The output on a proof.
fn check_proof(
    alloc: Global,
    first: &PolicyList,
    second: &PolicyList,
    proof: &Proof,
) -> Result<Built, Memory>
    requires first { IsReadable first.now }
    requires second { IsReadable second.now }
    requires formed { IsWellFormed proof.now }
    ensures { IfOk result (λ built.
        built ≡ spec.checked (first_bad_node first.now second.now proof.now)) }
{
    let mut checker = Checker::new(alloc, first, second, proof)?;
    match checker.accepts() {
        Ok(()) => Ok(Built {
            status: Status::Clean,
            text: Bytes::new(alloc, b"accepted\n")?,
        }),
        Err(rejected) => Ok(Built {
            status: Status::Found,
            text: rejected_text(alloc, rejected.line)?,
        }),
    }
}

fn rejected_text(alloc: Global, line: u128) -> Result<Bytes, Memory>
    ensures { IfOk result (λ text. text ≡ codes "rejected " ++ (decimal line ++ codes "\n")) }
{
    let mut digits = Buffer::new();
    let mut text = Vec::new(alloc);
    push_all(&mut text, &["rejected ", digits.format(line), "\n"])?;
    Ok(Bytes::from_vec(text))
}
