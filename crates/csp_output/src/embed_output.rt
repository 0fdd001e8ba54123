//! What `embed` prints: what becomes of a response of which its embedder requires a policy.
ghost use Rattle.std.specs.Prelude.{◌≡◌, ◌++◌, IfOk};
ghost use Rattle.csp_model.specs.Policies.{IsReadable};
ghost use Rattle.csp_embed.specs.Decisions.{alone};
ghost use Rattle.csp_output.specs.Embeddings as spec;

use crate::built::Built;
use crate::compare_output::difference;
use crate::lines::push_all;
use crate::status::Status;
use csp_embed::{Decision, allow_from, decide, policy_alone};
use csp_model::{Bytes, Disposition, Memory, Origin, Policy, PolicyList};
use csp_policy::policy_text;
use csp_proof::proof_text;
use std::alloc::Global;

/// A response: its header block, and the policies that are read of it.
#[derive(Clone, Copy)]
pub struct Response<'a> {
    pub block: &'a [u8],
    pub list: &'a PolicyList,
}

/// What `embed` prints: a line `added`, `served` or `refused`, and what stands behind it. Behind `added` this is
/// the required policy, which is to be enforced beside the response's own. Behind the others it is what
/// `compare` prints of the response's policies and the required policy alone. The status is `Found` where the
/// response is refused, and else `Clean`.
pub fn embed(
    alloc: Global,
    embedder: &Origin,
    required: &Policy,
    response: Response<'_>,
) -> Result<Built, Memory>
    requires enforced { required.now.disposition ≡ Disposition.Enforce }
    requires required { IsReadable (alone required.now) }
    requires response { IsReadable response.list.now }
    ensures { IfOk result
        (spec.IsEmbedding embedder.now required.now response.entry.block.now response.entry.list.now) }
{
    let allowed = allow_from(alloc, response.block, embedder)?;
    match decide(alloc, allowed, required, response.list)? {
        Decision::Added { .. } => added_output(alloc, required),
        Decision::Served { proof } => {
            let text = proof_text(alloc, &proof)?;
            under_word(alloc, Status::Clean, "served\n", &text)
        }
        Decision::Refused { check } => {
            let required = policy_alone(alloc, required)?;
            let text = difference(alloc, &required, &check)?;
            under_word(alloc, Status::Found, "refused\n", &text)
        }
    }
}

// The output where the required policy is added.
fn added_output(alloc: Global, required: &Policy) -> Result<Built, Memory>
    ensures { IfOk result (λ built. built ≡ spec.added_output required.now) }
{
    let policy = policy_text(alloc, required)?;
    let mut text = Vec::new(alloc);
    push_all(&mut text, &["added\n", policy.as_str(), "\n"])?;
    Ok(Built {
        status: Status::Clean,
        text: Bytes::from_vec(text),
    })
}

// The output of a word and the answer behind it.
fn under_word(alloc: Global, status: Status, word: &str, answer: &Bytes) -> Result<Built, Memory>
    ensures { IfOk result
        (λ built. built ≡ record { status = status; text = word.now ++ answer.now }) }
{
    let mut text = Vec::from_slice(alloc, word.as_bytes())?;
    text.extend_from_slice(answer.as_slice())?;
    Ok(Built {
        status,
        text: Bytes::from_vec(text),
    })
}
