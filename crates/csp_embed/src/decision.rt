//! What becomes of a response.
ghost use Rattle.std.specs.Prelude.{◌≡◌, IfOk, IfSome};
ghost use Rattle.csp_model.specs.Policies.{IsReadable};
ghost use Rattle.csp_embed.specs.Decisions as spec;

use crate::laws::what_is_enforced_upholds_the_requirement;
use crate::requirement::policy_alone;
use csp_compare::{Answer, compare};
use csp_model::{Check, Disposition, Duplicate, Memory, Policy, PolicyList};
use csp_proof::Proof;
use std::alloc::Global;

/// What becomes of a response of which its embedder requires a policy.
#[derive(Debug, Drop)]
pub enum Decision {
    /// It may be shown, with the required policy added: the policies of the response, and then the required
    /// one, are to be enforced.
    Added { list: PolicyList },
    /// It may be shown as it is: a proof that the required policy allows all that the response's policies
    /// allow.
    Served { proof: Proof },
    /// It may not be shown: a check that the response's policies allow and the required policy blocks.
    Refused { check: Check },
}

impl Decision {
    /// The decision as it is printed: `added`, `served` or `refused`.
    pub fn as_str(&self) -> &'static str
        ensures { result.now ≡ spec.decision_text self.now }
    {
        match self {
            Decision::Added { .. } => "added",
            Decision::Served { .. } => "served",
            Decision::Refused { .. } => "refused",
        }
    }
}

// The policies of a response, with the required one behind them.
fn with_added(alloc: Global, response: &PolicyList, required: &Policy) -> Result<PolicyList, Memory>
    ensures { IfOk result (λ list. list ≡ spec.with_added response.now required.now) }
{
    let mut policies = response.policies.copy(alloc)?;
    policies.push(required.copy(alloc)?)?;
    Ok(PolicyList { policies })
}

/// What becomes of a response of which its embedder requires a policy (Content Security Policy: Embedded
/// Enforcement, "Is response to request blocked by embedder's policy?").
///
/// `allowed` says whether the response leaves it to the embedder, as `allow_from` tells. Where it doesn't, its
/// own policies have to be at least as strict as the required one: each check that they allow the required
/// policy allows. This is an exact inclusion, and not the comparison of texts of the draft.
///
/// The required policy is enforced, and both lists are as reading makes them. That a response is of the
/// embedder's own origin or of a local scheme, for which the draft requires nothing, is for the caller to see.
pub fn decide(
    alloc: Global,
    allowed: bool,
    required: &Policy,
    response: &PolicyList,
) -> Result<Decision, Memory>
    requires enforced { required.now.disposition ≡ Disposition.Enforce }
    requires required { IsReadable (spec.alone required.now) }
    requires response { IsReadable response.now }
    ensures decision { IfOk result (spec.IsDecision allowed required.now response.now) }
    ensures upheld { IfOk result (λ decision.
        IfSome (spec.enforced_list response.now decision) (λ list. spec.Upholds list required.now)) }
{
    what_is_enforced_upholds_the_requirement();
    if allowed {
        let list = with_added(alloc, response, required)?;
        return Ok(Decision::Added { list });
    }
    let required = policy_alone(alloc, required)?;
    match compare(alloc, response, &required)? {
        Answer::Subsumed { proof } => Ok(Decision::Served { proof }),
        Answer::Counterexample { check } => Ok(Decision::Refused { check }),
    }
}
