//! The policy that an embedder requires.
ghost use Rattle.std.specs.Prelude.{◌≡◌, IfOk, IfSome};
ghost use Rattle.csp_embed.specs.Decisions as spec;

use csp_model::{Disposition, Duplicate, List, Memory, Policy, PolicyList};
use std::alloc::Global;

/// The policy that a list requires: its only one, where this is enforced. None where the list has no policy or
/// several, or where its policy only reports.
pub fn required_policy(list: PolicyList) -> Option<Policy>
    ensures policy { result ≡ spec.required_of list }
    ensures alone { IfSome result (λ policy. spec.alone policy ≡ list) }
    ensures enforced { IfSome result (λ policy. policy.disposition ≡ Disposition.Enforce) }
{
    let PolicyList { mut policies } = list;
    match policies.pop() {
        Some(policy) if policies.is_empty() && policy.disposition == Disposition::Enforce => {
            Some(policy)
        }
        _ => None,
    }
}

/// The list of this policy alone.
pub fn policy_alone(alloc: Global, policy: &Policy) -> Result<PolicyList, Memory>
    ensures { IfOk result (λ list. list ≡ spec.alone policy.now) }
{
    let mut policies = List::new(alloc);
    policies.push(policy.copy(alloc)?)?;
    Ok(PolicyList { policies })
}
