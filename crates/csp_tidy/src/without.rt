//! Lists without one token.
ghost use Rattle.std.specs.Prelude.{◌≡◌, IfOk};
ghost use Rattle.std.specs.List.{remove};
ghost use Rattle.csp_tidy.specs.Candidates as spec;

use crate::place::TokenPlace;
use csp_model::{Directive, Duplicate, List, Memory, Policy, PolicyList};
use std::alloc::Global;

// The list without the token at the place and its source.
pub(crate) fn without(
    alloc: Global,
    list: &PolicyList,
    place: TokenPlace,
) -> Result<PolicyList, Memory>
    ensures { IfOk result (λ made. made ≡ spec.without list.now place) }
{
    let mut policies = List::new(alloc);
    for (number, policy) in list.policies.as_slice().iter().enumerate() {
        policies.push(if number == place.policy {
            policy_without(alloc, policy, place.directive, place.token)?
        } else {
            policy.copy(alloc)?
        })?;
    }
    Ok(PolicyList { policies })
}

fn policy_without(
    alloc: Global,
    policy: &Policy,
    place: usize,
    token: usize,
) -> Result<Policy, Memory>
    ensures { IfOk result (λ made. made ≡ spec.policy_without place token policy.now) }
{
    let mut directives = List::new(alloc);
    for (number, directive) in policy.directives.as_slice().iter().enumerate() {
        directives.push(if number == place {
            directive_without(alloc, directive, token)?
        } else {
            directive.copy(alloc)?
        })?;
    }
    Ok(Policy {
        disposition: policy.disposition,
        meta: policy.meta,
        origin: policy.origin.copy(alloc)?,
        directives,
    })
}

fn directive_without(
    alloc: Global,
    directive: &Directive,
    token: usize,
) -> Result<Directive, Memory>
    ensures { IfOk result (λ made. made ≡ spec.directive_without token directive.now) }
{
    Ok(Directive {
        name: directive.name.copy(alloc)?,
        tokens: item_removed(directive.tokens.copy(alloc)?, token),
        sources: item_removed(directive.sources.copy(alloc)?, token),
    })
}

// The list without its item at this place, if it has one.
fn item_removed<T: Drop>(list: List<T>, place: usize) -> List<T>
    ensures { result ≡ remove list place }
{
    let mut items = list.into_vec();
    if place < items.len() {
        items.remove(place);
    }
    List::from_vec(items)
}
