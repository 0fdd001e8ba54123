//! Whether one token can go.
ghost use Rattle.std.specs.Prelude.{◌≡◌, ◌<◌, IfOk};
ghost use Rattle.csp_model.specs.Policies.{IsReadable, policy_limit, token_limit};
ghost use Rattle.csp_tidy.specs.Asking as spec;
ghost use Rattle.csp_tidy.specs.Candidates.{IsCandidate};
ghost use Rattle.csp_tidy.specs.Tidied.{place_of};

use crate::governed::governed_names;
use crate::place::TokenPlace;
use crate::tidying::Needed;
use crate::without::without;
use csp_compare::find_difference_among;
use csp_model::{Check, Memory, Name, PolicyList};
use std::alloc::Global;

// What comes of asking whether a token can go.
#[derive(Drop)]
pub(crate) enum TokenUse {
    // A check shows that it can't.
    Needed { needed: Needed },
    // The list without it is equivalent.
    Spare { list: PolicyList },
}

// Asks it of a candidate. Its directive's name stays, so only what the directive governs can change.
pub(crate) fn ask(alloc: Global, list: &PolicyList, place: TokenPlace) -> Result<TokenUse, Memory>
    requires readable { IsReadable list.now }
    requires candidate { IsCandidate list.now place }
    ensures { IfOk result (spec.IsAsked list.now place) }
{
    let names = governed_at(alloc, list, place)?;
    let thinner = without(alloc, list, place)?;
    if let Some(check) = find_difference_among(alloc, list, &thinner, names.as_slice())? {
        let needed = needed_at(place, true, check)?;
        return Ok(TokenUse::Needed { needed });
    }
    if let Some(check) = find_difference_among(alloc, &thinner, list, names.as_slice())? {
        let needed = needed_at(place, false, check)?;
        return Ok(TokenUse::Needed { needed });
    }
    Ok(TokenUse::Spare { list: thinner })
}

// The effective directives of the checks that the directive of a candidate governs.
fn governed_at(alloc: Global, list: &PolicyList, place: TokenPlace) -> Result<Vec<Name>, Memory>
    requires { IsCandidate list.now place }
    ensures { IfOk result (λ names. spec.GovernsAt list.now place names.items) }
{
    let Some(policy) = list.policies.get(place.policy) else {
        unreachable!()
    };
    let Some(directive) = policy.directives.get(place.directive) else {
        unreachable!()
    };
    governed_names(alloc, policy, directive)
}

// An entry for the token of a candidate. A list with more directives than a `u32` counts takes more memory
// than there is.
fn needed_at(place: TokenPlace, allowed_with: bool, check: Check) -> Result<Needed, Memory>
    requires policy { place.policy < policy_limit }
    requires token { place.token < token_limit }
    ensures place { IfOk result (λ needed. place_of needed ≡ place) }
    ensures allowed_with { IfOk result (λ needed. needed.allowed_with ≡ allowed_with) }
    ensures check { IfOk result (λ needed. needed.check ≡ check) }
{
    let Ok(directive) = u32::try_from(place.directive) else {
        return Err(Memory);
    };
    Ok(Needed {
        policy: place.policy as u32,
        directive,
        token: place.token as u32,
        allowed_with,
        check,
    })
}
