//! Why a policy allows or blocks a check.
ghost use Rattle.std.specs.Prelude.{◌≡◌, IfOk};
ghost use Rattle.std.specs.Option.{option_map};
ghost use Rattle.csp_match.specs.Shown.{shown};
ghost use Rattle.csp_model.specs.DecideVerdict.{allows};
ghost use Rattle.csp_why.specs.Reasons as spec;

use crate::allowance::allowance;
use crate::displacement::displacement;
use crate::near::near_tokens;
use crate::reason::Reason;
use csp_match::{Governor, governor};
use csp_model::{Check, Disposition, Memory, Policy};
use csp_verdict::effective_name;
use std::alloc::Global;

/// Why a policy allows or blocks a check, whatever its disposition: by which token of the directive that
/// governs, and by which rule, or else which tokens nearly allow it.
///
/// Where several rules allow, the first in the order of the standard's own steps is told, with its first
/// token (Content Security Policy Level 3, sections 6.7.1.1 and 6.7.3.3). A token nearly allows if one
/// part of it, or what else the directive has, alone keeps it from allowing.
///
/// The tokens are gone through once for each rule. Memory is taken only where the directive blocks.
#[tactic(auto, using(crate::proofs::Decided::reason_decided))]
pub fn explain(alloc: Global, policy: &Policy, check: &Check) -> Result<Reason, Memory>
    ensures reason { IfOk result (λ made. made ≡ spec.reason policy.now check.now) }
    ensures allows { IfOk result (λ made. spec.is_allowing made ≡ allows policy.now check.now) }
{
    let Some(found) = acting(policy, check) else {
        return Ok(Reason::Ungoverned);
    };
    let directive = found.name;
    let displaced = displacement(check, directive, &found.directive.sources);
    if let Some(by) = allowance(&policy.origin, check, displaced.is_none(), &found) {
        return Ok(Reason::Allows { directive, by });
    }
    let near = near_tokens(alloc, &policy.origin, check, displaced, &found)?;
    Ok(Reason::Blocks { directive, near })
}

// What governs the check, but for the sandbox of a policy that only reports.
fn acting<'a>(policy: &'a Policy, check: &Check) -> Option<Governor<'a>>
    ensures { option_map shown result ≡ spec.acting policy.now check.now }
{
    if asks_sandbox(check) && policy.disposition == Disposition::Report {
        return None;
    }
    governor(policy, effective_name(check))
}

fn asks_sandbox(check: &Check) -> bool
    ensures { result ≡ spec.asks_sandbox check.now }
{
    matches!(check, Check::Capability { .. } | Check::WorkerStart)
}
