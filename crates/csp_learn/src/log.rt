//! Learns a policy from a log that is there as a whole.
ghost use Rattle.std.specs.Prelude.{◌≡◌, ◌≢◌, ◌<◌, ◌≤◌, ◌^◌, All, Any, IfOk, OnOk, length};
ghost use Rattle.std.specs.List.Sorted.{IsStrictlySortedBy};
ghost use Rattle.csp_model.specs.Validity.{IsValidCheck, IsValidOrigin};
ghost use Rattle.csp_model.specs.declared.verdict.Described.{Described as Request};
ghost use Rattle.csp_learn.specs.Allowed.{AllowsTheLog, AllowsWhatIsNeeded};
ghost use Rattle.csp_learn.specs.Logs as logs;
ghost use Rattle.csp_learn.specs.Needs as spec;
ghost use Rattle.csp_learn.specs.Policies.{policy_for};
ghost use Rattle.csp_learn.specs.Printed.{ReadsBack};

use crate::error::LearnError;
use crate::laws::{
    a_learnt_policy_allows_its_log, a_learnt_policy_allows_what_is_needed,
    a_learnt_policy_reads_back,
};
use crate::learning::Learning;
use crate::learnt::Learnt;
use csp_model::{Described, List, Origin};
use std::alloc::Global;

/// The policy of this origin that the fetches of a log need, and the fetches that no source can name.
///
/// A fetch needs a source of its effective directive (Content Security Policy Level 3, section 6.8.1): the
/// scheme, the very host and the port of its URL, or its scheme alone where the URL has no host. A source can
/// name a host of letters, digits, `-` and dots, where its token has at most 4,096 bytes. Whatever isn't a
/// fetch is passed over. `TooManySources` comes exactly where more than 1,023 sources are needed.
pub fn learn(
    alloc: Global,
    descriptions: &List<Described>,
    origin: &Origin,
) -> Result<Learnt, LearnError>
    requires valid { All (λ (d : Request). All IsValidCheck d.checks) descriptions.now }
    requires few { length descriptions.now ≤ logs.log_limit }
    requires short { All (λ (d : Request). Any logs.IsFetch d.checks → length d.checks < 2 ^ 32)
        descriptions.now }
    ensures policy { IfOk result
        (λ learnt. learnt.policy ≡ policy_for origin.now (spec.needs_of (logs.checks_of descriptions.now))) }
    ensures left { IfOk result (λ learnt. learnt.left ≡ logs.left_of descriptions.now) }

    // What the policy allows.
    ensures allows { IfOk result
        (λ learnt. AllowsWhatIsNeeded (logs.checks_of descriptions.now) learnt.policy) }
    ensures allows_log { IfOk result
        (λ learnt. AllowsTheLog (logs.checks_of descriptions.now) learnt.policy) }

    // How it prints.
    ensures back { IsValidOrigin origin.now → IfOk result
        (λ learnt. ReadsBack origin.now learnt.policy) }

    // When too many sources are needed: each of them is counted once.
    ensures once { result ≢ Err LearnError.Memory
        → IsStrictlySortedBy spec.need_cmp (spec.needs_of (logs.checks_of descriptions.now)) }
    ensures few { OnOk result
        (length (spec.needs_of (logs.checks_of descriptions.now)) ≤ spec.need_limit) }
    ensures many { result ≡ Err LearnError.TooManySources
        → spec.need_limit < length (spec.needs_of (logs.checks_of descriptions.now)) }
{
    let mut learning = Learning::new(alloc);
    let mut request = 0;
    for described in descriptions.as_slice() {
        request += 1;
        learning.push(alloc, request, described)?;
    }
    a_learnt_policy_allows_what_is_needed();
    a_learnt_policy_allows_its_log();
    a_learnt_policy_reads_back();
    learning.finish(alloc, origin)
}
