//! The verdict on a request.
ghost use Rattle.std.specs.Prelude.{◌≡◌, ◌≤◌, not, IfOk, length, map};
ghost use Rattle.std.specs.List.{flat_map};
ghost use Rattle.csp_model.specs.Policies.{policy_limit};
ghost use Rattle.csp_model.specs.Verdict as spec;
ghost use Rattle.csp_verdict.specs.Listed.{list_of};

use crate::item::{Judge, has_enforced, push_items};
use csp_model::{Check, Described, Item, List, Memory, PolicyList, Verdict};
use std::alloc::Global;

/// The verdict of a list of at most 64 policies on a described request (Content Security Policy Level 3,
/// section 4.1.2).
///
/// The checks are judged in order, up to and with the first that the list blocks. The verdict has an item for
/// each policy that doesn't allow one of them, report-only ones too, in the order of the list; of a base URL
/// the items end with the first enforced one. The request is blocked where an item is of an enforced policy.
pub fn judge(alloc: Global, list: &PolicyList, described: &Described) -> Result<Verdict, Memory>
    requires { length list.now.policies ≤ policy_limit }
    ensures verdict { IfOk result (λ made. made ≡ spec.verdict_of list.now described.now.checks) }
    ensures blocked { IfOk result (λ made. made.blocked ≡ not (spec.allows_all list.now described.now.checks)) }
{
    verdict_of(alloc, list.policies.as_slice(), described.checks.as_slice())
}

// The verdict of these policies on these checks.
#[tactic(auto, using(csp_model::proofs::VerdictLaws::blocked_where_refused))]
pub(crate) fn verdict_of<P: Judge>(
    alloc: Global,
    policies: &[P],
    checks: &[Check],
) -> Result<Verdict, Memory>
    requires { length policies.now ≤ policy_limit }
    ensures verdict { IfOk result (λ made.
        made ≡ spec.verdict_of (list_of (map P.seen policies.now)) checks.now) }
    ensures blocked { IfOk result (λ made.
        made.blocked ≡ not (spec.allows_all (list_of (map P.seen policies.now)) checks.now)) }
{
    let items = judged_items(alloc, policies, checks)?;
    let blocked = has_enforced(items.as_slice());
    Ok(Verdict { blocked, items })
}

// The items of the checks up to and with the first that the policies block.
fn judged_items<P: Judge>(
    alloc: Global,
    policies: &[P],
    checks: &[Check],
) -> Result<List<Item>, Memory>
    requires { length policies.now ≤ policy_limit }
    ensures { IfOk result (λ items. items
        ≡ flat_map (spec.items_of (list_of (map P.seen policies.now)))
        (spec.judged_checks (list_of (map P.seen policies.now)) checks.now)) }
{
    let mut items = List::new(alloc);
    for check in checks {
        if push_items(&mut items, policies, check)? {
            return Ok(items);
        }
    }
    Ok(items)
}
