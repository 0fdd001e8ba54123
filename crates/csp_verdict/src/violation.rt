//! The violations of a request.
ghost use Rattle.std.specs.Prelude.{◌≡◌, ◌≤◌, ◌++◌, ◌∷◌, [], not, IfOk, OnOk, length, map};
ghost use Rattle.std.specs.List.{filter_map};
ghost use Rattle.csp_model.specs.Policies.{policy_limit};
ghost use Rattle.csp_model.specs.Verdict as spec;
ghost use Rattle.csp_verdict.specs.Listed.{list_of};
ghost use Rattle.csp_verdict.specs.Reported.{violation_at};

use crate::item::{Judge, push_items};
use csp_model::{Check, Described, Duplicate, Item, List, Memory, PolicyList, Text, Violation};
use std::alloc::Global;

/// The violations of a described request under a list of at most 64 policies (Content Security Policy Level
/// 3, section 5): in order one for each item of its verdict, report-only ones too, but none for an item of a
/// sandbox.
///
/// Each has the description's blocked URI and the text of the item's policy. It has the description's sample
/// where the check is of inline code or style or of an evaluated string and the directive that governs it has
/// `'report-sample'`; else its sample is empty.
pub fn violations(
    alloc: Global,
    list: &PolicyList,
    described: &Described,
) -> Result<List<Violation>, Memory>
    requires { length list.now.policies ≤ policy_limit }
    ensures violations { IfOk result (λ made. made ≡ spec.violations_of list.now described.now) }
{
    violations_of(alloc, list.policies.as_slice(), described)
}

// The violations of a request under these policies.
pub(crate) fn violations_of<P: Judge>(
    alloc: Global,
    policies: &[P],
    described: &Described,
) -> Result<List<Violation>, Memory>
    requires { length policies.now ≤ policy_limit }
    ensures { IfOk result (λ made.
        made ≡ spec.violations_of (list_of (map P.seen policies.now)) described.now) }
{
    let mut found = List::new(alloc);
    for check in described.checks.as_slice() {
        if push_violations(alloc, &mut found, policies, described, check)? {
            return Ok(found);
        }
    }
    Ok(found)
}

// Adds the violations of a check. Answers whether the policies block it.
fn push_violations<P: Judge>(
    alloc: Global,
    found: &mut List<Violation>,
    policies: &[P],
    described: &Described,
    check: &Check,
) -> Result<bool, Memory>
    requires { length policies.now ≤ policy_limit }
    ensures found { OnOk result (found.new ≡ found.old
        ++ spec.check_violations (list_of (map P.seen policies.now)) described.now check.now) }
    ensures blocked { IfOk result (λ blocked. blocked
        ≡ not (spec.list_allows (list_of (map P.seen policies.now)) check.now)) }
{
    let mut items = List::new(alloc);
    let blocked = push_items(&mut items, policies, check)?;
    if is_reported(check) {
        push_reported(alloc, found, policies, described, check, items.as_slice())?;
    }
    Ok(blocked)
}

// Adds the violation for each item of a check.
fn push_reported<P: Judge>(
    alloc: Global,
    found: &mut List<Violation>,
    policies: &[P],
    described: &Described,
    check: &Check,
    items: &[Item],
) -> Result<(), Memory>
    ensures { OnOk result (found.new ≡ found.old
        ++ filter_map (violation_at (map P.seen policies.now) described.now check.now) items.now) }
{
    for item in items {
        push_violation(alloc, found, policies, described, check, item)?;
    }
    Ok(())
}

// Adds the violation for an item of a check.
fn push_violation<P: Judge>(
    alloc: Global,
    found: &mut List<Violation>,
    policies: &[P],
    described: &Described,
    check: &Check,
    item: &Item,
) -> Result<(), Memory>
    ensures { OnOk result (found.new ≡ found.old
        ++ filter_map (violation_at (map P.seen policies.now) described.now check.now) (item.now ∷ [])) }
{
    if let Some(policy) = policies.get(item.policy as usize) {
        found.push(violation_of(alloc, described, check, item, policy)?)?;
    }
    Ok(())
}

// The violation of this policy for an item of a check.
fn violation_of<P: Judge>(
    alloc: Global,
    described: &Described,
    check: &Check,
    item: &Item,
    policy: &P,
) -> Result<Violation, Memory>
    ensures { IfOk result (λ made.
        made ≡ spec.violation_of described.now check.now item.now (P.seen policy.now)) }
{
    let sample = if policy.is_sampled(check) {
        described.sample.as_str()
    } else {
        ""
    };
    Ok(Violation {
        disposition: item.disposition,
        effective: item.effective,
        blocked_uri: described.blocked_uri.copy(alloc)?,
        sample: Text::new(alloc, sample)?,
        policy: policy.text(alloc)?,
    })
}

// Whether what doesn't allow the check makes a report.
fn is_reported(check: &Check) -> bool
    ensures { result ≡ spec.is_reported check.now }
{
    !matches!(check, Check::Capability { .. } | Check::WorkerStart)
}

// Whether a report about the check may show a sample.
pub(crate) fn has_sample(check: &Check) -> bool
    ensures { result ≡ spec.has_sample check.now }
{
    matches!(check, Check::Inline { .. } | Check::Eval)
}
