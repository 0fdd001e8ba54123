//! The items of a verdict: the policies that don't allow a check.
ghost use Rattle.std.specs.Prelude.{◌≡◌, ◌≤◌, ◌++◌, not, IfOk, OnOk, length, map};
ghost use Rattle.std.specs.List.{list_any};
ghost use Rattle.csp_model.specs.Policies as policies;
ghost use Rattle.csp_model.specs.Policies.{policy_limit};
ghost use Rattle.csp_model.specs.Verdict as spec;
ghost use Rattle.csp_model.specs.declared.policy.Policy.{Policy as PolicyValue};
ghost use Rattle.csp_verdict.specs.Listed.{list_of};
ghost use Rattle.csp_verdict.specs.Stops.{stops};

use crate::allowed::allows;
use crate::violation::has_sample;
use csp_match::governor;
use csp_model::{Check, Disposition, Item, Keyword, List, Memory, Name, Policy, Text};
use csp_policy::policy_text;
use csp_token::Tokens;
use std::alloc::Global;

// A policy, or what was made of one, that can be asked for the item of a check and for what reports say.
pub(crate) trait Judge {
    ghost seen: { Self → PolicyValue };

    // The item of the policy of this number, where it doesn't allow the check.
    fn item_of(&self, number: u32, check: &Check) -> Option<Item>
        ensures { result ≡ spec.item_of number (seen self.now) check.now };

    // Whether a report about the check shows a sample.
    fn is_sampled(&self, check: &Check) -> bool
        ensures { result ≡ spec.is_sampled (seen self.now) check.now };

    // The policy, printed.
    fn text(&self, alloc: Global) -> Result<Text, Memory>
        ensures { IfOk result (λ text. text ≡ policies.policy_text (seen self.now)) };
}

impl Judge for Policy {
    ghost seen = { λ p. p };

    fn item_of(&self, number: u32, check: &Check) -> Option<Item> {
        let effective = effective_name(check);
        let found = governor(self, effective)?;
        if allows(self, check) {
            return None;
        }
        Some(Item {
            policy: number,
            disposition: self.disposition,
            effective,
            governing: found.name,
        })
    }

    fn is_sampled(&self, check: &Check) -> bool {
        has_sample(check)
            && match governor(self, effective_name(check)) {
                Some(found) => found.directive.sources.has_keyword(Keyword::ReportSample),
                None => false,
            }
    }

    fn text(&self, alloc: Global) -> Result<Text, Memory> {
        policy_text(alloc, self)
    }
}

// Adds the items of a check: one for each policy that doesn't allow it, in order; for a base URL only those
// up to and with the first enforced one (section 6.3.1.1). Answers whether one is enforced, that is whether
// the list blocks the check.
pub(crate) fn push_items<P: Judge>(
    items: &mut List<Item>,
    policies: &[P],
    check: &Check,
) -> Result<bool, Memory>
    requires { length policies.now ≤ policy_limit }
    ensures items { OnOk result (items.new
        ≡ items.old ++ spec.items_of (list_of (map P.seen policies.now)) check.now) }
    ensures blocked { IfOk result (λ blocked. blocked
        ≡ not (spec.list_allows (list_of (map P.seen policies.now)) check.now)) }
{
    let stops = is_base(check);
    let mut blocked = false;
    for (number, policy) in policies.iter().enumerate() {
        let Some(item) = policy.item_of(number as u32, check) else {
            continue;
        };
        items.push(item)?;
        if is_enforced(&item) {
            if stops {
                return Ok(true);
            }
            blocked = true;
        }
    }
    Ok(blocked)
}

// Whether the check's items end with the first enforced one.
fn is_base(check: &Check) -> bool
    ensures { result ≡ stops check.now }
{
    matches!(check, Check::Base { .. })
}

/// The effective directive of a check: the one that a policy is asked for first (Content Security Policy Level 3,
/// sections 6.8.1 and 6.8.2).
pub fn effective_name(check: &Check) -> Name
    ensures { result ≡ spec.effective_name check.now }
{
    match check {
        Check::Fetch { group, .. } => group.directive(),
        Check::Inline { kind, .. } => kind.directive(),
        Check::Eval | Check::Wasm => Name::ScriptSrc,
        Check::Base { .. } => Name::BaseUri,
        Check::Form { .. } => Name::FormAction,
        Check::Ancestor { .. } | Check::OpaqueAncestor => Name::FrameAncestors,
        Check::Capability { .. } | Check::WorkerStart => Name::Sandbox,
    }
}

// Whether some item is of an enforced policy.
pub(crate) fn has_enforced(items: &[Item]) -> bool
    ensures { result ≡ list_any spec.is_enforced items.now }
{
    items.iter().any(is_enforced)
}

fn is_enforced(item: &Item) -> bool
    ensures { result ≡ spec.is_enforced item.now }
{
    item.disposition == Disposition::Enforce
}
