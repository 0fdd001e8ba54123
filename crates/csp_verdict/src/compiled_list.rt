//! Lists of policies made ready for many requests.
ghost use Rattle.std.specs.Prelude.{◌≡◌, ◌≤◌, not, IfOk, length};
ghost use Rattle.csp_model.specs.Policies.{policy_limit};
ghost use Rattle.csp_model.specs.Verdict as spec;
ghost use Rattle.csp_verdict.specs.Algorithms.{algorithms_of};

use crate::algorithms::named_algorithms;
use crate::compiled_policy::CompiledPolicy;
use crate::verdict::verdict_of;
use crate::violation::violations_of;
use csp_model::{Described, List, Memory, Policy, PolicyList, Verdict, Violation};
use csp_token::Algorithms;
use std::alloc::Global;
use std::marker::Model;

/// A list of policies made ready for many requests: which directive governs is known for each policy and each
/// directive that a check can ask for, and each governing source list has an index. It is seen as the list.
#[derive(Drop)]
pub struct CompiledList<'a> {
    policies: Vec<CompiledPolicy<'a>>,
    algorithms: Algorithms,
}

impl<'a> Model for CompiledList<'a> {
    ghost use Rattle.std.specs.Prelude.{◌≡◌, ◌≤◌, length};
    ghost use Rattle.csp_model.specs.Policies.{policy_limit};
    ghost use Rattle.csp_model.specs.declared.policy.PolicyList.{PolicyList as PolicyListValue};
    ghost use Rattle.csp_verdict.specs.Algorithms.{algorithms_of};
    ghost use Rattle.csp_verdict.specs.Listed.{list_of};

    ghost Value = { PolicyListValue };

    ghost view = { λ a. list_of a.policies.items };

    ghost invariant = { λ a. (length a.policies.items ≤ policy_limit)
        × (a.algorithms ≡ algorithms_of (list_of a.policies.items)) };
}

impl<'a> CompiledList<'a> {
    /// Makes a list of at most 64 policies ready. Nothing of it is copied.
    pub fn new(alloc: Global, list: &'a PolicyList) -> Result<CompiledList<'a>, Memory>
        requires { length list.now.policies ≤ policy_limit }
        ensures list { IfOk result (λ made. made ≡ list.now) }
    {
        let policies = compile_all(alloc, list.policies.as_slice(), false)?;
        let algorithms = named_algorithms(list.policies.as_slice());
        Ok(CompiledList {
            policies,
            algorithms,
        })
    }

    /// Makes a list of at most 64 policies ready, as `new` does, and keeps each policy's text too. So
    /// `violations` copies it where else it prints the policy for each violation.
    pub fn for_reports(alloc: Global, list: &'a PolicyList) -> Result<CompiledList<'a>, Memory>
        requires { length list.now.policies ≤ policy_limit }
        ensures list { IfOk result (λ made. made ≡ list.now) }
    {
        let policies = compile_all(alloc, list.policies.as_slice(), true)?;
        let algorithms = named_algorithms(list.policies.as_slice());
        Ok(CompiledList {
            policies,
            algorithms,
        })
    }

    /// The verdict of the list on a described request, as `judge` says. No source list is gone through: what
    /// is asked of one is asked of its index.
    pub fn judge(&self, alloc: Global, described: &Described) -> Result<Verdict, Memory>
        ensures verdict { IfOk result (λ made. made ≡ spec.verdict_of self.now described.now.checks) }
        ensures blocked { IfOk result (λ made.
            made.blocked ≡ not (spec.allows_all self.now described.now.checks)) }
    {
        verdict_of(alloc, self.policies.as_slice(), described.checks.as_slice())
    }

    /// The violations of a described request under the list, as the function `violations` says.
    pub fn violations(
        &self,
        alloc: Global,
        described: &Described,
    ) -> Result<List<Violation>, Memory>
        ensures violations { IfOk result (λ made. made ≡ spec.violations_of self.now described.now) }
    {
        violations_of(alloc, self.policies.as_slice(), described)
    }

    /// The algorithms that some hash-source of the list's policies has. No other digest of inline code or
    /// style makes a difference to its verdict: `laws::only_named_algorithms_count` says so.
    pub fn algorithms(&self) -> Algorithms
        ensures algorithms { result ≡ algorithms_of self.now }
    {
        self.algorithms
    }
}

// Each policy, made ready, with its text where that is wanted.
fn compile_all<'a>(
    alloc: Global,
    policies: &'a [Policy],
    are_printed: bool,
) -> Result<Vec<CompiledPolicy<'a>>, Memory>
    ensures { IfOk result (λ made. made.items ≡ policies.now) }
{
    let mut made = Vec::new(alloc);
    for policy in policies {
        made.push(CompiledPolicy::new(alloc, policy, are_printed)?)?;
    }
    Ok(made)
}
