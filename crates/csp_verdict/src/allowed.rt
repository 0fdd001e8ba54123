//! Whether a policy, or a list of policies, allows a check.
ghost use Rattle.std.specs.Prelude.{◌≡◌, ◌↔◌, ◌||◌, not, IsTrue};
ghost use Rattle.std.specs.List.{list_all};
ghost use Rattle.csp_model.specs.Laws.{EnforcedAllow};
ghost use Rattle.csp_model.specs.DecideVerdict as tests;
ghost use Rattle.csp_model.specs.Verdict as spec;
ghost use Rattle.csp_model.specs.Verdict.{Allows};

use csp_model::{Check, Disposition, Policy, PolicyList};
use csp_rules::{
    ancestor_allows, base_allows, capability_allows, eval_allows, fetch_allows, form_allows,
    inline_allows, opaque_ancestor_allows, wasm_allows, worker_start_allows,
};

/// Whether a policy allows a check, whatever its disposition. Only a `sandbox` that isn't enforced allows
/// everything.
#[tactic(auto, using(csp_model::proofs::VerdictDecided::allows_decides))]
pub fn allows(policy: &Policy, check: &Check) -> bool
    ensures value { result ≡ tests.allows policy.now check.now }
    ensures allows { IsTrue result ↔ Allows policy.now check.now }
{
    match check {
        Check::Fetch {
            group,
            url,
            redirects,
            nonce,
            integrity,
            parser_inserted,
        } => fetch_allows(
            policy,
            *group,
            url,
            *redirects,
            nonce,
            integrity,
            *parser_inserted,
        ),
        Check::Inline {
            kind,
            nonce,
            digests,
        } => inline_allows(policy, *kind, nonce, digests),
        Check::Eval => eval_allows(policy),
        Check::Wasm => wasm_allows(policy),
        Check::Base { url } => base_allows(policy, url),
        Check::Form { url, redirects } => form_allows(policy, url, *redirects),
        Check::Ancestor { url } => ancestor_allows(policy, url),
        Check::OpaqueAncestor => opaque_ancestor_allows(policy),
        Check::Capability { capability } => capability_allows(policy, *capability),
        Check::WorkerStart => worker_start_allows(policy),
    }
}

/// Whether a list of policies allows a check: each of its enforced policies does.
pub fn list_allows(list: &PolicyList, check: &Check) -> bool
    ensures value { result ≡ spec.list_allows list.now check.now }
    ensures each { IsTrue result ↔ EnforcedAllow list.now check.now }
{
    each_enforced_allows(list.policies.as_slice(), check)
}

fn each_enforced_allows(policies: &[Policy], check: &Check) -> bool
    ensures { result
        ≡ list_all (λ p. not (spec.is_enforce p.disposition) || tests.allows p check.now) policies.now }
{
    policies.iter().all(|policy| enforced_allows(policy, check))
}

fn enforced_allows(policy: &Policy, check: &Check) -> bool
    ensures { result ≡ (not (spec.is_enforce policy.now.disposition) || tests.allows policy.now check.now) }
{
    policy.disposition != Disposition::Enforce || allows(policy, check)
}
