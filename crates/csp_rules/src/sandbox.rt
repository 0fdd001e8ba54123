//! Sandboxes (Content Security Policy Level 3, section 6.3.2; HTML Standard, section 7.1.5).
ghost use Rattle.std.specs.Prelude.{◌≡◌, ◌↔◌, ◌++◌, codes, IsTrue};
ghost use Rattle.std.specs.List.{list_any};
ghost use Rattle.std.specs.Str.{bytes_eq};
ghost use Rattle.csp_model.specs.Ascii.{lower};
ghost use Rattle.csp_model.specs.DecideNavigation as spec;
ghost use Rattle.csp_model.specs.DecideGoverning.{where_governed};
ghost use Rattle.csp_model.specs.Names.{capability_text};
ghost use Rattle.csp_model.specs.declared.name.Name.TheVariants.{Sandbox};
ghost use Rattle.csp_model.specs.Navigation.{CapabilityAllows, WorkerStartAllows, capability_tokens};

use csp_match::governor;
use csp_model::{Capability, Disposition, List, Name, Policy, Text};

/// Whether a policy leaves a document a capability. A policy that only reports does, and so does one without
/// `sandbox`; another one where a token of its `sandbox` grants the capability: `allow-` and its name, in
/// letters of either case. `allow-top-navigation` grants navigations of the top by a user's activation too.
#[tactic(auto, using(csp_model::proofs::NavigationDecided::capability_decides))]
pub fn capability_allows(policy: &Policy, capability: Capability) -> bool
    ensures value { result ≡ spec.capability_allows policy.now capability }
    ensures allows { IsTrue result ↔ CapabilityAllows policy.now capability }
{
    policy.disposition == Disposition::Report || sandbox_grants(policy, capability)
}

/// Whether a policy lets a worker start: where it leaves scripts and the document's origin, as
/// `capability_allows` says.
#[tactic(auto, using(csp_model::proofs::NavigationDecided::worker_start_decides))]
pub fn worker_start_allows(policy: &Policy) -> bool
    ensures value { result ≡ spec.worker_start_allows policy.now }
    ensures allows { IsTrue result ↔ WorkerStartAllows policy.now }
{
    policy.disposition == Disposition::Report
        || (sandbox_grants(policy, Capability::Scripts)
            && sandbox_grants(policy, Capability::SameOrigin))
}

// Whether the policy has no sandbox, or one that grants the capability.
fn sandbox_grants(policy: &Policy, capability: Capability) -> bool
    ensures { result ≡ where_governed policy.now Sandbox (λ g. spec.grants g.directive.tokens capability) }
{
    match governor(policy, Name::Sandbox) {
        None => true,
        Some(found) => grants(&found.directive.tokens, capability),
    }
}

// Whether a token grants the capability.
fn grants(tokens: &List<Text>, capability: Capability) -> bool
    ensures { result ≡ spec.grants tokens.now capability }
{
    tokens
        .as_slice()
        .iter()
        .any(|token| token_grants(token.as_str(), capability))
}

/// Whether a token of a `sandbox` grants a capability, as `capability_allows` says.
pub fn token_grants(token: &str, capability: Capability) -> bool
    ensures { result ≡ list_any (λ t. bytes_eq t (lower token.now)) (capability_tokens capability) }
{
    if capability == Capability::TopNavigationByUserActivation {
        is_token_of(token, capability) || is_token_of(token, Capability::TopNavigation)
    } else {
        is_token_of(token, capability)
    }
}

// Whether the token is `allow-` and the capability's name, in letters of either case.
fn is_token_of(token: &str, capability: Capability) -> bool
    ensures { result ≡ bytes_eq (codes "allow-" ++ capability_text capability) (lower token.now) }
{
    sandbox_token(capability).eq_ignore_ascii_case(token)
}

fn sandbox_token(capability: Capability) -> &'static str
    ensures { lower result.now ≡ codes "allow-" ++ capability_text capability }
{
    match capability {
        Capability::Forms => "allow-forms",
        Capability::Scripts => "allow-scripts",
        Capability::SameOrigin => "allow-same-origin",
        Capability::Popups => "allow-popups",
        Capability::PopupsToEscapeSandbox => "allow-popups-to-escape-sandbox",
        Capability::TopNavigation => "allow-top-navigation",
        Capability::TopNavigationByUserActivation => "allow-top-navigation-by-user-activation",
        Capability::Modals => "allow-modals",
        Capability::PointerLock => "allow-pointer-lock",
        Capability::OrientationLock => "allow-orientation-lock",
        Capability::Presentation => "allow-presentation",
        Capability::Downloads => "allow-downloads",
    }
}
