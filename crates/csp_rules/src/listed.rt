//! The checks that a directive's list decides alone: base URLs, form submissions and ancestors.
ghost use Rattle.std.specs.Prelude.{◌≡◌, ◌↔◌, IsTrue};
ghost use Rattle.csp_model.specs.DecideNavigation as spec;
ghost use Rattle.csp_model.specs.Navigation.{BaseAllows, FormAllows, AncestorAllows, OpaqueAncestorAllows};

use csp_match::{governor, list_matches};
use csp_model::{Name, Policy, Url};

/// Whether a policy allows a base URL (Content Security Policy Level 3, section 6.3.1). Its path is compared.
#[tactic(auto, using(csp_model::proofs::NavigationDecided::base_decides))]
pub fn base_allows(policy: &Policy, url: &Url) -> bool
    ensures value { result ≡ spec.base_allows policy.now url.now }
    ensures allows { IsTrue result ↔ BaseAllows policy.now url.now }
{
    listed_allows(policy, Name::BaseUri, url, false)
}

/// Whether a policy allows a form submission, or a hop of one (section 6.4.1). After a redirect no path is
/// compared.
#[tactic(auto, using(csp_model::proofs::NavigationDecided::form_decides))]
pub fn form_allows(policy: &Policy, url: &Url, redirects: u32) -> bool
    ensures value { result ≡ spec.form_allows policy.now url.now redirects }
    ensures allows { IsTrue result ↔ FormAllows policy.now url.now redirects }
{
    listed_allows(policy, Name::FormAction, url, redirects != 0)
}

/// Whether a policy allows one ancestor of a frame, given by its origin as a URL with the path `/` (section
/// 6.4.2).
#[tactic(auto, using(csp_model::proofs::NavigationDecided::ancestor_decides))]
pub fn ancestor_allows(policy: &Policy, url: &Url) -> bool
    ensures value { result ≡ spec.ancestor_allows policy.now url.now }
    ensures allows { IsTrue result ↔ AncestorAllows policy.now url.now }
{
    listed_allows(policy, Name::FrameAncestors, url, false)
}

/// Whether a policy allows an ancestor whose origin is opaque: only one without `frame-ancestors` does, since
/// nothing matches such an origin (section 6.4.2).
#[tactic(auto, using(csp_model::proofs::NavigationDecided::opaque_ancestor_decides))]
pub fn opaque_ancestor_allows(policy: &Policy) -> bool
    ensures value { result ≡ spec.opaque_ancestor_allows policy.now }
    ensures allows { IsTrue result ↔ OpaqueAncestorAllows policy.now }
{
    governor(policy, Name::FrameAncestors).is_none()
}

// Whether the list that governs matches the URL, or none governs.
fn listed_allows(policy: &Policy, effective: Name, url: &Url, redirected: bool) -> bool
    ensures { result ≡ spec.listed_allows policy.now effective url.now redirected }
{
    match governor(policy, effective) {
        None => true,
        Some(found) => list_matches(&found.directive.sources, &policy.origin, url, redirected),
    }
}
