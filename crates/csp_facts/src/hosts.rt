//! How suffixes lie under one another.
ghost use Rattle.std.specs.Prelude.{◌≡◌};
ghost use Rattle.csp_facts.specs.Follows as spec;

use csp_model::is_subdomain;

// Whether a domain is the suffix or lies under it.
pub(crate) fn lies_within(domain: &str, suffix: &str) -> bool
    ensures { result ≡ spec.lies_within domain.now suffix.now }
{
    domain == suffix || is_subdomain(domain, suffix)
}
