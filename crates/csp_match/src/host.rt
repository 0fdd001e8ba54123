//! Hosts (Content Security Policy Level 3, section 6.7.2, "host-part matches").
ghost use Rattle.std.specs.Prelude.{◌≡◌};
ghost use Rattle.csp_model.specs.DecideMatching as spec;

use csp_model::{Host, HostPart};

/// Whether a host-source's host matches a URL's. `*` and suffixes match domains alone, and an exact host the
/// domain or the address that is printed so.
pub fn host_matches(part: &HostPart, host: &Host) -> bool
    ensures { result ≡ spec.host_matches part.now host.now }
{
    match part {
        HostPart::Any => host.is_domain(),
        HostPart::Under(suffix) => host.is_under(suffix.as_str()),
        HostPart::Exact(text) => text.as_str() == host.as_str(),
    }
}
