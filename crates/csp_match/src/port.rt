//! Ports (Content Security Policy Level 3, section 6.7.2, "port-part matches").
ghost use Rattle.std.specs.Prelude.{◌≡◌};
ghost use Rattle.csp_model.specs.DecideMatching as spec;

use csp_model::{PortPart, Scheme};

/// Whether a host-source's port matches a URL's, which is None where it is its scheme's default.
pub fn port_matches(part: PortPart, port: Option<u16>, scheme: Scheme) -> bool
    ensures { result ≡ spec.port_matches part port scheme }
{
    match part {
        PortPart::Absent => port.is_none(),
        PortPart::Any => true,
        PortPart::Number(number) => port.unwrap_or(scheme.default_port()) == number,
        PortPart::TooLarge => false,
    }
}
