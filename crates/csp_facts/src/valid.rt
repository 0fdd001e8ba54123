//! Which atoms are valid, and what they speak of.
ghost use Rattle.std.specs.Prelude.{◌≡◌, ◌↔◌, ◌<◌, ◌^◌, true, IsNone, IsTrue};
ghost use Rattle.csp_model.specs.Schemes.{scheme_named};
ghost use Rattle.csp_model.specs.Validity as validity;
ghost use Rattle.csp_facts.specs.Atoms as spec;

use crate::atom::Atom;
use csp_model::{
    Algorithm, CheckPart, Digest, Host, Path, Scheme, is_address, is_base64_value, is_domain,
    is_lower_scheme,
};

impl Atom {
    /// Whether the atom is valid: a check can be as it says, and a proof can spell it.
    pub fn is_valid(&self) -> bool
        ensures { (result ≡ true) ↔ spec.IsValidAtom self.now }
    {
        match self {
            Atom::HostIs(host) => is_valid_host(host),
            Atom::HostUnder(suffix) => is_domain(suffix.as_str()),
            Atom::PathIs(path) | Atom::PathUnder(path) => is_valid_path(path),
            Atom::SchemeIs(scheme) => is_plain_scheme(scheme.as_str()),
            Atom::NonceIs(value) => is_base64_value(value.as_str().as_bytes()),
            Atom::IntegrityHas(hash) => is_base64_value(hash.value.as_str().as_bytes()),
            Atom::PortIs(port) => is_port(*port),
            Atom::DigestIs(digest) => is_valid_digest(digest),
            Atom::HostDomain | Atom::IntegrityOutside => true,
        }
    }

    /// The part of a check that the atom speaks of.
    pub fn part(&self) -> CheckPart
        ensures { result ≡ spec.part_of self.now }
    {
        match self {
            Atom::HostIs(_) | Atom::HostUnder(_) | Atom::HostDomain => CheckPart::Host,
            Atom::PortIs(_) => CheckPart::Port,
            Atom::PathIs(_) | Atom::PathUnder(_) => CheckPart::Path,
            Atom::SchemeIs(_) => CheckPart::PlainScheme,
            Atom::NonceIs(_) => CheckPart::Nonce,
            Atom::IntegrityHas(_) | Atom::IntegrityOutside => CheckPart::Integrity,
            Atom::DigestIs(Digest::Sha256(_)) => CheckPart::Digest(Algorithm::Sha256),
            Atom::DigestIs(Digest::Sha384(_)) => CheckPart::Digest(Algorithm::Sha384),
            Atom::DigestIs(Digest::Sha512(_)) => CheckPart::Digest(Algorithm::Sha512),
        }
    }
}

fn is_valid_host(host: &Host) -> bool
    ensures { (result ≡ true) ↔ validity.IsValidHost host.now }
{
    match host {
        Host::Domain(text) => is_domain(text.as_str()),
        Host::Address(text) => is_address(text.as_str()),
    }
}

fn is_valid_path(path: &Path) -> bool
    ensures { (result ≡ true) ↔ spec.IsValidPath path.now }
{
    !path.is_empty() && !path.has_dot_segment()
}

// Whether a URL without a host can have this scheme.
fn is_plain_scheme(text: &str) -> bool
    ensures { (result ≡ true)
        ↔ (IsTrue (validity.is_lower_scheme text.now) × IsNone (scheme_named text.now)) }
{
    is_lower_scheme(text) && Scheme::from_name(text).is_none()
}

// Each number of 16 bits is a port.
fn is_port(port: u16) -> bool
    ensures value { result ≡ true }
    ensures fits { port < 2 ^ 16 }
{
    true
}

fn is_of_size(bytes: &[u8], size: usize) -> bool
    ensures { (result ≡ true) ↔ validity.IsOfSize size bytes.now }
{
    bytes.len() == size
}

fn is_valid_digest(digest: &Digest) -> bool
    ensures { (result ≡ true) ↔ spec.IsValidDigest digest.now }
{
    match digest {
        Digest::Sha256(bytes) => is_of_size(bytes, 32),
        Digest::Sha384(bytes) => is_of_size(bytes, 48),
        Digest::Sha512(bytes) => is_of_size(bytes, 64),
    }
}
