//! The atoms that a source speaks of, whatever the shape.
ghost use Rattle.std.specs.Prelude.{◌≡◌, IfOk};
ghost use Rattle.csp_answer.specs.Naming as spec;

use csp_facts::Atom;
use csp_formula::source_digest;
use csp_model::{
    Duplicate, Host, HostPart, Keyword, Memory, Origin, PathPart, PortPart, Scheme, Source, Text,
    is_domain, is_four_numbers,
};
use std::alloc::Global;

// The atom of the port that a source names, where it names one.
pub(crate) fn port_atom(source: &Source) -> Option<Atom>
    ensures { result ≡ spec.port_atom source.now }
{
    match source {
        Source::Hosted {
            port: PortPart::Number(number),
            ..
        } => Some(Atom::PortIs(*number)),
        _ => None,
    }
}

// The atom of the port that an origin names, where it names one.
pub(crate) fn own_port(origin: &Origin) -> Option<Atom>
    ensures { result ≡ spec.own_port origin.now }
{
    match origin {
        Origin::Tuple {
            port: Some(number),
            ..
        } => Some(Atom::PortIs(*number)),
        _ => None,
    }
}

// The atom of the host, the scheme, the nonce or the pair of integrity metadata of a source, whose policy has
// this origin, unless no check has it.
pub(crate) fn lead_atom(
    alloc: Global,
    origin: &Origin,
    source: &Source,
) -> Result<Option<Atom>, Memory>
    ensures { IfOk result (λ made. made ≡ spec.lead_atom origin.now source.now) }
{
    match source {
        Source::SchemeOnly { scheme } => scheme_atom(alloc, scheme),
        Source::Hosted { host, .. } => host_atom(alloc, host),
        Source::Word {
            word: Keyword::SelfOrigin,
        } => own_atom(alloc, origin),
        Source::Nonce { value } => Ok(Some(Atom::NonceIs(value.copy(alloc)?))),
        Source::Digest { hash } => Ok(Some(Atom::IntegrityHas(hash.copy(alloc)?))),
        _ => Ok(None),
    }
}

// The atom of a source's path, or of the digest that it stands for, unless no check has it.
pub(crate) fn rest_atom(alloc: Global, source: &Source) -> Result<Option<Atom>, Memory>
    ensures { IfOk result (λ made. made ≡ spec.rest_atom source.now) }
{
    match source {
        Source::Hosted { path, .. } => path_atom(alloc, path),
        _ => Ok(digest_atom(source)),
    }
}

fn digest_atom(source: &Source) -> Option<Atom>
    ensures { result ≡ spec.digest_atom source.now }
{
    match source_digest(source) {
        Some(digest) => Some(Atom::DigestIs(digest)),
        None => None,
    }
}

// The scheme, unless it is one of the five, which a shape tells.
fn scheme_atom(alloc: Global, scheme: &Text) -> Result<Option<Atom>, Memory>
    ensures { IfOk result (λ made. made ≡ spec.scheme_atom scheme.now) }
{
    if Scheme::from_name(scheme.as_str()).is_some() {
        return Ok(None);
    }
    Ok(Some(Atom::SchemeIs(scheme.copy(alloc)?)))
}

fn host_atom(alloc: Global, part: &HostPart) -> Result<Option<Atom>, Memory>
    ensures { IfOk result (λ made. made ≡ spec.host_atom part.now) }
{
    match part {
        HostPart::Any => Ok(Some(Atom::HostDomain)),
        HostPart::Under(suffix) => suffix_atom(alloc, suffix),
        HostPart::Exact(text) => exact_atom(alloc, text),
    }
}

fn suffix_atom(alloc: Global, suffix: &Text) -> Result<Option<Atom>, Memory>
    ensures { IfOk result (λ made. made ≡ spec.suffix_atom suffix.now) }
{
    if is_domain(suffix.as_str()) {
        Ok(Some(Atom::HostUnder(suffix.copy(alloc)?)))
    } else {
        Ok(None)
    }
}

fn exact_atom(alloc: Global, text: &Text) -> Result<Option<Atom>, Memory>
    ensures { IfOk result (λ made. made ≡ spec.exact_atom text.now) }
{
    if is_domain(text.as_str()) {
        Ok(Some(Atom::HostIs(Host::Domain(text.copy(alloc)?))))
    } else if is_four_numbers(text.as_str()) {
        Ok(Some(Atom::HostIs(Host::Address(text.copy(alloc)?))))
    } else {
        Ok(None)
    }
}

// The host of an origin.
fn own_atom(alloc: Global, origin: &Origin) -> Result<Option<Atom>, Memory>
    ensures { IfOk result (λ made. made ≡ spec.own_atom origin.now) }
{
    match origin {
        Origin::Tuple { host, .. } => Ok(Some(Atom::HostIs(host.copy(alloc)?))),
        Origin::Opaque => Ok(None),
    }
}

fn path_atom(alloc: Global, part: &PathPart) -> Result<Option<Atom>, Memory>
    ensures { IfOk result (λ made. made ≡ spec.path_atom part.now) }
{
    match part {
        PathPart::Absent => Ok(None),
        PathPart::Exact(path) => {
            if path.has_dot_segment() {
                Ok(None)
            } else {
                Ok(Some(Atom::PathIs(path.copy(alloc)?)))
            }
        }
        PathPart::Prefix(front) => {
            if front.has_dot_segment() || front.is_empty() {
                Ok(None)
            } else {
                Ok(Some(Atom::PathUnder(front.copy(alloc)?)))
            }
        }
    }
}
