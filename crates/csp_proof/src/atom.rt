//! Reads atoms.
ghost use Rattle.std.specs.Prelude.{◌≡◌, IfOk, Some, None, codes};
ghost use Rattle.std.specs.Str.{bytes_eq};
ghost use Rattle.csp_proof.specs.Reading as spec;
ghost use Rattle.csp_proof.specs.Spelling.{atom_text};
ghost use Rattle.csp_url.specs.Parts.{url_of_parts};
ghost use Rattle.csp_url.specs.Reading as url_spec;

use crate::print::push_atom;
use crate::words::{cut, number_below};
use csp_facts::Atom;
use csp_model::{Algorithm, Digest, Hash, Host, Memory, Path, Text, Url, is_base64_value};
use csp_url::{PartsError, url_from_parts};
use hex::FromHex;
use std::alloc::Global;

// The host and the path of the URL of these parts.
fn parts_of(alloc: Global, host: &str, path: &str) -> Result<Option<(Host, Path)>, Memory>
    ensures { IfOk result (λ found. found
        ≡ spec.parts_from (url_of_parts (codes "https") (Some host.now) None path.now)) }
{
    match url_from_parts(alloc, "https", Some(host), None, path) {
        Ok(Url::Hosted { host, path, .. }) => Ok(Some((host, path))),
        Ok(Url::Plain { .. }) | Err(PartsError::Bad { .. }) => Ok(None),
        Err(PartsError::Memory) => Err(Memory),
    }
}

#[tactic(auto, using(crate::proofs::UrlParts::host_found))]
fn host_of(alloc: Global, text: &str) -> Result<Option<Host>, Memory>
    ensures { IfOk result (λ found. found ≡ url_spec.host_of text.now) }
{
    match parts_of(alloc, text, "/")? {
        Some((host, _)) => Ok(Some(host)),
        None => Ok(None),
    }
}

#[tactic(auto, using(crate::proofs::UrlParts::path_found))]
fn path_of(alloc: Global, text: &str) -> Result<Option<Path>, Memory>
    ensures { IfOk result (λ found. found ≡ url_spec.found_path text.now) }
{
    match parts_of(alloc, "a", text)? {
        Some((_, path)) => Ok(Some(path)),
        None => Ok(None),
    }
}

fn domain_of(alloc: Global, text: &str) -> Result<Option<Text>, Memory>
    ensures { IfOk result (λ found. found ≡ spec.domain_text text.now) }
{
    match host_of(alloc, text)? {
        Some(Host::Domain(domain)) => Ok(Some(domain)),
        _ => Ok(None),
    }
}

// A scheme in lower case that isn't one of those with hosts.

fn plain_scheme(alloc: Global, text: &str) -> Result<Option<Text>, Memory>
    ensures { IfOk result (λ found. found ≡ spec.plain_scheme text.now) }
{
    match url_from_parts(alloc, text, None, None, "/") {
        Ok(Url::Plain { scheme }) => Ok(Some(scheme)),
        Ok(Url::Hosted { .. }) | Err(PartsError::Bad { .. }) => Ok(None),
        Err(PartsError::Memory) => Err(Memory),
    }
}

fn base64_text(alloc: Global, text: &str) -> Result<Option<Text>, Memory>
    ensures { IfOk result (λ found. found ≡ spec.base64_text text.now) }
{
    if is_base64_value(text.as_bytes()) {
        Ok(Some(Text::new(alloc, text)?))
    } else {
        Ok(None)
    }
}

// The hash of an algorithm and a base64-value, with a space between them.
fn hash_of(alloc: Global, text: &str) -> Result<Option<Hash>, Memory>
    ensures { IfOk result (λ found. found ≡ spec.hash_in (spec.cut text.now)) }
{
    let Some((name, value)) = cut(text) else {
        return Ok(None);
    };
    let Some(algorithm) = Algorithm::from_name(name) else {
        return Ok(None);
    };
    match base64_text(alloc, value)? {
        Some(value) => Ok(Some(Hash { algorithm, value })),
        None => Ok(None),
    }
}

// The digest of the algorithm that hexadecimal digits, of whatever case, spell.
fn digest_by(algorithm: Algorithm, digits: &str) -> Option<Digest>
    ensures { result ≡ spec.digest_by algorithm digits.now }
{
    match algorithm {
        Algorithm::Sha256 => match <[u8; 32] as FromHex>::from_hex(digits) {
            Ok(bytes) => Some(Digest::Sha256(bytes)),
            Err(_) => None,
        },
        Algorithm::Sha384 => match <[u8; 48] as FromHex>::from_hex(digits) {
            Ok(bytes) => Some(Digest::Sha384(bytes)),
            Err(_) => None,
        },
        Algorithm::Sha512 => match <[u8; 64] as FromHex>::from_hex(digits) {
            Ok(bytes) => Some(Digest::Sha512(bytes)),
            Err(_) => None,
        },
    }
}

// The digest of an algorithm and hexadecimal digits, with a space between them.
fn digest_of(text: &str) -> Option<Digest>
    ensures { result ≡ spec.digest_in (spec.cut text.now) }
{
    let (name, digits) = cut(text)?;
    let algorithm = Algorithm::from_name(name)?;
    digest_by(algorithm, digits)
}

fn port_of(text: &str) -> Option<u16>
    ensures { result ≡ spec.number_below 65536 text.now }
{
    match number_below(65536, text) {
        Some(number) => Some(number as u16),
        None => None,
    }
}

// The atom of a word and what stands behind it.
#[tactic(auto, unfolding(crate::specs::Reading::atom_about))]
fn atom_about(alloc: Global, word: &str, value: &str) -> Result<Option<Atom>, Memory>
    ensures { IfOk result (λ found. found ≡ spec.atom_about word.now value.now) }
{
    match word {
        "host-is" => Ok(host_of(alloc, value)?.map(|host| Atom::HostIs(host))),
        "host-under" => Ok(domain_of(alloc, value)?.map(|suffix| Atom::HostUnder(suffix))),
        "port-is" => Ok(port_of(value).map(|port| Atom::PortIs(port))),
        "path-is" => Ok(path_of(alloc, value)?.map(|path| Atom::PathIs(path))),
        "path-under" => Ok(path_of(alloc, value)?.map(|path| Atom::PathUnder(path))),
        "scheme-is" => Ok(plain_scheme(alloc, value)?.map(|scheme| Atom::SchemeIs(scheme))),
        "nonce-is" => Ok(base64_text(alloc, value)?.map(|nonce| Atom::NonceIs(nonce))),
        "integrity-has" => Ok(hash_of(alloc, value)?.map(|hash| Atom::IntegrityHas(hash))),
        "digest-is" => Ok(digest_of(value).map(|digest| Atom::DigestIs(digest))),
        _ => Ok(None),
    }
}

// The atom of one word.
fn bare_atom(word: &str) -> Option<Atom>
    ensures { result ≡ spec.bare_atom word.now }
{
    match word {
        "host-domain" => Some(Atom::HostDomain),
        "integrity-outside" => Some(Atom::IntegrityOutside),
        _ => None,
    }
}

// The atom that a text means, in whatever spelling.
fn meant_atom(alloc: Global, text: &str) -> Result<Option<Atom>, Memory>
    ensures { IfOk result (λ found. found ≡ spec.meant_atom text.now) }
{
    match cut(text) {
        None => Ok(bare_atom(text)),
        Some((word, value)) => atom_about(alloc, word, value),
    }
}

fn is_spelled(alloc: Global, atom: &Atom, text: &str) -> Result<bool, Memory>
    ensures { IfOk result (λ same. same ≡ bytes_eq (atom_text atom.now) text.now) }
{
    let mut spelling = String::new(alloc);
    push_atom(alloc, &mut spelling, atom)?;
    Ok(spelling.as_str() == text)
}

// The atom that a text spells: the one that it means, where it is written as a proof writes it.
pub(crate) fn read_atom(alloc: Global, text: &str) -> Result<Option<Atom>, Memory>
    ensures { IfOk result (λ found. found ≡ spec.atom_of text.now) }
{
    let Some(atom) = meant_atom(alloc, text)? else {
        return Ok(None);
    };
    let spelled = is_spelled(alloc, &atom, text)?;
    Ok(if spelled { Some(atom) } else { None })
}
