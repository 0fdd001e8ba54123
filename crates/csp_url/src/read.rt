//! Reads URLs.
ghost use Rattle.std.specs.Prelude.{◌≡◌, IfOk, ok_or};
ghost use Rattle.csp_model.specs.Answers.{Gives};
ghost use Rattle.csp_model.specs.Validity.{IsValidUrl};
ghost use Rattle.csp_url.specs.Reading as spec;

use crate::error::UrlError;
use crate::host::found_host;
use crate::path::found_path;
use csp_model::{Memory, Scheme, Text, Url, is_lower_scheme};
use std::alloc::Global;
use url::ParseError;

// The parts that parsing finds in a text. A URL that comes to 4 GB counts as want of memory.
pub(crate) fn parse(alloc: Global, text: &str) -> Result<Option<url::Url>, Memory>
    ensures { IfOk result (λ parts. parts ≡ spec.parts_of text.now) }
{
    match url::Url::parse(alloc, text) {
        Ok(parsed) => Ok(Some(parsed)),
        Err(ParseError::OutOfMemory) => Err(Memory),
        Err(ParseError::Overflow) => Err(Memory),
        Err(_) => Ok(None),
    }
}

// The port that parsing found, where it is valid.
fn found_port(scheme: Scheme, port: Option<u16>) -> Option<Option<u16>>
    ensures { result ≡ spec.found_port scheme port }
{
    match port {
        None => Some(None),
        Some(n) => {
            if n == scheme.default_port() {
                None
            } else {
                Some(Some(n))
            }
        }
    }
}

// The URL of a scheme that has hosts.
fn hosted_from(alloc: Global, scheme: Scheme, parsed: &url::Url) -> Result<Option<Url>, Memory>
    ensures { IfOk result (λ url. url ≡ spec.hosted_from scheme parsed.now) }
{
    let Some(host) = found_host(alloc, parsed)? else {
        return Ok(None);
    };
    let Some(port) = found_port(scheme, parsed.port()) else {
        return Ok(None);
    };
    let Some(path) = found_path(alloc, parsed.path().as_bytes())? else {
        return Ok(None);
    };
    Ok(Some(Url::Hosted {
        scheme,
        host,
        port,
        path,
    }))
}

// The URL of any other scheme.
fn plain_from(alloc: Global, scheme: &str) -> Result<Option<Url>, Memory>
    ensures { IfOk result (λ url. url ≡ spec.plain_from scheme.now) }
{
    if is_lower_scheme(scheme) {
        Ok(Some(Url::Plain {
            scheme: Text::new(alloc, scheme)?,
        }))
    } else {
        Ok(None)
    }
}

// The URL of the parts that parsing found, where they are valid.
pub(crate) fn url_from(alloc: Global, parsed: &url::Url) -> Result<Option<Url>, Memory>
    ensures { IfOk result (λ url. url ≡ spec.url_from parsed.now) }
{
    match Scheme::from_name(parsed.scheme()) {
        Some(scheme) => hosted_from(alloc, scheme, parsed),
        None => plain_from(alloc, parsed.scheme()),
    }
}

// The URL that a text is.
fn url_of(alloc: Global, text: &str) -> Result<Option<Url>, Memory>
    ensures { IfOk result (λ url. url ≡ spec.url_of text.now) }
{
    match parse(alloc, text)? {
        None => Ok(None),
        Some(parsed) => url_from(alloc, &parsed),
    }
}

/// The URL that a text is, parsed without a base (URL Standard, section 4.4). The standard's parser takes
/// much that isn't written as it should be: it trims spaces, drops tabs and newlines, lowers the scheme and
/// the host, and resolves `.` and `..`. A URL whose scheme isn't http, https, ws, wss or ftp is its scheme
/// alone. User name, password, query and fragment are left out.
///
/// `NotAUrl` comes where parsing fails, and where what it finds isn't valid here, such as a host with `%`. A
/// URL that comes to 4 GB counts as want of memory.
pub fn read_url(alloc: Global, text: &str) -> Result<Url, UrlError>
    ensures url { Gives UrlError.Memory result (ok_or (spec.url_of text.now) UrlError.NotAUrl) }
    ensures valid { IfOk result IsValidUrl }
{
    url_of(alloc, text)?.ok_or(UrlError::NotAUrl)
}
