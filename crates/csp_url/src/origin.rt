//! Reads origins.
ghost use Rattle.std.specs.Prelude.{◌≡◌, IfOk, ok_or};
ghost use Rattle.csp_model.specs.Answers.{Gives};
ghost use Rattle.csp_model.specs.Validity.{IsValidOrigin};
ghost use Rattle.csp_url.specs.Origins as spec;

use crate::error::OriginError;
use crate::read::{parse, url_from};
use csp_model::{Memory, Origin, Scheme, Url};
use std::alloc::Global;

// The URL has no user name, password, query or fragment, and the path `/`.
fn is_bare(parsed: &url::Url) -> bool
    ensures { result ≡ spec.is_bare parsed.now }
{
    parsed.username().is_empty()
        && parsed.password().is_none()
        && parsed.path() == "/"
        && parsed.query().is_none()
        && parsed.fragment().is_none()
}

// The scheme is http or https.
fn is_web(scheme: Scheme) -> bool
    ensures { result ≡ spec.is_web scheme }
{
    matches!(scheme, Scheme::Http | Scheme::Https)
}

// The origin of a URL of http or https.
fn web_origin(url: Url) -> Option<Origin>
    ensures { result ≡ spec.web_origin url }
{
    match url {
        Url::Plain { .. } => None,
        Url::Hosted {
            scheme,
            host,
            port,
            ..
        } => {
            if is_web(scheme) {
                Some(Origin::Tuple { scheme, host, port })
            } else {
                None
            }
        }
    }
}

// The origin of a URL that says no more.
fn origin_from(alloc: Global, parsed: &url::Url) -> Result<Option<Origin>, Memory>
    ensures { IfOk result (λ origin. origin ≡ spec.origin_from parsed.now) }
{
    if !is_bare(parsed) {
        return Ok(None);
    }
    match url_from(alloc, parsed)? {
        None => Ok(None),
        Some(url) => Ok(web_origin(url)),
    }
}

// The origin that a text is.
fn origin_of(alloc: Global, text: &str) -> Result<Option<Origin>, Memory>
    ensures { IfOk result (λ origin. origin ≡ spec.origin_of text.now) }
{
    if text == "null" {
        return Ok(Some(Origin::Opaque));
    }
    match parse(alloc, text)? {
        None => Ok(None),
        Some(parsed) => origin_from(alloc, &parsed),
    }
}

/// The origin that a text is (URL Standard, section 4.7): `null`, or a URL of http or https that says no more
/// than its origin, with or without the `/` at its end.
///
/// `BadOrigin` comes where the text isn't `null` and isn't read as a URL, or its scheme isn't http or https,
/// or it has a user name, password, query or fragment, or its path, after parsing, isn't `/`. An empty query
/// or fragment is one (`https://a.example?`), an empty user name or password is none (`https://@a.example`).
pub fn read_origin(alloc: Global, text: &str) -> Result<Origin, OriginError>
    ensures origin { Gives OriginError.Memory result (ok_or (spec.origin_of text.now) OriginError.BadOrigin) }
    ensures valid { IfOk result IsValidOrigin }
{
    origin_of(alloc, text)?.ok_or(OriginError::BadOrigin)
}
