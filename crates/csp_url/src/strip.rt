//! What a report shows of a URL.
ghost use Rattle.std.specs.Prelude.{◌≡◌, IfOk, Some, ok_or};
ghost use Rattle.csp_model.specs.Answers.{Gives};
ghost use Rattle.csp_model.specs.Validity.{IsValidUrl};
ghost use Rattle.csp_url.specs.Reading.{url_of};
ghost use Rattle.csp_url.specs.Texts as spec;

use crate::error::UrlError;
use crate::read::{parse, url_from};
use csp_model::{Memory, Text, Url};
use std::alloc::Global;
use url::Position;

/// A URL, and what a report shows of it.
#[derive(Drop)]
pub struct ShownUrl {
    pub url: Url,
    pub shown: Text,
}

// What a URL prints without user name, password and fragment.
fn bare_text(alloc: Global, parsed: &url::Url) -> Result<Text, Memory>
    ensures { IfOk result (λ shown. shown ≡ spec.bare_text parsed.now) }
{
    let head = parsed.slice(Position::BeforeScheme, Position::BeforeUsername);
    let mut text = String::from_str(alloc, head)?;
    text.push_str(parsed.slice(Position::BeforeHost, Position::AfterQuery))?;
    Ok(Text::from_string(text))
}

fn is_http(scheme: &str) -> bool
    ensures { result ≡ spec.is_http scheme.now }
{
    scheme == "http" || scheme == "https"
}

// What a report shows of a URL.
fn shown_text(alloc: Global, parsed: &url::Url) -> Result<Text, Memory>
    ensures { IfOk result (λ shown. shown ≡ spec.shown_text parsed.now) }
{
    if is_http(parsed.scheme()) {
        bare_text(alloc, parsed)
    } else {
        Text::new(alloc, parsed.scheme())
    }
}

// What a report shows of a URL that is valid here.
fn stripped_from(alloc: Global, parsed: &url::Url) -> Result<Option<Text>, Memory>
    ensures { IfOk result (λ shown. shown ≡ spec.stripped_from parsed.now) }
{
    match url_from(alloc, parsed)? {
        None => Ok(None),
        Some(_) => Ok(Some(shown_text(alloc, parsed)?)),
    }
}

// What a report shows of the URL that a text is.
fn stripped_of(alloc: Global, text: &str) -> Result<Option<Text>, Memory>
    ensures { IfOk result (λ shown. shown ≡ spec.stripped_of text.now) }
{
    match parse(alloc, text)? {
        None => Ok(None),
        Some(parsed) => stripped_from(alloc, &parsed),
    }
}

/// What a report shows of the URL that a text is (Content Security Policy Level 3, section 5.4): the scheme
/// alone where it isn't http or https, else the URL as the URL Standard prints it, without user name,
/// password and fragment. `NotAUrl` comes where `read_url` answers it.
pub fn strip_url(alloc: Global, text: &str) -> Result<Text, UrlError>
    ensures { Gives UrlError.Memory result (ok_or (spec.stripped_of text.now) UrlError.NotAUrl) }
{
    stripped_of(alloc, text)?.ok_or(UrlError::NotAUrl)
}

// The URL of the parts that parsing found, and what a report shows of it.
fn shown_url_from(alloc: Global, parsed: &url::Url) -> Result<Option<ShownUrl>, Memory>
    ensures { IfOk result (λ found. found ≡ spec.shown_url_from parsed.now) }
{
    match url_from(alloc, parsed)? {
        None => Ok(None),
        Some(url) => Ok(Some(ShownUrl {
            url,
            shown: shown_text(alloc, parsed)?,
        })),
    }
}

// The URL that a text is, and what a report shows of it.
fn shown_url_of(alloc: Global, text: &str) -> Result<Option<ShownUrl>, Memory>
    ensures { IfOk result (λ found. found ≡ spec.shown_url_of text.now) }
{
    match parse(alloc, text)? {
        None => Ok(None),
        Some(parsed) => shown_url_from(alloc, &parsed),
    }
}

/// The URL that a text is, as `read_url` says, and what a report shows of it, as `strip_url` says, for which
/// the text is parsed only once.
pub fn read_shown_url(alloc: Global, text: &str) -> Result<ShownUrl, UrlError>
    ensures url { Gives UrlError.Memory result (ok_or (spec.shown_url_of text.now) UrlError.NotAUrl) }
    ensures valid { IfOk result (λ found. IsValidUrl found.url) }
    ensures read { IfOk result (λ found. url_of text.now ≡ Some found.url) }
    ensures stripped { IfOk result (λ found. spec.stripped_of text.now ≡ Some found.shown) }
{
    shown_url_of(alloc, text)?.ok_or(UrlError::NotAUrl)
}
