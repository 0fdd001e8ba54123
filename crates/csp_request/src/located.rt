//! URLs in descriptions.
ghost use Rattle.std.specs.Prelude.{◌≡◌, IfOk, IfSome, option_copied};
ghost use Rattle.std.specs.Result.{result_ok};
ghost use Rattle.csp_json.specs.View.{view};
ghost use Rattle.csp_model.specs.Answers.{Gives};
ghost use Rattle.csp_model.specs.Validity.{IsValidUrl};
ghost use Rattle.csp_url.specs.Parts.{url_of_parts};
ghost use Rattle.csp_url.specs.Reading.{url_of};
ghost use Rattle.csp_url.specs.Texts.{shown_url_of};
ghost use Rattle.csp_request.specs.Members.{needed, optional, required};
ghost use Rattle.csp_request.specs.Urls as spec;

use crate::error::DescriptionError;
use crate::field::Field;
use crate::member::{needed_text, number_part, present, require, text_part};
use crate::texts::{ReportTexts, no_text};
use csp_json::Value;
use csp_model::{Memory, Scheme, Text, Url};
use csp_url::{PartsError, ShownUrl, UrlError, read_shown_url, read_url, url_from_parts, url_text};
use std::alloc::Global;

// The URL that a text is.
fn url_of_text(alloc: Global, field: Field, text: &str) -> Result<Url, DescriptionError>
    ensures url { Gives DescriptionError.Memory result (needed field (url_of text.now)) }
    ensures valid { IfOk result IsValidUrl }
{
    match read_url(alloc, text) {
        Ok(url) => Ok(url),
        Err(UrlError::NotAUrl) => Err(DescriptionError::Misused { field }),
        Err(UrlError::Memory) => Err(DescriptionError::Memory),
    }
}

// The URL that a text is, and what a report shows of it.
fn shown_url_of_text(alloc: Global, field: Field, text: &str) -> Result<ShownUrl, DescriptionError>
    ensures url { Gives DescriptionError.Memory result (needed field (shown_url_of text.now)) }
    ensures valid { IfOk result (λ there. IsValidUrl there.url) }
{
    match read_shown_url(alloc, text) {
        Ok(there) => Ok(there),
        Err(UrlError::NotAUrl) => Err(DescriptionError::Misused { field }),
        Err(UrlError::Memory) => Err(DescriptionError::Memory),
    }
}

// The URL of parts.
fn url_of_parts(
    alloc: Global,
    field: Field,
    scheme: &str,
    host: Option<&str>,
    port: Option<u32>,
    path: &str,
) -> Result<Url, DescriptionError>
    ensures url { Gives DescriptionError.Memory result
        (needed field (result_ok (url_of_parts scheme.now (option_copied host.entry) port path.now))) }
    ensures valid { IfOk result IsValidUrl }
{
    match url_from_parts(alloc, scheme, host, port, path) {
        Ok(url) => Ok(url),
        Err(PartsError::Bad { .. }) => Err(DescriptionError::Misused { field }),
        Err(PartsError::Memory) => Err(DescriptionError::Memory),
    }
}

// What a report shows of a URL in parts: its scheme where it isn't http or https, else its text.
fn shown_parts(alloc: Global, url: &Url) -> Result<Text, Memory>
    ensures { IfOk result (λ shown. shown ≡ spec.shown_parts url.now) }
{
    match url {
        Url::Plain { scheme } => Text::new(alloc, scheme.as_str()),
        Url::Hosted { scheme, .. } => match scheme {
            Scheme::Http | Scheme::Https => url_text(alloc, url),
            _ => Text::new(alloc, scheme.as_str()),
        },
    }
}

// A URL in parts: a scheme, and perhaps a host, a port and a path.
fn url_parts(alloc: Global, field: Field, value: &Value<'_>) -> Result<Url, DescriptionError>
    ensures url { Gives DescriptionError.Memory result (spec.url_parts field (view value.now)) }
    ensures valid { IfOk result IsValidUrl }
{
    let scheme = needed_text("scheme", field, value)?;
    let host = text_part("host", field, value)?;
    let port = number_part("port", 65535, field, value)?;
    let path = text_part("path", field, value)?.unwrap_or("/");
    url_of_parts(alloc, field, scheme, host, port, path)
}

// A URL: a text, or an object in parts.
pub(crate) fn web_url(
    alloc: Global,
    field: Field,
    value: &Value<'_>,
) -> Result<Url, DescriptionError>
    ensures url { Gives DescriptionError.Memory result (spec.web_url field (view value.now)) }
    ensures valid { IfOk result IsValidUrl }
{
    match value.as_str() {
        Some(text) => url_of_text(alloc, field, text),
        None => url_parts(alloc, field, value),
    }
}

// A URL, and what a report shows of it.
fn shown_url(alloc: Global, field: Field, value: &Value<'_>) -> Result<ShownUrl, DescriptionError>
    ensures located { Gives DescriptionError.Memory result
        (spec.located_url ReportTexts.Made field (view value.now)) }
    ensures valid { IfOk result (λ there. IsValidUrl there.url) }
{
    match value.as_str() {
        Some(text) => shown_url_of_text(alloc, field, text),
        None => {
            let url = url_parts(alloc, field, value)?;
            let shown = shown_parts(alloc, &url)?;
            Ok(ShownUrl { url, shown })
        }
    }
}

// A URL, and what a report shows of it, where that is wanted.
pub(crate) fn located_url(
    alloc: Global,
    texts: ReportTexts,
    field: Field,
    value: &Value<'_>,
) -> Result<ShownUrl, DescriptionError>
    ensures located { Gives DescriptionError.Memory result (spec.located_url texts field (view value.now)) }
    ensures valid { IfOk result (λ there. IsValidUrl there.url) }
{
    match texts {
        ReportTexts::Made => shown_url(alloc, field, value),
        ReportTexts::Empty => Ok(ShownUrl {
            url: web_url(alloc, field, value)?,
            shown: no_text(alloc),
        }),
    }
}

// A member that holds a URL, or none where it is absent.
pub(crate) fn optional_url(
    alloc: Global,
    field: Field,
    value: &Value<'_>,
) -> Result<Option<Url>, DescriptionError>
    ensures url { Gives DescriptionError.Memory result (optional spec.web_url field (view value.now)) }
    ensures valid { IfOk result (λ found. IfSome found IsValidUrl) }
{
    match present(value, field.as_str()) {
        None => Ok(None),
        Some(found) => Ok(Some(web_url(alloc, field, found)?)),
    }
}

// A member that has to hold a URL.
pub(crate) fn required_url(
    alloc: Global,
    field: Field,
    value: &Value<'_>,
) -> Result<Url, DescriptionError>
    ensures url { Gives DescriptionError.Memory result (required spec.web_url field (view value.now)) }
    ensures valid { IfOk result IsValidUrl }
{
    web_url(
        alloc,
        field,
        require(field, present(value, field.as_str()))?,
    )
}

// The page of a description, or none where it is absent.
pub(crate) fn page(
    alloc: Global,
    texts: ReportTexts,
    value: &Value<'_>,
) -> Result<Option<ShownUrl>, DescriptionError>
    ensures { Gives DescriptionError.Memory result
        (optional (spec.located_url texts) Field.Page (view value.now)) }
{
    match present(value, "page") {
        None => Ok(None),
        Some(found) => Ok(Some(located_url(alloc, texts, Field::Page, found)?)),
    }
}

// The one URL of a description without `urls`.
pub(crate) fn only_url(
    alloc: Global,
    texts: ReportTexts,
    value: &Value<'_>,
) -> Result<ShownUrl, DescriptionError>
    ensures located { Gives DescriptionError.Memory result
        (required (spec.located_url texts) Field.Url (view value.now)) }
    ensures valid { IfOk result (λ there. IsValidUrl there.url) }
{
    let found = require(Field::Url, present(value, "url"))?;
    located_url(alloc, texts, Field::Url, found)
}
