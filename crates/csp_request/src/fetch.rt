//! Fetches in descriptions.
ghost use Rattle.std.specs.Prelude.{◌≡◌, ◌++◌, IfOk, IfSome, All};
ghost use Rattle.csp_json.specs.View.{view};
ghost use Rattle.csp_model.specs.Answers.{Gives};
ghost use Rattle.csp_model.specs.Validity.{IsValidCheck, IsValidUrl};
ghost use Rattle.csp_model.specs.Destinations.{destination_named};
ghost use Rattle.csp_request.specs.Hops.{IsValidHop, AreIntegrityValues};
ghost use Rattle.csp_request.specs.Members.{named, required};
ghost use Rattle.csp_request.specs.Urls.{response_hops, last_redirects as redirects_of};
ghost use Rattle.csp_request.specs.Described as spec;

use crate::chain::{Chain, Hop, chain_of};
use crate::error::DescriptionError;
use crate::field::Field;
use crate::located::optional_url;
use crate::member::{flag_part, require, required_text, text_or_empty};
use crate::sample::text_is_utf8;
use crate::texts::{ReportTexts, no_text};
use csp_json::Value;
use csp_model::{
    Check, Described, Destination, Duplicate, Group, Hash, List, Memory, Text, Url, effective,
};
use csp_token::read_integrity;
use std::alloc::Global;

// What the hops of a fetch share.
#[derive(Drop)]
pub(crate) struct FetchOptions {
    pub(crate) nonce: Text,
    pub(crate) integrity: List<Hash>,
    pub(crate) parser_inserted: bool,
}

// What a request is for.
fn destination_of(value: &Value<'_>) -> Result<Destination, DescriptionError>
    ensures { result ≡ required (named destination_named) Field.Destination (view value.now) }
{
    let name = required_text(Field::Destination, value)?;
    require(Field::Destination, Destination::from_name(name))
}

// The count of the last hop.
fn last_redirects(hops: &List<Hop>) -> u32
    ensures { result ≡ redirects_of hops.now }
{
    match hops.as_slice().last() {
        None => 0,
        Some(hop) => hop.redirects,
    }
}

// The hops of a chain, and that of a response: its URL, with the count of the last hop.
fn with_response(mut hops: List<Hop>, response: Option<Url>) -> Result<List<Hop>, Memory>
    requires hops { All IsValidHop hops }
    requires response { IfSome response IsValidUrl }
    ensures hops { IfOk result (λ made. made ≡ hops ++ response_hops hops response) }
    ensures valid { IfOk result (All IsValidHop) }
{
    if let Some(url) = response {
        let redirects = last_redirects(&hops);
        hops.push(Hop { url, redirects })?;
    }
    Ok(hops)
}

impl FetchOptions {
    fn copy(&self, alloc: Global) -> Result<FetchOptions, Memory>
        ensures { IfOk result (λ made. made ≡ self.now) }
    {
        Ok(FetchOptions {
            nonce: self.nonce.copy(alloc)?,
            integrity: self.integrity.copy(alloc)?,
            parser_inserted: self.parser_inserted,
        })
    }
}

fn fetch_check(group: Group, hop: Hop, options: FetchOptions) -> Check
    requires hop { IsValidHop hop }
    requires integrity { AreIntegrityValues options.integrity }
    ensures check { result ≡ spec.fetch_check group options hop }
    ensures valid { IsValidCheck result }
{
    text_is_utf8(&options.nonce);
    Check::Fetch {
        group,
        url: hop.url,
        redirects: hop.redirects,
        nonce: options.nonce,
        integrity: options.integrity,
        parser_inserted: options.parser_inserted,
    }
}

// A check for each hop; a report has none. The last hop takes the options themselves, those before it copies.
fn fetch_checks(
    alloc: Global,
    group: Option<Group>,
    mut hops: List<Hop>,
    options: FetchOptions,
) -> Result<List<Check>, Memory>
    requires hops { All IsValidHop hops }
    requires integrity { AreIntegrityValues options.integrity }
    ensures checks { IfOk result (λ checks. checks ≡ spec.fetch_checks group options hops) }
    ensures valid { IfOk result (All IsValidCheck) }
{
    let mut checks = List::new(alloc);
    let Some(group) = group else {
        return Ok(checks);
    };
    let Some(last) = hops.pop() else {
        return Ok(checks);
    };
    for hop in hops.into_vec() {
        checks.push(fetch_check(group, hop, options.copy(alloc)?))?;
    }
    checks.push(fetch_check(group, last, options))?;
    Ok(checks)
}

fn fetch_options(alloc: Global, value: &Value<'_>) -> Result<FetchOptions, DescriptionError>
    ensures options { Gives DescriptionError.Memory result (spec.fetch_options (view value.now)) }
    ensures valid { IfOk result (λ options. AreIntegrityValues options.integrity) }
{
    let nonce = text_or_empty(Field::Nonce, value)?;
    let integrity = text_or_empty(Field::Integrity, value)?;
    let parser_inserted = flag_part("parser-inserted", Field::ParserInserted, value)?;
    Ok(FetchOptions {
        nonce: Text::new(alloc, nonce)?,
        integrity: read_integrity(alloc, integrity)?,
        parser_inserted,
    })
}

// A fetch, with a check for each hop.
pub(crate) fn fetch(
    alloc: Global,
    texts: ReportTexts,
    value: &Value<'_>,
) -> Result<Described, DescriptionError>
    ensures described { Gives DescriptionError.Memory result (spec.fetch texts (view value.now)) }
    ensures valid { IfOk result (λ made. All IsValidCheck made.checks) }
{
    let destination = destination_of(value)?;
    let Chain { hops, shown } = chain_of(alloc, texts, value)?;
    let response = optional_url(alloc, Field::Response, value)?;
    let options = fetch_options(alloc, value)?;
    let hops = with_response(hops, response)?;
    Ok(Described {
        checks: fetch_checks(alloc, effective(destination), hops, options)?,
        blocked_uri: shown,
        sample: no_text(alloc),
    })
}
