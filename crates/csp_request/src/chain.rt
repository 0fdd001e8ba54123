//! Redirect chains in descriptions.
ghost use Rattle.std.specs.Prelude.{◌≡◌, ◌<◌, ◌^◌, All, IfOk, map, ◌≤◌, length};
ghost use Rattle.csp_json.specs.View.{view};
ghost use Rattle.csp_model.specs.Answers.{Gives};
ghost use Rattle.csp_model.specs.Validity.{IsValidUrl};
ghost use Rattle.csp_request.specs.Hops.{IsValidHop, hops_of as all_hops};
ghost use Rattle.csp_request.specs.Members.{found_map};
ghost use Rattle.csp_request.specs.Urls as spec;

use crate::error::DescriptionError;
use crate::field::Field;
use crate::located::{located_url, only_url, web_url};
use crate::member::{demand, is_absent, needed_array, number_part};
use crate::texts::ReportTexts;
use csp_json::Value;
use csp_model::{List, Text, Url};
use std::alloc::Global;

// The URLs that `urls` may have.
const HOP_LIMIT: usize = 21;

// A URL of a chain, with the number of redirects before it.
#[derive(Drop)]
pub(crate) struct Hop {
    pub(crate) url: Url,
    pub(crate) redirects: u32,
}

// The hops of a request, and what a report shows of the first.
#[derive(Drop)]
pub(crate) struct Chain {
    pub(crate) hops: List<Hop>,
    pub(crate) shown: Text,
}

// The hops of a first URL and of more that follow it.
fn hops_of(alloc: Global, first: Url, others: &[Value<'_>]) -> Result<List<Hop>, DescriptionError>
    requires few { length others.now < 2 ^ 16 }
    requires valid { IsValidUrl first }
    ensures hops { Gives DescriptionError.Memory result (all_hops first (map view others.now)) }
    ensures valid { IfOk result (All IsValidHop) }
{
    let mut hops = List::new(alloc);
    hops.push(Hop {
        url: first,
        redirects: 0,
    })?;
    for (place, item) in others.iter().enumerate() {
        let url = web_url(alloc, Field::Urls, item)?;
        hops.push(Hop {
            url,
            redirects: place as u32 + 1,
        })?;
    }
    Ok(hops)
}

// The items of `urls`: no more than the limit, and not beside `url`.
fn url_items<'v, 'a>(value: &'v Value<'a>) -> Result<&'v [Value<'a>], DescriptionError>
    ensures items { found_map (λ items. map view items.now) result ≡ spec.url_items (view value.now) }
    ensures few { IfOk result (λ items. length items.now ≤ HOP_LIMIT) }
{
    let items = needed_array("urls", Field::Urls, value)?;
    demand(Field::Urls, is_absent(value, Field::Url))?;
    if items.len() > HOP_LIMIT {
        return Err(DescriptionError::TooManyHops);
    }
    Ok(items)
}

// The chain of some items.
fn chain_of_items(
    alloc: Global,
    texts: ReportTexts,
    items: &[Value<'_>],
) -> Result<Chain, DescriptionError>
    requires { length items.now ≤ HOP_LIMIT }
    ensures chain { Gives DescriptionError.Memory result
        (spec.chain_of_items texts (map view items.now)) }
    ensures valid { IfOk result (λ chain. All IsValidHop chain.hops) }
{
    match items.split_first() {
        None => Err(DescriptionError::Misused { field: Field::Urls }),
        Some((first, others)) => {
            let first = located_url(alloc, texts, Field::Urls, first)?;
            let hops = hops_of(alloc, first.url, others)?;
            Ok(Chain {
                hops,
                shown: first.shown,
            })
        }
    }
}

// The chain of `urls`, which isn't beside `redirects`.
fn chain_of_urls(
    alloc: Global,
    texts: ReportTexts,
    value: &Value<'_>,
) -> Result<Chain, DescriptionError>
    ensures chain { Gives DescriptionError.Memory result (spec.chain_of_urls texts (view value.now)) }
    ensures valid { IfOk result (λ chain. All IsValidHop chain.hops) }
{
    let items = url_items(value)?;
    let chain = chain_of_items(alloc, texts, items)?;
    demand(Field::Redirects, is_absent(value, Field::Redirects))?;
    Ok(chain)
}

// The chain of `url` and `redirects`.
fn chain_of_url(
    alloc: Global,
    texts: ReportTexts,
    value: &Value<'_>,
) -> Result<Chain, DescriptionError>
    ensures chain { Gives DescriptionError.Memory result (spec.chain_of_url texts (view value.now)) }
    ensures valid { IfOk result (λ chain. All IsValidHop chain.hops) }
{
    let there = only_url(alloc, texts, value)?;
    let redirects = number_part("redirects", u32::MAX, Field::Redirects, value)?.unwrap_or(0);
    let mut hops = List::new(alloc);
    hops.push(Hop {
        url: there.url,
        redirects,
    })?;
    Ok(Chain {
        hops,
        shown: there.shown,
    })
}

// The URLs of a fetch or of a form submission, with the count of redirects before each.
pub(crate) fn chain_of(
    alloc: Global,
    texts: ReportTexts,
    value: &Value<'_>,
) -> Result<Chain, DescriptionError>
    ensures chain { Gives DescriptionError.Memory result (spec.chain_of texts (view value.now)) }
    ensures valid { IfOk result (λ chain. All IsValidHop chain.hops) }
{
    if is_absent(value, Field::Urls) {
        chain_of_url(alloc, texts, value)
    } else {
        chain_of_urls(alloc, texts, value)
    }
}
