//! What `drill` prints: a comparison of two lists of many sources, which are made for it.
ghost use Rattle.std.specs.Prelude.{◌≡◌, ◌≤◌, ◌<◌, ◌^◌, ◌+◌, ◌-◌, ◌%◌, ◌++◌, ◌∷◌, [], ℕ, All, IfOk, OnOk, IsTrue, length, map, codes, decimal, string_bytes};
ghost use Rattle.csp_model.specs.Ascii.{is_ascii_text};
ghost use Rattle.csp_model.specs.Reading.{source_of};
ghost use Rattle.csp_output.specs.Drills as spec;

use crate::built::Built;
use crate::compare_output::compare;
use crate::status::Status;
use csp_model::{
    Bytes, Directive, Disposition, Host, List, Memory, Origin, Policy, PolicyList, Scheme, Source,
    Text,
};
use csp_source::read_source;
use itoa::Buffer;
use std::alloc::Global;

/// What `drill` prints: the comparison of two lists of so many pairs of sources, which are made for it. It is
/// an exercise for the search and the checker, and its status is `Clean` whatever it finds.
pub fn drill(alloc: Global, pairs: u8) -> Result<Built, Memory>
    ensures { IfOk result (spec.IsDrill pairs) }
{
    let first = first_list(alloc, pairs)?;
    let second = second_list(alloc, pairs)?;
    let compared = compare(alloc, &first, &second)?;
    let mut digits = Buffer::new();
    let mut text = Vec::from_slice(alloc, b"drill ")?;
    text.extend_from_slice(digits.format(pairs).as_bytes())?;
    text.extend_from_slice(answer_word(compared.status).as_bytes())?;
    text.extend_from_slice(compared.text.as_slice())?;
    Ok(Built {
        status: Status::Clean,
        text: Bytes::from_vec(text),
    })
}

fn answer_word(status: Status) -> &'static str
    ensures { result.now ≡ spec.answer_word status }
{
    match status {
        Status::Clean => " subsumed\n",
        _ => " found\n",
    }
}

// The list that allows images by the sources of all pairs, and of every host below `example`.
fn first_list(alloc: Global, pairs: u8) -> Result<PolicyList, Memory>
    ensures { IfOk result (λ list. list ≡ spec.first_list pairs) }
{
    let mut policies = List::new(alloc);
    let tokens = first_tokens(alloc, pairs)?;
    policies.push(image_policy(alloc, tokens)?)?;
    let mut any = List::new(alloc);
    any.push(Text::new(alloc, "https://*.example:*")?)?;
    policies.push(image_policy(alloc, any)?)?;
    Ok(PolicyList { policies })
}

// The list that allows them by the pairs' other sources, without the last where their number is odd.
fn second_list(alloc: Global, pairs: u8) -> Result<PolicyList, Memory>
    ensures { IfOk result (λ list. list ≡ spec.second_list pairs) }
{
    let mut policies = List::new(alloc);
    let tokens = second_tokens(alloc, pairs - pairs % 2)?;
    policies.push(image_policy(alloc, tokens)?)?;
    Ok(PolicyList { policies })
}

// The tokens of the first list for the pairs up to this one.
fn first_tokens(alloc: Global, pairs: u8) -> Result<List<Text>, Memory>
    ensures { IfOk result (λ tokens. tokens ≡ spec.tokens_up_to spec.first_token pairs) }
{
    let mut tokens = List::new(alloc);
    for place in 0..pairs {
        tokens.push(first_token(alloc, u32::from(place) + 1)?)?;
    }
    Ok(tokens)
}

fn second_tokens(alloc: Global, pairs: u8) -> Result<List<Text>, Memory>
    ensures { IfOk result (λ tokens. tokens ≡ spec.tokens_up_to spec.second_token pairs) }
{
    let mut tokens = List::new(alloc);
    for place in 0..pairs {
        tokens.push(second_token(alloc, u32::from(place) + 1)?)?;
    }
    Ok(tokens)
}

#[tactic(auto, unfolding(crate::specs::Drills::first_token))]
fn first_token(alloc: Global, pair: u32) -> Result<Text, Memory>
    ensures { IfOk result (λ token. token ≡ spec.first_token pair) }
{
    let mut token = String::from_str(alloc, "https://h")?;
    token.push_str(Buffer::new().format(pair))?;
    token.push_str(".example:")?;
    token.push_str(Buffer::new().format(8000 + pair % 7))?;
    token.push_str("/d")?;
    token.push_str(Buffer::new().format(pair % 5))?;
    token.push_str("/")?;
    Ok(Text::from_string(token))
}

#[tactic(auto, unfolding(crate::specs::Drills::second_token))]
fn second_token(alloc: Global, pair: u32) -> Result<Text, Memory>
    ensures { IfOk result (λ token. token ≡ spec.second_token pair) }
{
    let mut token = String::from_str(alloc, "https://h")?;
    token.push_str(Buffer::new().format(pair))?;
    token.push_str(".example:*/d")?;
    token.push_str(Buffer::new().format(pair % 5))?;
    token.push_str("/")?;
    Ok(Text::from_string(token))
}

// One enforced policy, which allows images by these tokens.
fn image_policy(alloc: Global, tokens: List<Text>) -> Result<Policy, Memory>
    requires { All (λ token. IsTrue (is_ascii_text token)) tokens }
    ensures { IfOk result (λ policy. policy ≡ spec.image_policy tokens) }
{
    let mut directives = List::new(alloc);
    directives.push(Directive {
        name: Text::new(alloc, "img-src")?,
        sources: sources_of(alloc, tokens.as_slice())?,
        tokens,
    })?;
    Ok(Policy {
        disposition: Disposition::Enforce,
        meta: false,
        origin: drill_origin(alloc)?,
        directives,
    })
}

// What each token stands for.
fn sources_of(alloc: Global, tokens: &[Text]) -> Result<List<Source>, Memory>
    requires { All (λ token. IsTrue (is_ascii_text token)) tokens.now }
    ensures { IfOk result (λ sources. sources ≡ map source_of tokens.now) }
{
    let mut sources = List::new(alloc);
    for token in tokens {
        sources.push(read_source(alloc, token.as_str().as_bytes())?)?;
    }
    Ok(sources)
}

// `https://drill.example`
fn drill_origin(alloc: Global) -> Result<Origin, Memory>
    ensures { IfOk result (λ origin. origin ≡ spec.drill_origin) }
{
    Ok(Origin::Tuple {
        scheme: Scheme::Https,
        host: Host::Domain(Text::new(alloc, "drill.example")?),
        port: None,
    })
}
