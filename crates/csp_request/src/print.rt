//! Prints checks as descriptions in JSON.
ghost use Rattle.std.specs.Prelude.{◌≡◌, [], ◌∷◌, IfOk, Ok, string_bytes};
ghost use Rattle.serde_json.specs.View.{view};
ghost use Rattle.serde_json.specs.Written.{compact_text};
ghost use Rattle.csp_model.specs.Validity.{IsValidCheck};
ghost use Rattle.csp_model.specs.declared.check.Check.TheVariants as check;
ghost use Rattle.csp_request.specs.Printed as spec;
ghost use Rattle.csp_request.specs.Requests.{check_of};

use crate::destination::destination_for;
use crate::kind::{DescriptionKind, inline_text};
use crate::url_parts::url_value;
use csp_model::{
    Bytes, Capability, Check, Digests, Group, Hash, InlineKind, List, Memory, Text, Url,
};
use csp_token::integrity_text;
use serde_json::{Value, json};
use std::alloc::{AllocError, Global};

fn digests_value(alloc: Global, digests: &Digests) -> Result<Value, Memory>
    ensures { IfOk result (λ value. view value ≡ spec.digests_data digests.now) }
{
    let sha256 = hex::encode(alloc, &digests.sha256)?;
    let sha384 = hex::encode(alloc, &digests.sha384)?;
    let sha512 = hex::encode(alloc, &digests.sha512)?;
    Ok(json!(in alloc; {"sha256": sha256, "sha384": sha384, "sha512": sha512})?)
}

// A description with no member but its kind.
fn kind_value(alloc: Global, kind: DescriptionKind) -> Result<Value, Memory>
    ensures { IfOk result (λ value. view value ≡ spec.object_of (spec.kind_member kind ∷ [])) }
{
    Ok(json!(in alloc; {"kind": kind.as_str()})?)
}

// A fetch as a description, whose URL and integrity metadata are written already.
fn fetch_object(
    alloc: Global,
    group: Group,
    url: Value,
    redirects: u32,
    nonce: &str,
    integrity: String,
    parser_inserted: bool,
) -> Result<Value, AllocError>
    ensures { IfOk result (λ value. view value ≡ spec.fetch_data group (view url) redirects nonce.now
        (string_bytes integrity) parser_inserted) }
{
    json!(in alloc; {
        "destination": destination_for(group).as_str(),
        "integrity": integrity,
        "kind": DescriptionKind::Fetch.as_str(),
        "nonce": nonce,
        "parser-inserted": parser_inserted,
        "redirects": redirects,
        "url": url
    })
}

fn fetch_value(
    alloc: Global,
    group: Group,
    url: &Url,
    redirects: u32,
    nonce: &Text,
    integrity: &List<Hash>,
    parser_inserted: bool,
) -> Result<Value, Memory>
    ensures { IfOk result (λ value. view value ≡ spec.printed
        (check.Fetch group url.now redirects nonce.now integrity.now parser_inserted)) }
{
    let url = url_value(alloc, url)?;
    let integrity = integrity_text(alloc, integrity)?.into_string();
    let nonce = nonce.as_str();
    Ok(fetch_object(
        alloc,
        group,
        url,
        redirects,
        nonce,
        integrity,
        parser_inserted,
    )?)
}

fn inline_value(
    alloc: Global,
    kind: InlineKind,
    nonce: &Text,
    digests: &Digests,
) -> Result<Value, Memory>
    ensures { IfOk result (λ value. view value ≡ spec.printed (check.Inline kind nonce.now digests.now)) }
{
    let digests = digests_value(alloc, digests)?;
    Ok(json!(in alloc; {
        "digests": digests,
        "kind": DescriptionKind::Inline.as_str(),
        "nonce": nonce.as_str(),
        "type": inline_text(kind)
    })?)
}

fn base_value(alloc: Global, url: &Url) -> Result<Value, Memory>
    ensures { IfOk result (λ value. view value ≡ spec.printed (check.Base url.now)) }
{
    let url = url_value(alloc, url)?;
    Ok(json!(in alloc; {"kind": DescriptionKind::Base.as_str(), "url": url})?)
}

fn form_value(alloc: Global, url: &Url, redirects: u32) -> Result<Value, Memory>
    ensures { IfOk result (λ value. view value ≡ spec.printed (check.Form url.now redirects)) }
{
    let url = url_value(alloc, url)?;
    Ok(
        json!(in alloc; {"kind": DescriptionKind::Form.as_str(), "redirects": redirects, "url": url})?,
    )
}

fn ancestor_value(alloc: Global, url: &Url) -> Result<Value, Memory>
    ensures { IfOk result (λ value. view value ≡ spec.printed (check.Ancestor url.now)) }
{
    let url = url_value(alloc, url)?;
    Ok(json!(in alloc; {"ancestors": [url], "kind": DescriptionKind::Ancestors.as_str()})?)
}

fn opaque_ancestor_value(alloc: Global) -> Result<Value, Memory>
    ensures { IfOk result (λ value. view value ≡ spec.printed check.OpaqueAncestor) }
{
    Ok(json!(in alloc; {"ancestors": ["null"], "kind": DescriptionKind::Ancestors.as_str()})?)
}

fn capability_value(alloc: Global, capability: Capability) -> Result<Value, Memory>
    ensures { IfOk result (λ value. view value ≡ spec.printed (check.Capability capability)) }
{
    Ok(
        json!(in alloc; {"kind": DescriptionKind::Capability.as_str(), "name": capability.as_str()})?,
    )
}

// A check as a description.
fn check_value(alloc: Global, check: &Check) -> Result<Value, Memory>
    ensures { IfOk result (λ value. view value ≡ spec.printed check.now) }
{
    match check {
        Check::Fetch {
            group,
            url,
            redirects,
            nonce,
            integrity,
            parser_inserted,
        } => fetch_value(
            alloc,
            *group,
            url,
            *redirects,
            nonce,
            integrity,
            *parser_inserted,
        ),
        Check::Inline {
            kind,
            nonce,
            digests,
        } => inline_value(alloc, *kind, nonce, digests),
        Check::Eval => kind_value(alloc, DescriptionKind::Eval),
        Check::Wasm => kind_value(alloc, DescriptionKind::Wasm),
        Check::Base { url } => base_value(alloc, url),
        Check::Form { url, redirects } => form_value(alloc, url, *redirects),
        Check::Ancestor { url } => ancestor_value(alloc, url),
        Check::OpaqueAncestor => opaque_ancestor_value(alloc),
        Check::Capability { capability } => capability_value(alloc, *capability),
        Check::WorkerStart => kind_value(alloc, DescriptionKind::WorkerStart),
    }
}

/// A check as one description, in compact JSON (RFC 8259) whose members stand in byte order of their names.
/// A URL is an object of its parts, in which a port of None is null, and integrity metadata is a text.
///
/// `read_check` gives each valid check back from its text, and the text in brackets is a request file of it.
#[tactic(auto, using(crate::proofs::PrintedText::no_float))]
pub fn check_json(alloc: Global, check: &Check) -> Result<Bytes, Memory>
    ensures text { IfOk result (λ text. text ≡ compact_text (spec.printed check.now)) }
    ensures reads_back { IsValidCheck check.now → IfOk result (λ text. check_of text ≡ Ok check.now) }
    ensures in_file { IsValidCheck check.now
        → IfOk result (λ text. spec.AsksFor (spec.in_array text) check.now) }
{
    let value = check_value(alloc, check)?;
    Ok(Bytes::from_vec(value.to_vec(alloc)?))
}
