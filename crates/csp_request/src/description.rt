//! What descriptions stand for: a function for each kind.
ghost use Rattle.std.specs.Prelude.{◌≡◌, [], ◌∷◌, IfOk, All, map};
ghost use Rattle.csp_json.specs.View.{view};
ghost use Rattle.csp_model.specs.Answers.{Gives};
ghost use Rattle.csp_model.specs.Names.{capability_named};
ghost use Rattle.csp_model.specs.Validity.{IsValidCheck, IsValidUrl, IsOriginUrl};
ghost use Rattle.csp_request.specs.Hops.{IsValidHop};
ghost use Rattle.csp_request.specs.Kinds.{kind_named, inline_named as kind_of_inline};
ghost use Rattle.csp_token.specs.Digests.{digests_for};
ghost use Rattle.csp_request.specs.Members.{named, required, each};
ghost use Rattle.csp_request.specs.Described as spec;
ghost use Rattle.csp_request.specs.Urls.{told};

use crate::chain::{Chain, Hop, chain_of};
use crate::element::nonce_of;
use crate::error::DescriptionError;
use crate::fetch::fetch;
use crate::field::Field;
use crate::inline::source_of;
use crate::kind::{DescriptionKind, inline_named};
use crate::located::{page, required_url, web_url};
use crate::member::{demand, needed_array, require, required_text, text_or_empty};
use crate::sample::{sample_of, text_is_utf8};
use crate::texts::{ReportTexts, no_text, report_text};
use csp_json::Value;
use csp_model::{Capability, Check, Described, InlineKind, List, Memory, Path, Text, Url};
use csp_token::Algorithms;
use csp_url::ShownUrl;
use std::alloc::{AllocError, Global};

// The kind of a description.
fn kind_of(value: &Value<'_>) -> Result<DescriptionKind, DescriptionError>
    ensures { result ≡ required (named kind_named) Field.Kind (view value.now) }
{
    let name = required_text(Field::Kind, value)?;
    require(Field::Kind, DescriptionKind::from_name(name))
}

// The capability that a description asks for.
fn capability_of(value: &Value<'_>) -> Result<Capability, DescriptionError>
    ensures { result ≡ required (named capability_named) Field.Name (view value.now) }
{
    let name = required_text(Field::Name, value)?;
    require(Field::Name, Capability::from_name(name))
}

// A request of one check.
fn of_one_check(
    alloc: Global,
    check: Check,
    texts: ReportTexts,
    blocked_uri: &str,
    sample: Text,
) -> Result<Described, Memory>
    requires { IsValidCheck check }
    ensures described { IfOk result
        (λ made. made ≡ spec.described_as (check ∷ []) (told texts blocked_uri.now) sample) }
    ensures valid { IfOk result (λ made. All IsValidCheck made.checks) }
{
    let mut checks = List::new(alloc);
    checks.push(check)?;
    Ok(Described {
        checks,
        blocked_uri: report_text(alloc, texts, blocked_uri)?,
        sample,
    })
}

// A request of one check of which a report shows nothing.
fn without_texts(alloc: Global, check: Check) -> Result<Described, Memory>
    requires { IsValidCheck check }
    ensures described { IfOk result (λ made. made ≡ spec.described_as (check ∷ []) [] []) }
    ensures valid { IfOk result (λ made. All IsValidCheck made.checks) }
{
    of_one_check(alloc, check, ReportTexts::Empty, "", no_text(alloc))
}

// The compilation of a string as script.
fn eval(alloc: Global, texts: ReportTexts, value: &Value<'_>) -> Result<Described, DescriptionError>
    ensures described { Gives DescriptionError.Memory result (spec.eval texts (view value.now)) }
    ensures valid { IfOk result (λ made. All IsValidCheck made.checks) }
{
    let source = text_or_empty(Field::Source, value)?;
    let sample = sample_of(alloc, texts, source)?;
    Ok(of_one_check(alloc, Check::Eval, texts, "eval", sample)?)
}

// The compilation of WebAssembly.
fn wasm(alloc: Global, texts: ReportTexts) -> Result<Described, DescriptionError>
    ensures described { Gives DescriptionError.Memory result (spec.wasm texts) }
    ensures valid { IfOk result (λ made. All IsValidCheck made.checks) }
{
    Ok(of_one_check(alloc, Check::Wasm, texts, "wasm-eval", no_text(alloc))?)
}

// A base URL.
fn base(alloc: Global, texts: ReportTexts, value: &Value<'_>) -> Result<Described, DescriptionError>
    ensures described { Gives DescriptionError.Memory result (spec.base texts (view value.now)) }
    ensures valid { IfOk result (λ made. All IsValidCheck made.checks) }
{
    let url = required_url(alloc, Field::Url, value)?;
    Ok(of_one_check(alloc, Check::Base { url }, texts, "inline", no_text(alloc))?)
}

fn form_checks(alloc: Global, hops: List<Hop>) -> Result<List<Check>, AllocError>
    requires { All IsValidHop hops }
    ensures checks { IfOk result (λ checks. checks ≡ map spec.form_check hops) }
    ensures valid { IfOk result (All IsValidCheck) }
{
    let checks = hops.into_vec().into_iter().map(|hop| Check::Form {
        url: hop.url,
        redirects: hop.redirects,
    });
    Ok(List::from_vec(checks.collect(alloc)?))
}

// A form submission.
fn form(alloc: Global, texts: ReportTexts, value: &Value<'_>) -> Result<Described, DescriptionError>
    ensures described { Gives DescriptionError.Memory result (spec.form texts (view value.now)) }
    ensures valid { IfOk result (λ made. All IsValidCheck made.checks) }
{
    let Chain { hops, shown } = chain_of(alloc, texts, value)?;
    let Ok(checks) = form_checks(alloc, hops) else {
        return Err(DescriptionError::Memory);
    };
    Ok(Described {
        checks,
        blocked_uri: shown,
        sample: no_text(alloc),
    })
}

// The URL of an origin: its path is one empty piece.
fn origin_url(alloc: Global, url: Url) -> Result<Url, Memory>
    requires { IsValidUrl url }
    ensures url { IfOk result (λ made. made ≡ spec.origin_url url) }
    ensures valid { IfOk result IsValidUrl }
    ensures origin { IfOk result IsOriginUrl }
{
    match url {
        Url::Plain { scheme } => Ok(Url::Plain { scheme }),
        Url::Hosted {
            scheme,
            host,
            port,
            ..
        } => {
            let mut path = Path::new(alloc)?;
            path.push(b"")?;
            Ok(Url::Hosted {
                scheme,
                host,
                port,
                path,
            })
        }
    }
}

// An ancestor: the text `null`, or a URL.
fn ancestor(alloc: Global, field: Field, value: &Value<'_>) -> Result<Check, DescriptionError>
    ensures ancestor { Gives DescriptionError.Memory result (spec.ancestor field (view value.now)) }
    ensures valid { IfOk result IsValidCheck }
{
    match value.as_str() {
        Some("null") => Ok(Check::OpaqueAncestor),
        _ => {
            let there = web_url(alloc, field, value)?;
            let url = origin_url(alloc, there)?;
            Ok(Check::Ancestor { url })
        }
    }
}

fn ancestor_checks(
    alloc: Global,
    field: Field,
    items: &[Value<'_>],
) -> Result<List<Check>, DescriptionError>
    ensures ancestors { Gives DescriptionError.Memory result
        (each spec.ancestor field (map view items.now)) }
    ensures valid { IfOk result (All IsValidCheck) }
{
    let mut checks = List::new(alloc);
    for item in items {
        checks.push(ancestor(alloc, field, item)?)?;
    }
    Ok(checks)
}

fn shown_page(alloc: Global, page: Option<ShownUrl>) -> Text
    ensures { result ≡ spec.shown_page page }
{
    match page {
        None => no_text(alloc),
        Some(there) => there.shown,
    }
}

// The ancestors of a page.
fn ancestors(
    alloc: Global,
    texts: ReportTexts,
    value: &Value<'_>,
) -> Result<Described, DescriptionError>
    ensures described { Gives DescriptionError.Memory result (spec.ancestors texts (view value.now)) }
    ensures valid { IfOk result (λ made. All IsValidCheck made.checks) }
{
    let items = needed_array("ancestors", Field::Ancestors, value)?;
    let checks = ancestor_checks(alloc, Field::Ancestors, items)?;
    let page = page(alloc, texts, value)?;
    Ok(Described {
        checks,
        blocked_uri: shown_page(alloc, page),
        sample: no_text(alloc),
    })
}

// Something that a sandbox could take from a document.
fn capability(alloc: Global, value: &Value<'_>) -> Result<Described, DescriptionError>
    ensures described { Gives DescriptionError.Memory result (spec.capability (view value.now)) }
    ensures valid { IfOk result (λ made. All IsValidCheck made.checks) }
{
    let capability = capability_of(value)?;
    let check = Check::Capability { capability };
    Ok(without_texts(alloc, check)?)
}

// The start of a worker.
fn worker_start(alloc: Global) -> Result<Described, DescriptionError>
    ensures described { Gives DescriptionError.Memory result spec.worker_start }
    ensures valid { IfOk result (λ made. All IsValidCheck made.checks) }
{
    Ok(without_texts(alloc, Check::WorkerStart)?)
}

// What inline code or style it is.
fn inline_kind_of(value: &Value<'_>) -> Result<InlineKind, DescriptionError>
    ensures { result ≡ required (named kind_of_inline) Field.InlineType (view value.now) }
{
    let name = required_text(Field::InlineType, value)?;
    require(Field::InlineType, inline_named(name))
}

// Inline code or style.
fn inline(
    alloc: Global,
    texts: ReportTexts,
    value: &Value<'_>,
    wanted: Algorithms,
) -> Result<Described, DescriptionError>
    ensures described { Gives DescriptionError.Memory result
        (spec.inline texts (λ source. digests_for source wanted) (view value.now)) }
    ensures valid { IfOk result (λ made. All IsValidCheck made.checks) }
{
    let kind = inline_kind_of(value)?;
    let source = source_of(alloc, texts, value, wanted)?;
    let nonce = nonce_of(alloc, value)?;
    text_is_utf8(&nonce);
    let check = Check::Inline {
        kind,
        nonce,
        digests: source.digests,
    };
    Ok(of_one_check(alloc, check, texts, "inline", source.sample)?)
}

// What a description of a kind stands for.
fn described_by(
    alloc: Global,
    texts: ReportTexts,
    kind: DescriptionKind,
    value: &Value<'_>,
    wanted: Algorithms,
) -> Result<Described, DescriptionError>
    ensures described { Gives DescriptionError.Memory result
        (spec.described_by texts (λ source. digests_for source wanted) kind (view value.now)) }
    ensures valid { IfOk result (λ made. All IsValidCheck made.checks) }
{
    match kind {
        DescriptionKind::Fetch => fetch(alloc, texts, value),
        DescriptionKind::Inline => inline(alloc, texts, value, wanted),
        DescriptionKind::Eval => eval(alloc, texts, value),
        DescriptionKind::Wasm => wasm(alloc, texts),
        DescriptionKind::Base => base(alloc, texts, value),
        DescriptionKind::Form => form(alloc, texts, value),
        DescriptionKind::Ancestors => ancestors(alloc, texts, value),
        DescriptionKind::Capability => capability(alloc, value),
        DescriptionKind::WorkerStart => worker_start(alloc),
    }
}

/// The request that a description stands for, as `describe` says, but with no more than is wanted of it. Of
/// an inline source only the digests of the wanted algorithms are computed; in place of each other digest are
/// bytes that are all 0. The texts that only a report shows are made or stay empty.
pub fn describe_for(
    alloc: Global,
    value: &Value<'_>,
    wanted: Algorithms,
    texts: ReportTexts,
) -> Result<Described, DescriptionError>
    ensures described { Gives DescriptionError.Memory result
        (spec.described_for texts (λ source. digests_for source wanted) (view value.now)) }
    ensures valid { IfOk result (λ made. All IsValidCheck made.checks) }
{
    demand(Field::Object, value.is_object())?;
    let kind = kind_of(value)?;
    described_by(alloc, texts, kind, value, wanted)
}

/// The request that a description stands for, by the members of its kind. `Misused` names the first member,
/// in the order in which the kind's members are tested, that is missing or of another form; one that is null
/// counts as absent, and members of other names aren't looked at.
pub fn describe(alloc: Global, value: &Value<'_>) -> Result<Described, DescriptionError>
    ensures described { Gives DescriptionError.Memory result (spec.described (view value.now)) }
    ensures valid { IfOk result (λ made. All IsValidCheck made.checks) }
{
    let all = Algorithms {
        sha256: true,
        sha384: true,
        sha512: true,
    };
    describe_for(alloc, value, all, ReportTexts::Made)
}
