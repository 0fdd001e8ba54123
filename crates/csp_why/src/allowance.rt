//! The first rule by which a directive allows a check, and its first token.
ghost use Rattle.std.specs.Prelude.{◌≡◌, ℕ, Option, not, position};
ghost use Rattle.std.specs.Option.{option_or};
ghost use Rattle.csp_match.specs.Shown.{shown};
ghost use Rattle.csp_model.specs.DecideInline as inline_spec;
ghost use Rattle.csp_model.specs.DecideNavigation.{grants};
ghost use Rattle.csp_model.specs.DecideTokens as token_spec;
ghost use Rattle.csp_model.specs.Inline.{is_element_kind};
ghost use Rattle.csp_model.specs.Reading.{first_of};
ghost use Rattle.csp_model.specs.declared.source.Keyword.TheVariants as keyword;
ghost use Rattle.csp_why.specs.Allowances as spec;
ghost use Rattle.csp_why.specs.declared.reason.Rule.TheVariants as rules;

use crate::reason::{Allowance, Rule};
use csp_match::{Governor, source_matches};
use csp_model::{
    Capability, Check, Digests, FetchRule, Hash, InlineKind, Keyword, List, Origin, Source, Text,
    Url,
};
use csp_rules::{hash_counts, is_element_kind, token_grants};
use csp_token::{Tokens, is_hash, is_hash_of, is_keyword, is_nonce};

// The first rule by which what governs allows a check, with its first token. `counts` says that nothing
// takes the place of its source expressions, or of `'unsafe-inline'`.
pub(crate) fn allowance(
    origin: &Origin,
    check: &Check,
    counts: bool,
    found: &Governor<'_>,
) -> Option<Allowance>
    ensures { result ≡ first_of (spec.allowances origin.now check.now counts (shown found.now)) }
{
    let directive = found.directive;
    let sources = &directive.sources;
    match check {
        Check::Fetch {
            group,
            url,
            redirects,
            nonce,
            integrity,
            parser_inserted,
        } => {
            let rule = group.rule(found.name);
            let redirected = *redirects != 0;
            fetch_allowance(rule, sources, nonce, integrity, *parser_inserted).or_else(|| {
                by(
                    Rule::Source,
                    counted_source(counts, origin, url, redirected, sources),
                )
            })
        }
        Check::Inline {
            kind,
            nonce,
            digests,
        } => inline_allowance(counts, *kind, nonce, digests, sources),
        Check::Eval => by(
            Rule::UnsafeEval,
            keyword_token(Keyword::UnsafeEval, sources),
        ),
        Check::Wasm => by(
            Rule::UnsafeEval,
            keyword_token(Keyword::UnsafeEval, sources),
        )
        .or_else(|| {
            by(
                Rule::WasmUnsafeEval,
                keyword_token(Keyword::WasmUnsafeEval, sources),
            )
        }),
        Check::Base { url } | Check::Ancestor { url } => {
            by(Rule::Source, source_token(origin, url, false, sources))
        }
        Check::Form { url, redirects } => {
            by(
                Rule::Source,
                source_token(origin, url, *redirects != 0, sources),
            )
        }
        Check::OpaqueAncestor => None,
        Check::Capability { capability } => {
            by(
                Rule::Capability,
                grant_token(*capability, &directive.tokens),
            )
        }
        Check::WorkerStart => by(Rule::Capability, worker_token(&directive.tokens)),
    }
}

// The first rule of a fetch, but for the last, which looks at its URL.
fn fetch_allowance(
    rule: FetchRule,
    sources: &List<Source>,
    nonce: &Text,
    integrity: &List<Hash>,
    parser_inserted: bool,
) -> Option<Allowance>
    ensures { (listed : Option ℕ) → option_or result (spec.by rules.Source listed)
        ≡ first_of (spec.fetch_allowances rule sources.now nonce.now integrity.now parser_inserted listed) }
{
    match rule {
        FetchRule::Script => by(Rule::Nonce, nonce_token(nonce, sources))
            .or_else(|| by(Rule::Integrity, integrity_token(integrity, sources)))
            .or_else(|| by(Rule::StrictDynamic, dynamic_token(parser_inserted, sources))),
        FetchRule::Style => by(Rule::Nonce, nonce_token(nonce, sources)),
        FetchRule::List => None,
    }
}

// The first rule of inline code or style.
fn inline_allowance(
    counts: bool,
    kind: InlineKind,
    nonce: &Text,
    digests: &Digests,
    sources: &List<Source>,
) -> Option<Allowance>
    ensures { result ≡ first_of (spec.inline_allowances counts kind nonce.now digests.now sources.now) }
{
    by(Rule::UnsafeInline, inline_token(counts, sources))
        .or_else(|| by(Rule::Nonce, element_token(kind, nonce, sources)))
        .or_else(|| by(Rule::Hash, counted_digest(kind, digests, sources)))
}

fn by(rule: Rule, token: Option<usize>) -> Option<Allowance>
    ensures { result ≡ spec.by rule token }
{
    token.map(|token| Allowance { rule, token })
}

// The first source expression that matches, where they count.
fn counted_source(
    counts: bool,
    origin: &Origin,
    url: &Url,
    redirected: bool,
    sources: &List<Source>,
) -> Option<usize>
    ensures { result
        ≡ spec.only_where counts (spec.source_token origin.now url.now redirected sources.now) }
{
    if counts {
        source_token(origin, url, redirected, sources)
    } else {
        None
    }
}

fn source_token(
    origin: &Origin,
    url: &Url,
    redirected: bool,
    sources: &List<Source>,
) -> Option<usize>
    ensures { result ≡ spec.source_token origin.now url.now redirected sources.now }
{
    sources
        .as_slice()
        .iter()
        .position(|source| source_matches(source, origin, url, redirected))
}

fn keyword_token(word: Keyword, sources: &List<Source>) -> Option<usize>
    ensures { result ≡ spec.keyword_token word sources.now }
{
    sources
        .as_slice()
        .iter()
        .position(|source| is_keyword(source, word))
}

// `'strict-dynamic'`, for a script that no parser inserted.
fn dynamic_token(parser_inserted: bool, sources: &List<Source>) -> Option<usize>
    ensures { result
        ≡ spec.only_where (not parser_inserted) (spec.keyword_token keyword.StrictDynamic sources.now) }
{
    if parser_inserted {
        None
    } else {
        keyword_token(Keyword::StrictDynamic, sources)
    }
}

// `'unsafe-inline'`, where it counts.
fn inline_token(counts: bool, sources: &List<Source>) -> Option<usize>
    ensures { result ≡ spec.only_where counts (spec.keyword_token keyword.UnsafeInline sources.now) }
{
    if counts {
        keyword_token(Keyword::UnsafeInline, sources)
    } else {
        None
    }
}

// The nonce-source of an element's nonce.
fn element_token(kind: InlineKind, nonce: &Text, sources: &List<Source>) -> Option<usize>
    ensures { result ≡ spec.only_where (is_element_kind kind) (spec.nonce_token nonce.now sources.now) }
{
    if is_element_kind(kind) {
        nonce_token(nonce, sources)
    } else {
        None
    }
}

fn nonce_token(nonce: &Text, sources: &List<Source>) -> Option<usize>
    ensures { result ≡ spec.nonce_token nonce.now sources.now }
{
    let value = nonce.as_str();
    if value.is_empty() {
        None
    } else {
        nonce_source(value, sources)
    }
}

fn nonce_source(nonce: &str, sources: &List<Source>) -> Option<usize>
    ensures { result ≡ position (token_spec.is_nonce nonce.now) sources.now }
{
    sources
        .as_slice()
        .iter()
        .position(|source| is_nonce(source, nonce))
}

fn integrity_token(integrity: &List<Hash>, sources: &List<Source>) -> Option<usize>
    ensures { result ≡ spec.integrity_token integrity.now sources.now }
{
    if sources.integrity_matches(integrity) {
        some_hash_source(integrity, sources)
    } else {
        None
    }
}

fn some_hash_source(integrity: &List<Hash>, sources: &List<Source>) -> Option<usize>
    ensures { result ≡ position (spec.is_some_hash integrity.now) sources.now }
{
    sources
        .as_slice()
        .iter()
        .position(|source| is_some_hash(integrity, source))
}

// Whether a source is a hash-source that the metadata has.
pub(crate) fn is_some_hash(integrity: &List<Hash>, source: &Source) -> bool
    ensures { result ≡ spec.is_some_hash integrity.now source.now }
{
    integrity
        .as_slice()
        .iter()
        .any(|pair| is_hash(source, pair))
}

// The first hash of the very text, where hashes count.
fn counted_digest(kind: InlineKind, digests: &Digests, sources: &List<Source>) -> Option<usize>
    ensures { result
        ≡ spec.only_where (inline_spec.hash_counts kind sources.now)
        (spec.digest_token digests.now sources.now) }
{
    if hash_counts(kind, sources) {
        digest_token(digests, sources)
    } else {
        None
    }
}

fn digest_token(digests: &Digests, sources: &List<Source>) -> Option<usize>
    ensures { result ≡ spec.digest_token digests.now sources.now }
{
    sources
        .as_slice()
        .iter()
        .position(|source| is_hash_of(source, digests))
}

// The first token that leaves a capability.
fn grant_token(capability: Capability, tokens: &List<Text>) -> Option<usize>
    ensures { result ≡ spec.grant_token capability tokens.now }
{
    tokens
        .as_slice()
        .iter()
        .position(|token| token_grants(token.as_str(), capability))
}

// The first token that leaves a part of what a worker needs, where all of it is left.
fn worker_token(tokens: &List<Text>) -> Option<usize>
    ensures { result ≡ spec.worker_token tokens.now }
{
    if grants(tokens, Capability::Scripts) && grants(tokens, Capability::SameOrigin) {
        token_for_worker(tokens)
    } else {
        None
    }
}

fn token_for_worker(tokens: &List<Text>) -> Option<usize>
    ensures { result ≡ position spec.is_for_worker tokens.now }
{
    tokens
        .as_slice()
        .iter()
        .position(|token| is_for_worker(token.as_str()))
}

fn is_for_worker(token: &str) -> bool
    ensures { result ≡ spec.is_for_worker token.now }
{
    token_grants(token, Capability::Scripts) || token_grants(token, Capability::SameOrigin)
}

fn grants(tokens: &List<Text>, capability: Capability) -> bool
    ensures { result ≡ grants tokens.now capability }
{
    tokens
        .as_slice()
        .iter()
        .any(|token| token_grants(token.as_str(), capability))
}
