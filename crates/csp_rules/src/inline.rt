//! The checks of inline code and style, string compilation and WebAssembly.
ghost use Rattle.std.specs.Prelude.{◌≡◌, ◌↔◌, ◌||◌, IsTrue};
ghost use Rattle.csp_model.specs.DecideInline as spec;
ghost use Rattle.csp_model.specs.DecideTokens.{has_keyword};
ghost use Rattle.csp_model.specs.Inline.{InlineAllows, EvalAllows, WasmAllows};
ghost use Rattle.csp_model.specs.Inline.{is_element_kind, is_script_kind};
ghost use Rattle.csp_model.specs.declared.source.Keyword.TheVariants as keyword;

use csp_match::governor;
use csp_model::{Digests, InlineKind, Keyword, Name, Policy, Text};
use csp_token::Tokens;

/// Whether a policy allows inline code or style of a kind, whatever its disposition (Content Security Policy
/// Level 3, sections 4.2.3 and 6.7.3.3): by `'unsafe-inline'` where nothing makes it void, by the element's
/// nonce, or by a digest of its text. A nonce counts for script and style elements alone; a digest for these,
/// and for the other kinds with `'unsafe-hashes'`. Where no directive governs, the policy allows.
pub fn inline_allows(policy: &Policy, kind: InlineKind, nonce: &Text, digests: &Digests) -> bool
    ensures value { result ≡ spec.inline_allows policy.now kind nonce.now digests.now }
    ensures allows { IsTrue result ↔ InlineAllows policy.now kind nonce.now digests.now }
{
    match governor(policy, kind.directive()) {
        None => true,
        Some(found) => sources_allow_inline(kind, &found.directive.sources, nonce, digests),
    }
}

/// Whether a policy allows the compilation of strings as script: with `'unsafe-eval'`, or where no directive
/// governs (Content Security Policy Level 3, section 4.3).
#[tactic(auto, using(csp_model::proofs::InlineDecided::eval_decides))]
pub fn eval_allows(policy: &Policy) -> bool
    ensures value { result ≡ spec.eval_allows policy.now }
    ensures allows { IsTrue result ↔ EvalAllows policy.now }
{
    match governor(policy, Name::ScriptSrc) {
        None => true,
        Some(found) => sources_allow_eval(&found.directive.sources),
    }
}

/// Whether a policy allows the compilation of WebAssembly: with `'unsafe-eval'` or `'wasm-unsafe-eval'`, or
/// where no directive governs (Content Security Policy Level 3, section 4.4).
#[tactic(auto, using(csp_model::proofs::InlineDecided::wasm_decides))]
pub fn wasm_allows(policy: &Policy) -> bool
    ensures value { result ≡ spec.wasm_allows policy.now }
    ensures allows { IsTrue result ↔ WasmAllows policy.now }
{
    match governor(policy, Name::ScriptSrc) {
        None => true,
        Some(found) => sources_allow_wasm(&found.directive.sources),
    }
}

/// Whether a governing list allows inline code or style of a kind, as `inline_allows` says of the list that
/// governs in a policy.
pub fn sources_allow_inline<T: Tokens>(
    kind: InlineKind,
    tokens: &T,
    nonce: &Text,
    digests: &Digests,
) -> bool
    ensures value { result ≡ spec.sources_allow_inline kind nonce.now digests.now (T.sources tokens.now) }
{
    allows_all_inline(kind, tokens)
        || (is_element_kind(kind) && tokens.nonce_matches(nonce))
        || (hash_counts(kind, tokens) && tokens.digests_match(digests))
}

/// Whether a governing list allows the compilation of strings as script.
pub fn sources_allow_eval<T: Tokens>(tokens: &T) -> bool
    ensures value { result ≡ has_keyword keyword.UnsafeEval (T.sources tokens.now) }
{
    tokens.has_keyword(Keyword::UnsafeEval)
}

/// Whether a governing list allows the compilation of WebAssembly.
pub fn sources_allow_wasm<T: Tokens>(tokens: &T) -> bool
    ensures value { result ≡ (has_keyword keyword.UnsafeEval (T.sources tokens.now)
        || has_keyword keyword.WasmUnsafeEval (T.sources tokens.now)) }
{
    tokens.has_keyword(Keyword::UnsafeEval) || tokens.has_keyword(Keyword::WasmUnsafeEval)
}

/// Whether `'unsafe-inline'` acts: no nonce, no hash and, for code, no `'strict-dynamic'` takes its place.
pub fn allows_all_inline<T: Tokens>(kind: InlineKind, tokens: &T) -> bool
    ensures { result ≡ spec.allows_all_inline kind (T.sources tokens.now) }
{
    tokens.has_keyword(Keyword::UnsafeInline)
        && !tokens.has_nonce_or_hash()
        && !(is_script_kind(kind) && tokens.has_keyword(Keyword::StrictDynamic))
}

/// Whether a hash counts for the kind: for elements, and with `'unsafe-hashes'` for all.
pub fn hash_counts<T: Tokens>(kind: InlineKind, tokens: &T) -> bool
    ensures { result ≡ spec.hash_counts kind (T.sources tokens.now) }
{
    is_element_kind(kind) || tokens.has_keyword(Keyword::UnsafeHashes)
}

/// Whether inline code or style of a kind is the text of a script or a style element.
pub fn is_element_kind(kind: InlineKind) -> bool
    ensures { result ≡ is_element_kind kind }
{
    matches!(kind, InlineKind::Script | InlineKind::Style)
}

/// Whether inline code or style of a kind is code.
pub fn is_script_kind(kind: InlineKind) -> bool
    ensures { result ≡ is_script_kind kind }
{
    !matches!(kind, InlineKind::Style | InlineKind::StyleAttribute)
}
