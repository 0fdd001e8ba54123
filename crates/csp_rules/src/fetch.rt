//! The check of a fetch.
ghost use Rattle.std.specs.Prelude.{◌≡◌, ◌↔◌, Bool, IsTrue, unwrap_or};
ghost use Rattle.csp_model.specs.DecideFetch as spec;
ghost use Rattle.csp_model.specs.Fetch.{FetchAllows};
ghost use Rattle.csp_rules.specs.Listed as listed_spec;

use csp_match::{governor, list_matches};
use csp_model::{FetchRule, Group, Hash, Keyword, List, Policy, Text, Url};
use csp_token::Tokens;

/// Whether a policy allows a fetch, whatever its disposition (Content Security Policy Level 3, sections 6.1
/// and 6.7.1).
///
/// `redirects` is the number of redirects that led to the URL; after one no path is compared. Nonce,
/// integrity metadata and whether the parser inserted the element count for scripts, and for workers that
/// `script-src` governs; the nonce counts for styles too. Where no directive governs, the policy allows.
pub fn fetch_allows(
    policy: &Policy,
    group: Group,
    url: &Url,
    redirects: u32,
    nonce: &Text,
    integrity: &List<Hash>,
    parser_inserted: bool,
) -> bool
    ensures value { result
        ≡ spec.fetch_allows policy.now group url.now redirects nonce.now integrity.now parser_inserted }
    ensures allows { IsTrue result
        ↔ FetchAllows policy.now group url.now redirects nonce.now integrity.now parser_inserted }
{
    match governor(policy, group.directive()) {
        None => true,
        Some(found) => {
            let sources = &found.directive.sources;
            let rule = group.rule(found.name);
            match decided_by_tokens(rule, sources, nonce, integrity, parser_inserted) {
                Some(decided) => decided,
                None => list_matches(sources, &policy.origin, url, redirects != 0),
            }
        }
    }
}

/// Whether a policy allows a fetch of which the caller knows whether the governing list matches its URL:
/// `listed` takes the place of that answer, whatever it is. Where no directive governs, the policy allows.
pub fn fetch_allows_listed(
    policy: &Policy,
    group: Group,
    nonce: &Text,
    integrity: &List<Hash>,
    parser_inserted: bool,
    listed: bool,
) -> bool
    ensures value { result
        ≡ listed_spec.listed_allows policy.now group nonce.now integrity.now parser_inserted listed }
    ensures allows { IsTrue result
        ↔ listed_spec.ListedAllows policy.now group nonce.now integrity.now parser_inserted listed }
{
    match governor(policy, group.directive()) {
        None => true,
        Some(found) => {
            let sources = &found.directive.sources;
            let rule = group.rule(found.name);
            decided_by_tokens(rule, sources, nonce, integrity, parser_inserted).unwrap_or(listed)
        }
    }
}

/// What the tokens of a governing list decide on a fetch, before its URL is looked at: Some where they allow
/// or refuse it from every URL, and None where it is allowed exactly if the list matches its URL (Content
/// Security Policy Level 3, sections 6.1 and 6.7.1).
pub fn decided_by_tokens<T: Tokens>(
    rule: FetchRule,
    tokens: &T,
    nonce: &Text,
    integrity: &List<Hash>,
    parser_inserted: bool,
) -> Option<bool>
    ensures value { (listed : Bool) → unwrap_or result listed
        ≡ spec.sources_allow rule (T.sources tokens.now) nonce.now integrity.now parser_inserted listed }
{
    match rule {
        FetchRule::List => None,
        FetchRule::Style => {
            if tokens.nonce_matches(nonce) {
                Some(true)
            } else {
                None
            }
        }
        FetchRule::Script => {
            if tokens.nonce_matches(nonce) || tokens.integrity_matches(integrity) {
                Some(true)
            } else if tokens.has_keyword(Keyword::StrictDynamic) {
                Some(!parser_inserted)
            } else {
                None
            }
        }
    }
}
