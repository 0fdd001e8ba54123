//! What takes the place of other tokens of a directive.
ghost use Rattle.std.specs.Prelude.{◌≡◌};
ghost use Rattle.std.specs.List.{list_any};
ghost use Rattle.csp_why.specs.Displacement as spec;

use crate::reason::Obstacle;
use csp_model::{Check, FetchRule, Keyword, List, Name, Source};
use csp_rules::is_script_kind;
use csp_token::Tokens;

// What takes the place of source expressions, or of `'unsafe-inline'`, in a directive that governs under
// this name.
pub(crate) fn displacement(
    check: &Check,
    governing: Name,
    sources: &List<Source>,
) -> Option<Obstacle>
    ensures { result ≡ spec.displacement check.now governing sources.now }
{
    match check {
        Check::Fetch { group, .. } => displaces_sources(group.rule(governing), sources),
        Check::Inline { kind, .. } => displaces_unsafe_inline(is_script_kind(*kind), sources),
        _ => None,
    }
}

fn displaces_sources(rule: FetchRule, sources: &List<Source>) -> Option<Obstacle>
    ensures { result ≡ spec.displaces_sources rule sources.now }
{
    match rule {
        FetchRule::Script if sources.has_keyword(Keyword::StrictDynamic) => {
            Some(Obstacle::StrictDynamic)
        }
        _ => None,
    }
}

fn displaces_unsafe_inline(is_code: bool, sources: &List<Source>) -> Option<Obstacle>
    ensures { result ≡ spec.displaces_unsafe_inline is_code sources.now }
{
    if has_nonce_source(sources) {
        Some(Obstacle::Nonce)
    } else if has_hash_source(sources) {
        Some(Obstacle::Hash)
    } else if is_code && sources.has_keyword(Keyword::StrictDynamic) {
        Some(Obstacle::StrictDynamic)
    } else {
        None
    }
}

fn has_nonce_source(sources: &List<Source>) -> bool
    ensures { result ≡ list_any spec.is_nonce_source sources.now }
{
    sources.as_slice().iter().any(is_nonce_source)
}

fn is_nonce_source(source: &Source) -> bool
    ensures { result ≡ spec.is_nonce_source source.now }
{
    matches!(source, Source::Nonce { .. })
}

fn has_hash_source(sources: &List<Source>) -> bool
    ensures { result ≡ list_any spec.is_hash_source sources.now }
{
    sources.as_slice().iter().any(is_hash_source)
}

fn is_hash_source(source: &Source) -> bool
    ensures { result ≡ spec.is_hash_source source.now }
{
    matches!(source, Source::Digest { .. })
}
