//! Which directive governs a check, and under which name (Content Security Policy Level 3, sections 6.8.3 and
//! 6.8.4).
ghost use Rattle.std.specs.Prelude.{◌≡◌, ◌<◌, length, IfSome};
ghost use Rattle.std.specs.Option.{option_map};
ghost use Rattle.csp_match.specs.Shown.{shown};
ghost use Rattle.csp_model.specs.Governing as spec;

use crate::governs::Governor;
use csp_model::{Directive, Name, Policy, name_text};

/// What governs a check that asks for the directive `effective` (Content Security Policy Level 3, sections
/// 6.8.3 and 6.8.4): of the first name in the fallback list of `effective` that the policy has, the first
/// directive.
///
/// No other directive is looked at, whatever that one says. None comes exactly where the policy has none of
/// these names. Such a policy allows the check.
pub fn governor(policy: &Policy, effective: Name) -> Option<Governor<'_>>
    ensures { option_map shown result ≡ spec.governor policy.now effective }
{
    let directives = policy.directives.as_slice();
    for name in effective.fallbacks() {
        if let Some(found) = governor_named(directives, *name) {
            return Some(found);
        }
    }
    None
}

/// The place, counted from 0, of the directive that `governor` finds.
pub fn governing(policy: &Policy, effective: Name) -> Option<usize>
    ensures place { result ≡ spec.governing_place policy.now effective }
    ensures within { IfSome result (λ place. place < length policy.now.directives) }
{
    let directives = policy.directives.as_slice();
    for name in effective.fallbacks() {
        if let Some(place) = place_of_name(directives, *name) {
            return Some(place);
        }
    }
    None
}

// The first directive of a name.
#[tactic(auto, unfolding(csp_model::specs::Governing::governor_named))]
fn governor_named(directives: &[Directive], name: Name) -> Option<Governor<'_>>
    ensures { option_map shown result ≡ spec.governor_named directives.now name }
{
    directives
        .iter()
        .find(|directive| is_named(name, directive))
        .map(|directive| Governor { name, directive })
}

// The place of the first directive of a name.
#[tactic(auto, unfolding(csp_model::specs::Governing::place_of_name))]
fn place_of_name(directives: &[Directive], name: Name) -> Option<usize>
    ensures place { result ≡ spec.place_of_name directives.now name }
    ensures within { IfSome result (λ place. place < length directives.now) }
{
    directives
        .iter()
        .position(|directive| is_named(name, directive))
}

pub(crate) fn is_named(name: Name, directive: &Directive) -> bool
    ensures { result ≡ spec.is_named name directive.now }
{
    directive.name.as_str() == name_text(name)
}
