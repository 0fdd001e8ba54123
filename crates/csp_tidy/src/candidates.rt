//! The tokens that may be taken away.
ghost use Rattle.std.specs.Prelude.{◌≡◌, ◌++◌, IfOk, IsTrue, OnOk};
ghost use Rattle.csp_match.specs.Candidates as governing;
ghost use Rattle.csp_model.specs.Verdict.{is_enforce};
ghost use Rattle.csp_tidy.specs.Candidates as spec;

use crate::place::TokenPlace;
use csp_match::names;
use csp_model::{
    Directive, Disposition, Keyword, Memory, Name, Policy, PolicyList, Source, name_text,
};
use std::alloc::Global;

// The places of all candidates, in order.
pub(crate) fn candidates(alloc: Global, list: &PolicyList) -> Result<Vec<TokenPlace>, Memory>
    ensures { IfOk result (λ places. places.items ≡ spec.candidates list.now) }
{
    let mut places = Vec::new(alloc);
    let mut number = 0;
    for policy in list.policies.as_slice() {
        if is_enforced(policy) {
            push_directives(&mut places, number, policy.directives.as_slice())?;
        }
        number += 1;
    }
    Ok(places)
}

// Adds those of a policy's directives.
fn push_directives(
    places: &mut Vec<TokenPlace>,
    policy: usize,
    directives: &[Directive],
) -> Result<(), Memory>
    ensures { OnOk result
        (places.new.items ≡ places.old.items ++ spec.directive_candidates policy 0 directives.now) }
{
    let mut number = 0;
    for directive in directives {
        if has_source_name(directive) {
            push_sources(places, policy, number, directive.sources.as_slice())?;
        }
        number += 1;
    }
    Ok(())
}

// Adds those of a directive's sources.
fn push_sources(
    places: &mut Vec<TokenPlace>,
    policy: usize,
    directive: usize,
    sources: &[Source],
) -> Result<(), Memory>
    ensures { OnOk result
        (places.new.items ≡ places.old.items ++ spec.source_candidates policy directive 0 sources.now) }
{
    let mut number = 0;
    for source in sources {
        if !is_report_sample(source) {
            places.push(TokenPlace {
                policy,
                directive,
                token: number,
            })?;
        }
        number += 1;
    }
    Ok(())
}

fn is_enforced(policy: &Policy) -> bool
    ensures { result ≡ is_enforce policy.now.disposition }
{
    matches!(policy.disposition, Disposition::Enforce)
}

fn is_report_sample(source: &Source) -> bool
    ensures { result ≡ spec.is_report_sample source.now }
{
    matches!(
        source,
        Source::Word {
            word: Keyword::ReportSample
        }
    )
}

// Whether the directive decides by sources.
fn has_source_name(directive: &Directive) -> bool
    ensures { result ≡ spec.has_source_name directive.now }
{
    can_govern(directive) && directive.name.as_str() != name_text(Name::Sandbox)
}

// Whether the directive can govern a check.
#[tactic(auto, unfolding(csp_match::specs::Candidates::can_govern))]
fn can_govern(directive: &Directive) -> bool
    ensures { result ≡ governing.can_govern directive.now }
{
    names()
        .iter()
        .any(|name| directive.name.as_str() == name_text(*name))
}

// Whether a candidate stands at the place.
pub(crate) fn is_candidate(list: &PolicyList, place: TokenPlace) -> bool
    ensures { IsTrue result → spec.IsCandidate list.now place }
{
    let Some(policy) = list.policies.get(place.policy) else {
        return false;
    };
    let Some(directive) = policy.directives.get(place.directive) else {
        return false;
    };
    let Some(source) = directive.sources.get(place.token) else {
        return false;
    };
    is_enforced(policy) && has_source_name(directive) && !is_report_sample(source)
}
