//! The directives of a policy that can govern a check, told apart once from those that no check asks for.
ghost use Rattle.std.specs.Prelude.{◌≡◌, IfOk, map, filter};
ghost use Rattle.std.specs.List.{find, list_any};
ghost use Rattle.std.specs.Option.{option_map};
ghost use Rattle.csp_match.specs.Candidates as candidates;
ghost use Rattle.csp_match.specs.Shown.{shown};
ghost use Rattle.csp_model.specs.Governing as spec;

use crate::fallback::is_named;
use crate::governs::Governor;
use csp_model::{Directive, Memory, Name, Policy};
use std::alloc::{AllocError, Global};
use std::marker::Model;

/// The directives of a policy that can govern a check: those with one of the names of `Name::ALL`. It is seen as
/// the policy. Whoever asks what governs for one name after the other, as `csp_verdict` does, goes through
/// the other directives once.
#[derive(Drop)]
pub struct Candidates<'a> {
    policy: &'a Policy,
    directives: Vec<&'a Directive>,
}

impl<'a> Model for Candidates<'a> {
    ghost use Rattle.std.specs.Prelude.{◌≡◌, map, filter};
    ghost use Rattle.csp_match.specs.Candidates.{can_govern};
    ghost use Rattle.csp_model.specs.declared.policy.Policy.{Policy as PolicyValue};

    ghost Value = { PolicyValue };

    ghost view = { λ a. a.policy.now };

    ghost invariant = { λ a. map (λ d. d.now) a.directives.items ≡ filter can_govern a.policy.now.directives };
}

impl<'a> Candidates<'a> {
    /// The candidates of a policy. No directive is copied.
    pub fn new(alloc: Global, policy: &'a Policy) -> Result<Candidates<'a>, Memory>
        ensures policy { IfOk result (λ made. made ≡ policy.now) }
    {
        let directives = governing_directives(alloc, policy.directives.as_slice())?;
        Ok(Candidates { policy, directives })
    }

    /// What governs a check that asks for the directive `effective`, as `governor` says of the policy.
    pub fn governor(&self, effective: Name) -> Option<Governor<'a>>
        ensures governor { option_map shown result ≡ spec.governor self.now effective }
    {
        governor_among(self.directives.as_slice(), effective)
    }
}

// The directives that can govern.
fn governing_directives<'a>(
    alloc: Global,
    directives: &'a [Directive],
) -> Result<Vec<&'a Directive>, AllocError>
    ensures { IfOk result (λ made. map (λ d. d.now) made.items ≡ filter candidates.can_govern directives.now) }
{
    let mut made = Vec::new(alloc);
    for directive in directives {
        if can_govern(directive) {
            made.push(directive)?;
        }
    }
    Ok(made)
}

// Whether a directive has one of the names.
#[tactic(auto, unfolding(crate::specs::Candidates::can_govern))]
fn can_govern(directive: &Directive) -> bool
    ensures { result ≡ candidates.can_govern directive.now }
{
    Name::ALL.iter().any(|name| is_named(*name, directive))
}

/// The names of the directives that can govern a check.
pub fn names() -> &'static [Name]
    ensures { result.now ≡ candidates.names }
{
    &Name::ALL
}

// What governs, of directives among which the first of each name stands.
fn governor_among<'a>(directives: &[&'a Directive], effective: Name) -> Option<Governor<'a>>
    ensures { option_map shown result ≡ candidates.governor_among (map (λ d. d.now) directives.now) effective }
{
    for name in effective.fallbacks() {
        if let Some(found) = named_among(directives, *name) {
            return Some(found);
        }
    }
    None
}

// The first directive of a name.
#[tactic(auto, unfolding(csp_model::specs::Governing::governor_named))]
fn named_among<'a>(directives: &[&'a Directive], name: Name) -> Option<Governor<'a>>
    ensures { option_map shown result ≡ spec.governor_named (map (λ d. d.now) directives.now) name }
{
    for directive in directives {
        if is_named(name, directive) {
            return Some(Governor { name, directive });
        }
    }
    None
}
