//! What a policy is asked at a shape: all that its formula depends on there. No text of a source is read.
ghost use Rattle.std.specs.Prelude.{◌≡◌, List as Items, false, option_copied, slice_get};
ghost use Rattle.std.specs.List.{list_any};
ghost use Rattle.std.specs.Option.{option_map};
ghost use Rattle.csp_model.specs.declared.policy.Directive.{Directive as DirectiveValue};
ghost use Rattle.csp_model.specs.declared.source.Hash.{Hash as HashValue};
ghost use Rattle.csp_formula.specs.Compiled as compiled;
ghost use Rattle.csp_formula.specs.Questions as spec;

use csp_facts::Shape;
use csp_match::{governing, governor};
use csp_model::laws::what_governs_stands_at_its_place;
use csp_model::{
    FetchRule, Group, InlineKind, Keyword, List, Name, PathPart, Policy, Scheme, Source,
};
use csp_rules::{
    allows_all_inline, capability_allows, eval_allows, opaque_ancestor_allows, wasm_allows,
    worker_start_allows,
};
use csp_token::Tokens;

/// What a policy is asked at a shape of checks: all that its formula there depends on. Shapes at which a
/// policy is asked the same have one formula.
#[derive(Clone, Copy, Debug, PartialEq, Eq)]
pub enum ShapeQuestion {
    /// All such checks are allowed, or none is, whatever a source says.
    Known(bool),
    /// What a list says of checks of URLs.
    Listed(ListQuestion),
    /// What the list of the directive at this place, counted from 0, says of inline code or style of a kind.
    Inline { place: usize, kind: InlineKind },
}

/// What a list is asked of checks of URLs.
#[derive(Clone, Copy, Debug, PartialEq, Eq)]
pub struct ListQuestion {
    /// The place of the list's directive in the policy, counted from 0.
    pub place: usize,
    /// How it decides.
    pub rule: FetchRule,
    /// The scheme of the URLs. None stands for every scheme but the five of `Scheme`.
    pub scheme: Option<Scheme>,
    /// Whether a redirect led to them.
    pub redirected: bool,
    /// Whether they are those of ancestors.
    pub is_ancestor: bool,
    /// Whether the parser inserted what fetches them, which counts for scripts alone.
    pub parser_inserted: bool,
}

impl ListQuestion {
    /// A shape with these URLs.
    pub fn shape(&self) -> Shape
        ensures { result ≡ spec.shape_asked self.now }
    {
        if self.is_ancestor {
            Shape::Ancestor {
                scheme: self.scheme,
            }
        } else {
            Shape::Form {
                scheme: self.scheme,
                redirected: self.redirected,
            }
        }
    }
}

/// What a policy is asked at the shape. Its answer is the sentence that the policy has there.
pub fn question_at(policy: &Policy, shape: Shape) -> ShapeQuestion
    ensures { (hashes : Items HashValue) → spec.question_sentence policy.now hashes result
        ≡ compiled.policy_sentence policy.now shape hashes }
{
    match shape {
        Shape::Fetch {
            group,
            scheme,
            redirected,
            parser_inserted,
        } => fetch_question(policy, group, scheme, redirected, parser_inserted),
        Shape::Form { scheme, redirected } => {
            listed_question(policy, Name::FormAction, scheme, redirected, false)
        }
        Shape::Base { scheme } => listed_question(policy, Name::BaseUri, scheme, false, false),
        Shape::Ancestor { scheme } => {
            listed_question(policy, Name::FrameAncestors, scheme, false, true)
        }
        Shape::OpaqueAncestor => ShapeQuestion::Known(opaque_ancestor_allows(policy)),
        Shape::Inline { kind } => inline_question(policy, kind),
        Shape::Eval => ShapeQuestion::Known(eval_allows(policy)),
        Shape::Wasm => ShapeQuestion::Known(wasm_allows(policy)),
        Shape::Capability { capability } => {
            ShapeQuestion::Known(capability_allows(policy, capability))
        }
        Shape::WorkerStart => ShapeQuestion::Known(worker_start_allows(policy)),
    }
}

// What the policy is asked of the URLs that a list decides on alone.
fn listed_question(
    policy: &Policy,
    effective: Name,
    scheme: Option<Scheme>,
    redirected: bool,
    is_ancestor: bool,
) -> ShapeQuestion
    ensures { (hashes : Items HashValue) → spec.question_sentence policy.now hashes result
        ≡ compiled.listed_sentence policy.now effective (spec.urls_shape scheme redirected is_ancestor) }
{
    what_governs_stands_at_its_place();
    match (governing(policy, effective), governor(policy, effective)) {
        (Some(place), Some(found)) => {
            let asked = ListQuestion {
                place,
                rule: FetchRule::List,
                scheme,
                redirected,
                is_ancestor,
                parser_inserted: false,
            };
            of_list(asked, &found.directive.sources)
        }
        _ => ShapeQuestion::Known(true),
    }
}

// What is asked of a list. One that is empty matches nothing, and that is known where it decides alone.
fn of_list(asked: ListQuestion, sources: &List<Source>) -> ShapeQuestion
    ensures { result ≡ spec.of_list asked sources.now }
{
    if matches!(asked.rule, FetchRule::List) && sources.is_empty() {
        ShapeQuestion::Known(false)
    } else {
        ShapeQuestion::Listed(asked)
    }
}

// What the policy is asked of fetches of a group.
fn fetch_question(
    policy: &Policy,
    group: Group,
    scheme: Option<Scheme>,
    redirected: bool,
    parser_inserted: bool,
) -> ShapeQuestion
    ensures { (hashes : Items HashValue) → spec.question_sentence policy.now hashes result
        ≡ compiled.group_sentence policy.now group (spec.urls_shape scheme redirected false)
        parser_inserted hashes }
{
    what_governs_stands_at_its_place();
    let effective = group.directive();
    match (governing(policy, effective), governor(policy, effective)) {
        (Some(place), Some(found)) => {
            let sources = &found.directive.sources;
            let rule = group.rule(found.name);
            let asked = list_question(place, rule, scheme, redirected, parser_inserted, sources);
            of_list(asked, sources)
        }
        _ => ShapeQuestion::Known(true),
    }
}

// What a list is asked of fetches. A redirect is left out where no path is compared, and what inserted the
// element where `'strict-dynamic'` doesn't look at it, so that most equal questions look alike.
fn list_question(
    place: usize,
    rule: FetchRule,
    scheme: Option<Scheme>,
    redirected: bool,
    parser_inserted: bool,
    sources: &List<Source>,
) -> ListQuestion
    ensures { result ≡ spec.list_question place rule scheme redirected parser_inserted sources.now }
{
    ListQuestion {
        place,
        rule,
        scheme,
        redirected: redirected && redirect_counts(scheme, sources),
        is_ancestor: false,
        parser_inserted: parser_inserted && is_dynamic(rule, sources),
    }
}

// Whether it counts that a redirect led to URLs of the scheme: a path can be compared.
fn redirect_counts(scheme: Option<Scheme>, sources: &List<Source>) -> bool
    ensures { result ≡ spec.redirect_counts scheme sources.now }
{
    scheme.is_some() && has_paths(sources)
}

// Whether one of the sources has a path.
fn has_paths(sources: &List<Source>) -> bool
    ensures { result ≡ list_any spec.has_path sources.now }
{
    sources.as_slice().iter().any(has_path)
}

fn has_path(source: &Source) -> bool
    ensures { result ≡ spec.has_path source.now }
{
    match source {
        Source::Hosted { path, .. } => !matches!(path, PathPart::Absent),
        _ => false,
    }
}

/// Whether `'strict-dynamic'` stands in place of what the list says of URLs.
pub fn is_dynamic(rule: FetchRule, sources: &List<Source>) -> bool
    ensures { result ≡ spec.is_dynamic rule sources.now }
{
    matches!(rule, FetchRule::Script) && sources.has_keyword(Keyword::StrictDynamic)
}

// What the policy is asked of inline code or style of a kind. All of it is allowed where `'unsafe-inline'`
// acts.
fn inline_question(policy: &Policy, kind: InlineKind) -> ShapeQuestion
    ensures { (hashes : Items HashValue) → spec.question_sentence policy.now hashes result
        ≡ compiled.kind_sentence policy.now kind }
{
    what_governs_stands_at_its_place();
    let effective = kind.directive();
    match (governing(policy, effective), governor(policy, effective)) {
        (Some(_), Some(found)) if allows_all_inline(kind, &found.directive.sources) => {
            ShapeQuestion::Known(true)
        }
        (Some(place), Some(_)) => ShapeQuestion::Inline { place, kind },
        _ => ShapeQuestion::Known(true),
    }
}

/// The list of the directive at the place.
pub fn sources_at(policy: &Policy, place: usize) -> Option<&List<Source>>
    ensures { option_copied result
        ≡ option_map (λ (d : DirectiveValue). d.sources) (slice_get policy.now.directives place) }
{
    let directive = policy.directives.as_slice().get(place)?;
    Some(&directive.sources)
}
