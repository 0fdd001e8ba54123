//! The effective directives of checks, and the shapes that have them.
ghost use Rattle.std.specs.Prelude.{◌≡◌, ◌↔◌, Contains, IsTrue, MatchOption};
ghost use Rattle.csp_compare.specs.Differences as spec;

use csp_facts::{Shape, shape_at};
use csp_model::Name;

/// The effective directives that checks have (Content Security Policy Level 3, sections 6.8.1 and 6.8.2),
/// each once, in the order of their names.
pub fn effective_directives() -> &'static [Name]
    ensures { result.now ≡ spec.effective_names }
{
    &[
        Name::BaseUri,
        Name::ConnectSrc,
        Name::FontSrc,
        Name::FormAction,
        Name::FrameAncestors,
        Name::FrameSrc,
        Name::ImgSrc,
        Name::ManifestSrc,
        Name::MediaSrc,
        Name::ObjectSrc,
        Name::Sandbox,
        Name::ScriptSrc,
        Name::ScriptSrcAttr,
        Name::ScriptSrcElem,
        Name::StyleSrcAttr,
        Name::StyleSrcElem,
        Name::WorkerSrc,
    ]
}

// The shape of this number, if its checks have one of these effective directives.
pub(crate) fn shape_among(number: u8, effective: &[Name]) -> Option<Shape>
    ensures { MatchOption result
        (spec.HasNoneAt effective.now number) (spec.IsAmongAt effective.now number) }
{
    let shape = shape_at(number)?;
    if has_directive(shape, effective) {
        Some(shape)
    } else {
        None
    }
}

fn has_directive(shape: Shape, effective: &[Name]) -> bool
    ensures { IsTrue result ↔ Contains effective.now (spec.effective_of shape) }
{
    effective.contains(&effective_of(shape))
}

// The effective directive of the checks of a shape.
fn effective_of(shape: Shape) -> Name
    ensures { result ≡ spec.effective_of shape }
{
    match shape {
        Shape::Fetch { group, .. } => group.directive(),
        Shape::Form { .. } => Name::FormAction,
        Shape::Base { .. } => Name::BaseUri,
        Shape::Ancestor { .. } | Shape::OpaqueAncestor => Name::FrameAncestors,
        Shape::Inline { kind } => kind.directive(),
        Shape::Eval | Shape::Wasm => Name::ScriptSrc,
        Shape::Capability { .. } | Shape::WorkerStart => Name::Sandbox,
    }
}
