//! What a shape says of the URLs of its checks.
ghost use Rattle.std.specs.Prelude.{◌≡◌};
ghost use Rattle.csp_formula.specs.Sources as spec;

use csp_facts::Shape;
use csp_model::Scheme;

// Their scheme, if it is one of the five.
pub(crate) fn shape_scheme(shape: Shape) -> Option<Scheme>
    ensures { result ≡ spec.shape_scheme shape }
{
    match shape {
        Shape::Fetch { scheme, .. }
        | Shape::Form { scheme, .. }
        | Shape::Base { scheme }
        | Shape::Ancestor { scheme } => scheme,
        _ => None,
    }
}

// Whether a redirect led to them.
pub(crate) fn after_redirect(shape: Shape) -> bool
    ensures { result ≡ spec.after_redirect shape }
{
    match shape {
        Shape::Fetch { redirected, .. } | Shape::Form { redirected, .. } => redirected,
        _ => false,
    }
}

pub(crate) fn is_ancestor(shape: Shape) -> bool
    ensures { result ≡ spec.is_ancestor shape }
{
    matches!(shape, Shape::Ancestor { .. })
}
