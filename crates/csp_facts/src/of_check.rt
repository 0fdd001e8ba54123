//! The shape of a check.
ghost use Rattle.std.specs.Prelude.{◌≡◌, IsTrue};
ghost use Rattle.csp_facts.specs.Shapes as spec;

use crate::shape::Shape;
use csp_model::{Check, Group, Scheme, Url};

/// The shape of a check, which is one of the 189. For a fetch of a group that isn't told apart by the parser
/// the shape leaves that flag aside.
pub fn shape_of(check: &Check) -> Shape
    ensures shape { spec.HasShape check.now result }
    ensures listed { IsTrue (spec.is_shape result) }
{
    match check {
        Check::Fetch {
            group,
            url,
            redirects,
            parser_inserted,
            ..
        } => Shape::Fetch {
            group: *group,
            scheme: hosted_scheme(url),
            redirected: *redirects != 0,
            parser_inserted: tells_parser(*group) && *parser_inserted,
        },
        Check::Form { url, redirects } => Shape::Form {
            scheme: hosted_scheme(url),
            redirected: *redirects != 0,
        },
        Check::Base { url } => Shape::Base {
            scheme: hosted_scheme(url),
        },
        Check::Ancestor { url } => Shape::Ancestor {
            scheme: hosted_scheme(url),
        },
        Check::OpaqueAncestor => Shape::OpaqueAncestor,
        Check::Inline { kind, .. } => Shape::Inline { kind: *kind },
        Check::Eval => Shape::Eval,
        Check::Wasm => Shape::Wasm,
        Check::Capability { capability } => Shape::Capability {
            capability: *capability,
        },
        Check::WorkerStart => Shape::WorkerStart,
    }
}

fn hosted_scheme(url: &Url) -> Option<Scheme>
    ensures { result ≡ spec.hosted_scheme url.now }
{
    match url {
        Url::Plain { .. } => None,
        Url::Hosted { scheme, .. } => Some(*scheme),
    }
}

// Whether fetches of the group are told apart by whether the parser inserted them.
fn tells_parser(group: Group) -> bool
    ensures { result ≡ spec.tells_parser group }
{
    matches!(group, Group::ScriptElem | Group::Worker)
}
