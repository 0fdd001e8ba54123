//! The numbers of the shapes, from 0 to 188.
ghost use Rattle.std.specs.Prelude.{◌≡◌, ◌<◌, ◌≤◌, ◌+◌, ◌*◌, ◌||◌, not, IsTrue, MatchOption};
ghost use Rattle.csp_facts.specs.Numbers as spec;
ghost use Rattle.csp_facts.specs.Shapes.{is_shape, tells_parser};

use crate::shape::Shape;
use csp_model::{Capability, Group, InlineKind, Scheme};

// The groups of fetches, told apart by whether the parser inserted them where that counts.
const FETCHES: [(Group, bool); 12] = [
    (Group::Connect, false),
    (Group::Font, false),
    (Group::Frame, false),
    (Group::Img, false),
    (Group::Manifest, false),
    (Group::Media, false),
    (Group::Object, false),
    (Group::StyleElem, false),
    (Group::ScriptElem, false),
    (Group::ScriptElem, true),
    (Group::Worker, false),
    (Group::Worker, true),
];

const SCHEMES: [Option<Scheme>; 6] = [
    Some(Scheme::Http),
    Some(Scheme::Https),
    Some(Scheme::Ws),
    Some(Scheme::Wss),
    Some(Scheme::Ftp),
    None,
];

/// The shape of a number. None comes exactly where the number is above 188.
pub fn shape_at(place: u8) -> Option<Shape>
    ensures { MatchOption result (spec.shape_count ≤ place)
        (λ shape. IsTrue (is_shape shape) × (spec.number shape ≡ place)) }
{
    match place {
        0..=143 => Some(fetch_at(place)),
        144..=155 => {
            let (scheme, redirected) = url_at(place - 144);
            Some(Shape::Form { scheme, redirected })
        }
        156..=161 => Some(Shape::Base {
            scheme: scheme_at(place - 156),
        }),
        162..=167 => Some(Shape::Ancestor {
            scheme: scheme_at(place - 162),
        }),
        168 => Some(Shape::OpaqueAncestor),
        169..=173 => Some(Shape::Inline {
            kind: InlineKind::ALL[usize::from(place - 169)],
        }),
        174 => Some(Shape::Eval),
        175 => Some(Shape::Wasm),
        176..=187 => Some(Shape::Capability {
            capability: Capability::ALL[usize::from(place - 176)],
        }),
        188 => Some(Shape::WorkerStart),
        _ => None,
    }
}

/// The number of a shape. A fetch of a group that isn't told apart by the parser has the number of the shape
/// without that flag.
pub fn shape_number(shape: Shape) -> u8
    ensures { result ≡ spec.number shape }
{
    match shape {
        Shape::Fetch {
            group,
            scheme,
            redirected,
            parser_inserted,
        } => 12 * fetch_number(group, parser_inserted) + url_number(scheme, redirected),
        Shape::Form { scheme, redirected } => 144 + url_number(scheme, redirected),
        Shape::Base { scheme } => 156 + scheme_number(scheme),
        Shape::Ancestor { scheme } => 162 + scheme_number(scheme),
        Shape::OpaqueAncestor => 168,
        Shape::Inline { kind } => 169 + kind as u8,
        Shape::Eval => 174,
        Shape::Wasm => 175,
        Shape::Capability { capability } => 176 + capability as u8,
        Shape::WorkerStart => 188,
    }
}

fn fetch_at(place: u8) -> Shape
    requires { place < 144 }
    ensures listed { IsTrue (is_shape result) }
    ensures place { spec.number result ≡ place }
{
    let (group, parser_inserted) = group_at(place / 12);
    let (scheme, redirected) = url_at(place % 12);
    Shape::Fetch {
        group,
        scheme,
        redirected,
        parser_inserted,
    }
}

// The group of a row of twelve fetches, and whether the parser inserted them.
fn group_at(row: u8) -> (Group, bool)
    requires { row < 12 }
    ensures listed { IsTrue (not result.1 || tells_parser result.0) }
    ensures row { spec.fetch_number result.0 result.1 ≡ row }
{
    FETCHES[usize::from(row)]
}

fn fetch_number(group: Group, parser_inserted: bool) -> u8
    ensures value { result ≡ spec.fetch_number group parser_inserted }
    ensures bound { result < 12 }
{
    match group {
        Group::ScriptElem => 8 + u8::from(parser_inserted),
        Group::Worker => 10 + u8::from(parser_inserted),
        _ => group as u8,
    }
}

// The scheme of a URL, and whether it was redirected.
fn url_at(place: u8) -> (Option<Scheme>, bool)
    requires { place < 12 }
    ensures { spec.url_number result.0 result.1 ≡ place }
{
    (scheme_at(place / 2), place % 2 == 1)
}

// Two numbers for each scheme: not redirected, redirected.
fn url_number(scheme: Option<Scheme>, redirected: bool) -> u8
    ensures value { result ≡ spec.url_number scheme redirected }
    ensures bound { result < 12 }
{
    2 * scheme_number(scheme) + u8::from(redirected)
}

fn scheme_at(place: u8) -> Option<Scheme>
    requires { place < 6 }
    ensures { spec.scheme_number result ≡ place }
{
    SCHEMES[usize::from(place)]
}

fn scheme_number(scheme: Option<Scheme>) -> u8
    ensures value { result ≡ spec.scheme_number scheme }
    ensures bound { result < 6 }
{
    match scheme {
        Some(scheme) => scheme as u8,
        None => 5,
    }
}
