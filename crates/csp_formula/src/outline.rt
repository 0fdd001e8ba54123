//! What a source says of the checks of a shape, but for its texts. None of them is copied.
ghost use Rattle.std.specs.Prelude.{◌≡◌, IsTrue};
ghost use Rattle.csp_model.specs.declared.source.HostPart.{HostPart as HostPartValue};
ghost use Rattle.csp_model.specs.declared.source.Source.{Source as SourceValue};
ghost use Rattle.csp_model.specs.declared.source.Source.TheVariants.{Hosted as HostedSource, SchemeOnly};
ghost use Rattle.csp_model.specs.declared.url.Origin.{Origin as OriginValue};
ghost use Rattle.csp_formula.specs.Outlines as spec;
ghost use Rattle.csp_formula.specs.Sources as sentences;

use crate::shapes::{after_redirect, is_ancestor, shape_scheme};
use csp_facts::Shape;
use csp_match::{is_network_scheme, own_scheme_matches, scheme_matches, self_scheme_matches};
use csp_model::{Keyword, Origin, Path, PathPart, PortPart, Scheme, Source, Text};

/// What a source says of a port.
#[derive(Clone, Copy)]
pub enum PortOutline {
    Constant(bool),
    /// It is this one.
    Is(u16),
}

/// What a source says of a path.
#[derive(Clone, Copy)]
pub enum PathOutline {
    Constant(bool),
    /// It is that of the source, or begins with it.
    Itself,
}

/// What a source says of the checks of a shape, but for its own texts.
#[derive(Clone, Copy)]
pub enum Outline {
    Constant(bool),
    /// The scheme is that of the source.
    Scheme,
    /// The host is that of the source, and so much holds of the port and the path.
    Hosted {
        port: PortOutline,
        path: PathOutline,
    },
    /// The host is that of the policy's origin, and so much holds of the port.
    Own {
        port: PortOutline,
    },
}

/// The outline of a source of a policy of this origin.
pub fn source_outline(origin: &Origin, shape: Shape, source: &Source) -> Outline
    ensures { spec.outlined result origin.now source.now
        ≡ sentences.source_sentence origin.now shape source.now }
{
    match source {
        Source::Star => match shape_scheme(shape) {
            Some(scheme) => Outline::Constant(is_network_scheme(scheme.as_str())),
            None => Outline::Constant(false),
        },
        Source::SchemeOnly { scheme } => scheme_outline(scheme, shape_scheme(shape)),
        Source::Hosted {
            scheme,
            port,
            path,
            ..
        } => host_source_outline(scheme, *port, path, origin, shape),
        Source::Word {
            word: Keyword::SelfOrigin,
        } => self_outline(origin, shape_scheme(shape)),
        _ => Outline::Constant(false),
    }
}

// The outline of a scheme-source.
fn scheme_outline(part: &Text, scheme: Option<Scheme>) -> Outline
    ensures { (self : OriginValue) → spec.outlined result self (SchemeOnly part.now)
        ≡ sentences.scheme_sentence part.now scheme }
{
    match scheme {
        Some(scheme) => Outline::Constant(scheme_matches(part.as_str(), scheme.as_str())),
        None if Scheme::from_name(part.as_str()).is_some() => Outline::Constant(false),
        None => Outline::Scheme,
    }
}

// The outline of a host-source, whatever its host.
fn host_source_outline(
    scheme_part: &Option<Text>,
    port: PortPart,
    path: &PathPart,
    origin: &Origin,
    shape: Shape,
) -> Outline
    ensures { (host : HostPartValue) → spec.outlined result origin.now
        (HostedSource scheme_part.now host port path.now)
        ≡ sentences.host_source_sentence scheme_part.now host port path.now origin.now shape
        (sentences.shape_scheme shape) }
{
    match shape_scheme(shape) {
        Some(scheme) if own_scheme_matches(scheme_part, origin, scheme) => Outline::Hosted {
            port: port_outline(port, scheme),
            path: path_outline(path, shape),
        },
        _ => Outline::Constant(false),
    }
}

// The outline of `'self'`.
fn self_outline(origin: &Origin, scheme: Option<Scheme>) -> Outline
    ensures { (source : SourceValue) → spec.outlined result origin.now source
        ≡ sentences.self_sentence origin.now scheme }
{
    match (origin, scheme) {
        (
            Origin::Tuple {
                scheme: own,
                port,
                ..
            },
            Some(scheme),
        ) if self_scheme_matches(*own, scheme) => Outline::Own {
            port: own_port_outline(*port, scheme),
        },
        _ => Outline::Constant(false),
    }
}

// The outline of a port at a scheme.
fn port_outline(part: PortPart, scheme: Scheme) -> PortOutline
    ensures { spec.port_said result ≡ sentences.port_sentence part scheme }
{
    match part {
        PortPart::Absent => PortOutline::Is(scheme.default_port()),
        PortPart::Any => PortOutline::Constant(true),
        PortPart::Number(number) => PortOutline::Is(number),
        PortPart::TooLarge => PortOutline::Constant(false),
    }
}

// The outline of an origin's port at a scheme.
fn own_port_outline(port: Option<u16>, scheme: Scheme) -> PortOutline
    ensures { spec.port_said result ≡ sentences.own_port_sentence port scheme }
{
    match port {
        None => PortOutline::Is(scheme.default_port()),
        Some(number) if number == scheme.default_port() => PortOutline::Constant(false),
        Some(number) => PortOutline::Is(number),
    }
}

// The outline of a path. After a redirect every path will do, and the path of an ancestor is `/`.
fn path_outline(part: &PathPart, shape: Shape) -> PathOutline
    ensures { spec.path_said result part.now ≡ sentences.path_sentence part.now shape }
{
    match part {
        PathPart::Absent => PathOutline::Constant(true),
        PathPart::Exact(_) if after_redirect(shape) => PathOutline::Constant(true),
        PathPart::Exact(path) => piece_outline(path, shape),
        PathPart::Prefix(front) if after_redirect(shape) || front.is_empty() => {
            PathOutline::Constant(true)
        }
        PathPart::Prefix(front) => piece_outline(front, shape),
    }
}

// The outline of pieces that are looked at. Those of an ancestor, and those that no URL has, are never there.
fn piece_outline(path: &Path, shape: Shape) -> PathOutline
    ensures { result ≡ spec.pieces_outline (sentences.has_dots path.now) (sentences.is_ancestor shape) }
{
    if path.has_dot_segment() || is_ancestor(shape) {
        PathOutline::Constant(false)
    } else {
        PathOutline::Itself
    }
}
