//! Paths of host-sources, as keys.
ghost use Rattle.std.specs.Prelude.{◌≡◌};
ghost use Rattle.csp_match.specs.Keys as spec;
ghost use Rattle.csp_model.specs.Paths.{front_pieces, front_text};

use csp_model::PathPart;

// Which paths of URLs a host-source's path matches, beside its pieces.
#[derive(Clone, Copy, PartialEq, Eq, PartialOrd, Ord)]
pub(crate) enum PathKind {
    // All of them.
    Absent,
    // The one of the same pieces.
    Exact,
    // Those that have more pieces behind the same.
    Prefix,
}

impl PathKind {
    pub(crate) fn of(part: &PathPart) -> PathKind
        ensures { result ≡ spec.kind_of part.now }
    {
        match part {
            PathPart::Absent => PathKind::Absent,
            PathPart::Exact(_) => PathKind::Exact,
            PathPart::Prefix(_) => PathKind::Prefix,
        }
    }

    // Whether a path of this kind matches a URL's that begins with its pieces, and has no others if `ends`.
    pub(crate) fn takes(self, ends: bool) -> bool
        ensures { result ≡ spec.takes self ends }
    {
        match self {
            PathKind::Absent => true,
            PathKind::Exact => ends,
            PathKind::Prefix => !ends,
        }
    }
}

// The text of a host-source's path, with a slash at its end: the first pieces of a path are its where the
// text of the path begins with it.
pub(crate) fn front_of(part: &PathPart) -> &str
    ensures text { result.now ≡ front_text (front_pieces result.now) }
    ensures pieces { front_pieces result.now ≡ spec.part_pieces part.now }
{
    match part {
        PathPart::Absent => "/",
        PathPart::Exact(path) | PathPart::Prefix(path) => path.as_front(),
    }
}
