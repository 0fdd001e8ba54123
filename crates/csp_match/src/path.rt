//! Paths (Content Security Policy Level 3, section 6.7.2, "path-part matches").
ghost use Rattle.std.specs.Prelude.{◌≡◌};
ghost use Rattle.csp_model.specs.DecideMatching as spec;

use csp_model::{Path, PathPart};

/// Whether a host-source's path matches a URL's, piece by piece.
pub fn path_matches(part: &PathPart, path: &Path) -> bool
    ensures { result ≡ spec.path_matches part.now path.now }
{
    match part {
        PathPart::Absent => true,
        PathPart::Exact(own) => own == path,
        PathPart::Prefix(front) => path.goes_beyond(front),
    }
}
