//! Paths (URL Standard, section 4.1).
ghost use Rattle.std.specs.Prelude.{◌≡◌, IfOk};
ghost use Rattle.csp_url.specs.Reading as spec;

use csp_model::{Memory, Path};
use std::alloc::Global;

// The path that begins with a slash, where no piece is `.` or `..`.
#[tactic(auto, unfolding(crate::specs::Reading::found_path))]
pub(crate) fn found_path(alloc: Global, text: &[u8]) -> Result<Option<Path>, Memory>
    ensures { IfOk result (λ path. path ≡ spec.found_path text.now) }
{
    match text.split_first() {
        Some((b'/', rest)) => {
            let path = Path::read(alloc, rest)?;
            if path.has_dot_segment() {
                Ok(None)
            } else {
                Ok(Some(path))
            }
        }
        _ => Ok(None),
    }
}
