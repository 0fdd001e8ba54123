//! What `read` prints: how a policy file is read.
ghost use Rattle.std.specs.Prelude.{◌≡◌, IfOk};
ghost use Rattle.csp_output.specs.Readings.{told_output};

use crate::built::Built;
use crate::status::Status;
use csp_model::Memory;
use csp_policy::reading;
use std::alloc::Global;

/// What `read` prints: what became of each piece of a header block, as `csp_policy::reading` tells it. The
/// status is `Clean`.
pub fn read(alloc: Global, block: &[u8]) -> Result<Built, Memory>
    ensures { IfOk result (λ built. built ≡ told_output block.now) }
{
    Ok(Built {
        status: Status::Clean,
        text: reading(alloc, block)?,
    })
}
