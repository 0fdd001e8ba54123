//! Header blocks (Content Security Policy Level 3, sections 3.1 to 3.3).
ghost use Rattle.std.specs.Prelude.{◌≡◌, ◌<◌, ◌-◌, ◌^◌, ◌⊎◌, length, IfOk, OnOk, IfErr, Some, None};
ghost use Rattle.csp_model.specs.Answers.{Gives};
ghost use Rattle.csp_model.specs.Policies.{policies, first_bad, IsReadable};
ghost use Rattle.csp_model.specs.Validity.{IsValidOrigin};
ghost use Rattle.csp_policy.specs.Refusal as spec;
ghost use Rattle.csp_policy.specs.Room.{AreRead};

use crate::error::BlockError;
use crate::lines::{HeaderLine, read_line, without_status};
use crate::pieces::Pieces;
use crate::reader::Reader;
use csp_model::{Memory, Origin, PolicyList};
use std::alloc::Global;

// Reads the headers of a block's lines.
fn read_lines(alloc: Global, bytes: &[u8], origin: &Origin) -> Result<Reader, BlockError>
    requires { length bytes.now < 2 ^ 32 - 1 }
    ensures read { IfOk result
        (λ reader. AreRead (policies bytes.now origin.now) reader.policies reader.room) }
    ensures good { OnOk result (first_bad bytes.now ≡ None) }
    ensures bad { IfErr result
        (λ e. (e ≡ BlockError.Memory) ⊎ (spec.refusal_of bytes.now origin.now ≡ Some e)) }
{
    let mut reader = Reader::new(alloc);
    let mut number = 0;
    for line in Pieces::new(without_status(bytes), b'\n') {
        number += 1;
        match read_line(line) {
            HeaderLine::Skipped => {}
            HeaderLine::Bad => return Err(BlockError::BadLine { line: number }),
            HeaderLine::Header { name, value } => reader.add_header(alloc, origin, name, value)?,
        }
    }
    Ok(reader)
}

/// Reads the policies of a header block, in order (Content Security Policy Level 3, sections 3.1 to 3.3).
///
/// The block's lines end in LF, or in CR and LF; the last may lack its end. A first line that begins with
/// `HTTP/` and empty lines are passed over. Every other line is a field (RFC 9110, section 5): a name of at
/// most 65,535 bytes, `:` and a value. `Content-Security-Policy` has policies that are enforced, and
/// `Content-Security-Policy-Report-Only` policies that report. `Meta-Content-Security-Policy` stands for a
/// meta element with that content, and other names are ignored. Each policy is of `origin`.
///
/// A bad line is refused before all else, wherever it stands, and then the counts in the order of
/// `BlockError`. A directive that is dropped counts for nothing: one of a name that the policy has already,
/// or one that a meta element loses. A block is shorter than 4 GiB, so that each line has a number.
pub fn read_block(alloc: Global, bytes: &[u8], origin: &Origin) -> Result<PolicyList, BlockError>
    requires { length bytes.now < 2 ^ 32 - 1 }
    ensures list { Gives BlockError.Memory result (spec.list_of bytes.now origin.now) }
    ensures readable { IsValidOrigin origin.now → IfOk result IsReadable }
{
    let reader = read_lines(alloc, bytes, origin)?;
    match reader.excess() {
        Some(error) => Err(error),
        None => {
            let Reader { policies, .. } = reader;
            Ok(PolicyList { policies })
        }
    }
}
