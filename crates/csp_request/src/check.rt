//! Files of one check.
ghost use Rattle.std.specs.Prelude.{◌≡◌, IfOk, All};
ghost use Rattle.csp_model.specs.Answers.{Gives};
ghost use Rattle.csp_model.specs.Validity.{IsValidCheck};
ghost use Rattle.csp_request.specs.Requests as spec;

use crate::description::describe;
use crate::error::{CheckError, DescriptionError};
use csp_json::{JsonError, Scratch, Value};
use csp_model::{Check, List};
use std::alloc::Global;

// The check of a list that has one alone.
#[tactic(auto, using(crate::proofs::OnlyCheck::several))]
fn only_check(mut checks: List<Check>) -> Result<Check, CheckError>
    requires { All IsValidCheck checks }
    ensures check { result ≡ spec.only_check checks }
    ensures valid { IfOk result IsValidCheck }
{
    match checks.pop() {
        None => Err(CheckError::NotOneCheck),
        Some(check) => {
            if checks.is_empty() {
                Ok(check)
            } else {
                Err(CheckError::NotOneCheck)
            }
        }
    }
}

/// The check that a file of one description asks for (RFC 8259). `NotOneCheck` comes where the description is
/// good and has no check, as the fetch of a report, or several, as a redirect chain.
pub fn read_check(alloc: Global, bytes: &[u8]) -> Result<Check, CheckError>
    ensures check { Gives CheckError.Memory result (spec.check_of bytes.now) }
    ensures valid { IfOk result IsValidCheck }
{
    let mut scratch = Scratch::new(alloc);
    let value = match Value::from_slice(alloc, bytes, &mut scratch) {
        Ok(value) => value,
        Err(JsonError::NotJson) => return Err(CheckError::NotJson),
        Err(JsonError::Memory) => return Err(CheckError::Memory),
    };
    match describe(alloc, &value) {
        Ok(described) => only_check(described.checks),
        Err(DescriptionError::Misused { field }) => Err(CheckError::BadCheck { field }),
        Err(DescriptionError::TooManyHops) => Err(CheckError::TooManyHops),
        Err(DescriptionError::Memory) => Err(CheckError::Memory),
    }
}
