//! Why a text is no proof.
ghost use Rattle.std.specs.Prelude.{◌≡◌};

use csp_model::Memory;
use thiserror::Error;

/// Why a text isn't read as a proof.
#[derive(Clone, Copy, Debug, PartialEq, Eq, Error)]
pub enum ProofError {
    /// The line of this number, counted from 1, can't stand there.
    #[error("line {line} cannot stand there")]
    BadProof { line: u32 },
    /// There was no memory.
    #[error("no memory")]
    Memory,
}

impl From<Memory> for ProofError {
    ghost use Rattle.csp_proof.specs.declared.error.ProofError.{ProofError};

    ghost from_gives = { λ _ made. made ≡ ProofError.Memory };

    fn from(_: Memory) -> ProofError {
        ProofError::Memory
    }
}
