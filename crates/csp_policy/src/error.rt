//! Why a header block is refused.
ghost use Rattle.std.specs.Prelude.{◌≡◌};

use csp_model::Memory;
use thiserror::Error;

/// What is refused in a header block.
#[derive(Clone, Copy, Debug, PartialEq, Eq, Error)]
pub enum BlockError {
    /// The line of this number, counted from 1, is neither empty nor a header.
    #[error("line {line} is not a header")]
    BadLine { line: u32 },
    /// There are more than 64 policies.
    #[error("there are more than 64 policies")]
    TooManyPolicies,
    /// The directives have more than 1,024 value tokens together.
    #[error("there are more than 1024 sources")]
    TooManySources,
    /// A directive's name or a value token is longer than 4,096 bytes.
    #[error("a name or a token is longer than 4096 bytes")]
    LongToken,
    /// There was no memory.
    #[error("no memory")]
    Memory,
}

impl From<Memory> for BlockError {
    ghost use Rattle.csp_policy.specs.Types.{BlockError};

    ghost from_gives = { λ _ made. made ≡ BlockError.Memory };

    fn from(_: Memory) -> BlockError {
        BlockError::Memory
    }
}
