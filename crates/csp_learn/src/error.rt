//! Why no policy is learnt from a log.
ghost use Rattle.std.specs.Prelude.{◌≡◌};

use csp_model::Memory;
use thiserror::Error;

/// Why no policy is learnt from a log.
#[derive(Clone, Copy, Debug, PartialEq, Eq, Error)]
pub enum LearnError {
    /// The log needs more than 1,023 sources, so that a policy file couldn't hold them and `'none'`.
    #[error("more than 1023 sources are needed")]
    TooManySources,
    /// There was no memory.
    #[error("no memory")]
    Memory,
}

impl From<Memory> for LearnError {
    ghost use Rattle.csp_learn.specs.declared.error.LearnError.{LearnError};

    ghost from_gives = { λ _ made. made ≡ LearnError.Memory };

    fn from(_: Memory) -> LearnError {
        LearnError::Memory
    }
}
