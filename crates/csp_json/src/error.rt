//! Why a text can't be read.
use json::Invalid;
use std::alloc::{AllocError, AllocFailed};
use thiserror::Error;

/// Why a text wasn't read.
#[derive(Clone, Copy, Debug, PartialEq, Eq, Error)]
pub enum JsonError {
    /// It isn't what is asked for: a JSON value, or the rest of an array.
    #[error("not JSON")]
    NotJson,
    /// There was no memory.
    #[error("no memory")]
    Memory,
}

impl From<Invalid> for JsonError {
    ghost use Rattle.std.specs.Prelude.{◌≡◌};
    ghost use Rattle.csp_json.specs.Types.{JsonError};

    ghost from_gives = { λ _ e. e ≡ JsonError.NotJson };

    fn from(_: Invalid) -> JsonError {
        JsonError::NotJson
    }
}

impl From<AllocError> for JsonError {
    ghost use Rattle.std.specs.Prelude.{◌≡◌};
    ghost use Rattle.csp_json.specs.Types.{JsonError};

    ghost from_gives = { λ _ e. e ≡ JsonError.Memory };

    fn from(_: AllocError) -> JsonError {
        JsonError::Memory
    }
}

impl<T: Drop> From<AllocFailed<T>> for JsonError {
    ghost use Rattle.std.specs.Prelude.{◌≡◌};
    ghost use Rattle.csp_json.specs.Types.{JsonError};

    ghost from_gives = { λ _ e. e ≡ JsonError.Memory };

    fn from(_: AllocFailed<T>) -> JsonError {
        JsonError::Memory
    }
}
