//! Why a description, a request file or a check can't be read.
ghost use Rattle.std.specs.Prelude.{◌≡◌};

use crate::field::Field;
use csp_json::JsonError;
use csp_model::Memory;
use thiserror::Error;

/// Why a description stands for no request.
#[derive(Clone, Copy, Debug, PartialEq, Eq, Error)]
pub enum DescriptionError {
    /// The member is missing where it is required, or has another form than its own.
    #[error("a member is missing or misused")]
    Misused { field: Field },
    /// The member `urls` has more than 21 URLs.
    #[error("there are too many hops")]
    TooManyHops,
    /// There was no memory.
    #[error("no memory")]
    Memory,
}

impl From<Memory> for DescriptionError {
    ghost use Rattle.csp_request.specs.declared.error.DescriptionError.{DescriptionError};

    ghost from_gives = { λ _ made. made ≡ DescriptionError.Memory };

    fn from(_: Memory) -> DescriptionError {
        DescriptionError::Memory
    }
}

/// Why a request file can't be read.
#[derive(Clone, Copy, Debug, PartialEq, Eq, Error)]
pub enum RequestError {
    /// The file isn't a JSON array.
    #[error("not a JSON array")]
    NotJson,
    /// The array has more than 10,000 items.
    #[error("there are too many requests")]
    TooManyRequests,
    /// A member of the description of this number, counted from 1, is missing or misused.
    #[error("a description has a bad member")]
    BadRequest { index: u32, field: Field },
    /// The member `urls` of the description of this number, counted from 1, has more than 21 URLs.
    #[error("there are too many hops")]
    TooManyHops { index: u32 },
    /// There was no memory.
    #[error("no memory")]
    Memory,
}

impl From<Memory> for RequestError {
    ghost use Rattle.csp_request.specs.declared.error.RequestError.{RequestError};

    ghost from_gives = { λ _ made. made ≡ RequestError.Memory };

    fn from(_: Memory) -> RequestError {
        RequestError::Memory
    }
}

impl From<JsonError> for RequestError {
    ghost use Rattle.csp_request.specs.Requests.{of_json};

    ghost from_gives = { λ error made. made ≡ of_json error };

    fn from(error: JsonError) -> RequestError {
        match error {
            JsonError::NotJson => RequestError::NotJson,
            JsonError::Memory => RequestError::Memory,
        }
    }
}

/// Why a file isn't one check.
#[derive(Clone, Copy, Debug, PartialEq, Eq, Error)]
pub enum CheckError {
    /// The file isn't JSON.
    #[error("not JSON")]
    NotJson,
    /// A member of the description is missing or misused.
    #[error("the description has a bad member")]
    BadCheck { field: Field },
    /// The member `urls` has more than 21 URLs.
    #[error("there are too many hops")]
    TooManyHops,
    /// The description is good, and has no check or several.
    #[error("not one check")]
    NotOneCheck,
    /// There was no memory.
    #[error("no memory")]
    Memory,
}

impl From<Memory> for CheckError {
    ghost use Rattle.csp_request.specs.declared.error.CheckError.{CheckError};

    ghost from_gives = { λ _ made. made ≡ CheckError.Memory };

    fn from(_: Memory) -> CheckError {
        CheckError::Memory
    }
}
