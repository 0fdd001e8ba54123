//! Why a URL or an origin is refused.
ghost use Rattle.std.specs.Prelude.{◌≡◌};

use csp_model::Memory;
use thiserror::Error;

/// A part of a URL.
#[derive(Clone, Copy, Debug, PartialEq, Eq)]
pub enum Part {
    Scheme,
    Host,
    Port,
    Path,
}

/// Why parts make no URL.
#[derive(Clone, Copy, Debug, PartialEq, Eq, Error)]
pub enum PartsError {
    /// The first part, in the order of the arguments, that isn't valid.
    #[error("a part of the URL is not valid")]
    Bad { part: Part },
    /// There was no memory.
    #[error("no memory")]
    Memory,
}

/// Why a text isn't read as a URL.
#[derive(Clone, Copy, Debug, PartialEq, Eq, Error)]
pub enum UrlError {
    /// The text is no absolute URL, or one whose scheme, host, port or path isn't valid here.
    #[error("not a URL")]
    NotAUrl,
    /// There was no memory.
    #[error("no memory")]
    Memory,
}

/// Why a text isn't read as an origin.
#[derive(Clone, Copy, Debug, PartialEq, Eq, Error)]
pub enum OriginError {
    /// The text is neither `null` nor a URL of http or https that says no more than its origin.
    #[error("bad origin")]
    BadOrigin,
    /// There was no memory.
    #[error("no memory")]
    Memory,
}

impl From<Memory> for PartsError {
    ghost use Rattle.csp_url.specs.Types.{PartsError};

    ghost from_gives = { λ _ made. made ≡ PartsError.Memory };

    fn from(_: Memory) -> PartsError {
        PartsError::Memory
    }
}

impl From<Memory> for UrlError {
    ghost use Rattle.csp_url.specs.Types.{UrlError};

    ghost from_gives = { λ _ made. made ≡ UrlError.Memory };

    fn from(_: Memory) -> UrlError {
        UrlError::Memory
    }
}

impl From<Memory> for OriginError {
    ghost use Rattle.csp_url.specs.Types.{OriginError};

    ghost from_gives = { λ _ made. made ≡ OriginError.Memory };

    fn from(_: Memory) -> OriginError {
        OriginError::Memory
    }
}
