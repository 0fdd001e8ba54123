//! URLs and origins: reads them, makes them of parts, and writes them (URL Standard).
#![tactic(auto)]

mod error;
mod host;
pub mod laws;
mod origin;
mod parts;
mod path;
mod read;
mod strip;
mod text;

pub use error::{OriginError, Part, PartsError, UrlError};
pub use origin::read_origin;
pub use parts::url_from_parts;
pub use read::read_url;
pub use strip::{ShownUrl, read_shown_url, strip_url};
pub use text::url_text;
