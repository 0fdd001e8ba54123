//! Requests and checks described in JSON: reads request files and files of single checks, and prints checks.
#![tactic(auto)]

mod chain;
mod check;
mod description;
mod destination;
mod element;
mod error;
mod fetch;
mod field;
mod inline;
mod kind;
mod located;
mod member;
mod print;
mod requests;
mod sample;
mod taking;
mod texts;
mod url_parts;
mod wanted;

pub use check::read_check;
pub use description::{describe, describe_for};
pub use error::{CheckError, DescriptionError, RequestError};
pub use field::Field;
pub use kind::{DescriptionKind, inline_text};
pub use print::check_json;
pub use requests::read_requests;
pub use taking::{Take, each};
pub use texts::ReportTexts;
pub use wanted::Wanted;
