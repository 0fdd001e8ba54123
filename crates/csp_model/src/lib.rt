//! The types of Content Security Policy, and in `specs/` its definitions.
#![tactic(auto)]

mod address;
mod base64_value;
mod check;
mod copies;
mod destination;
mod domain;
mod element;
mod ends;
mod grammar;
pub mod laws;
mod list;
mod memory;
mod name;
mod path;
mod policy;
mod scheme;
mod source;
mod text;
mod trace;
mod url;
mod verdict;

pub use address::{is_address, is_four_numbers};
pub use base64_value::is_base64_value;
pub use check::{Capability, Check, CheckPart, Digest, Digests, FetchRule, Group, InlineKind};
pub use copies::Duplicate;
pub use destination::{Destination, effective};
pub use domain::is_domain;
pub use element::{Element, element_nonce, nonceable};
pub use ends::is_subdomain;
pub use grammar::{are_digits, decimal_value, is_scheme, is_scheme_char};
pub use list::List;
pub use memory::Memory;
pub use name::{Name, name_text};
pub use path::{ESCAPED, Path};
pub use policy::{Directive, Disposition, Policy, PolicyList};
pub use scheme::is_lower_scheme;
pub use source::{Algorithm, Hash, HostPart, Keyword, PathPart, PortPart, Source};
pub use text::{Bytes, Text, is_ascii_text};
pub use trace::Trace;
pub use url::{Host, Origin, Scheme, Url};
pub use verdict::{Described, Item, Verdict, Violation};
