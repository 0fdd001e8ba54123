//! Whether a source expression matches a URL, and which directive governs a check (Content Security
//! Policy Level 3, sections 6.7.2, 6.8.3 and 6.8.4).
//!
//! No call but `Candidates::new` and `Index::new` takes memory.
#![tactic(auto)]

mod candidates;
mod fallback;
mod fronts;
mod governs;
mod host;
mod host_index;
mod host_key;
mod host_source;
mod hosted_url;
mod index;
mod multimap;
mod path;
mod path_key;
mod port;
mod scheme;
mod self_source;
mod source;

pub use candidates::{Candidates, names};
pub use fallback::{governing, governor};
pub use governs::Governor;
pub use index::Index;
pub use scheme::{is_network_scheme, own_scheme_matches, scheme_matches};
pub use self_source::self_scheme_matches;
pub use source::{list_matches, source_matches};
