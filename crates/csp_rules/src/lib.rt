//! Whether a policy allows a fetch (Content Security Policy Level 3, sections 6.1 and 6.7.1), inline code and style,
//! string compilation and WebAssembly (sections 4.2.3, 4.3, 4.4 and 6.7.3), base URLs, form submissions, ancestors and
//! what a sandbox takes away (sections 6.3 and 6.4; HTML Standard, section 7.1.5).
//!
//! No call takes memory.
#![tactic(auto)]

mod fetch;
pub mod fetch_laws;
mod inline;
pub mod inline_laws;
mod listed;
pub mod navigation_laws;
mod sandbox;

pub use fetch::{decided_by_tokens, fetch_allows, fetch_allows_listed};
pub use inline::{
    allows_all_inline, eval_allows, hash_counts, inline_allows, is_element_kind, is_script_kind,
    sources_allow_eval, sources_allow_inline, sources_allow_wasm, wasm_allows,
};
pub use listed::{ancestor_allows, base_allows, form_allows, opaque_ancestor_allows};
pub use sandbox::{capability_allows, token_grants, worker_start_allows};
