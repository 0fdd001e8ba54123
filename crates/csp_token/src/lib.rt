//! Nonces, digests and integrity metadata (Content Security Policy Level 3, sections 6.7.2.3, 6.7.2.4 and
//! 6.7.3.3; Subresource Integrity, section 3.3).
#![tactic(auto)]

mod base64_value;
mod digest;
mod hash_sets;
mod index;
mod integrity;
mod keyword;
pub mod laws;
mod matching;
mod size;
mod tokens;

pub use digest::{Algorithms, digest_matches, digests, digests_for, hash_of, is_hash_of};
pub use index::TokenIndex;
pub use integrity::{integrity_text, read_integrity};
pub use keyword::is_keyword;
pub use matching::{integrity_matches, is_hash, is_nonce, nonce_matches};
pub use tokens::Tokens;
