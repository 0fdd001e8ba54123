//! What is asked of a source list's keywords, nonces and hashes.
ghost use Rattle.std.specs.Prelude.{◌≡◌, ◌↔◌, IsTrue, List as Items};
ghost use Rattle.std.specs.List.{list_any};
ghost use Rattle.csp_model.specs.DecideTokens as tests;
ghost use Rattle.csp_model.specs.Inline.{is_nonce_or_hash};
ghost use Rattle.csp_model.specs.Tokens.{HasKeyword, NonceMatches, IntegrityMatches, DigestsMatch};
ghost use Rattle.csp_model.specs.declared.source.Source.{Source as SourceValue};

use crate::digest::is_hash_of;
use crate::keyword::is_keyword;
use crate::matching::{integrity_matches, nonce_matches};
use csp_model::{Digests, Hash, Keyword, List, Source, Text};

/// A source list, or what was made of one, that can be asked for its keywords, nonces and hashes.
pub trait Tokens {
    /// The source list.
    ghost sources: { Self → Items SourceValue };

    /// Whether the list has a keyword.
    fn has_keyword(&self, word: Keyword) -> bool
        ensures value { result ≡ tests.has_keyword word (sources self.now) }
        ensures has { IsTrue result ↔ HasKeyword word (sources self.now) };

    /// Whether a nonce matches the list: it isn't empty, and it is byte by byte the value of a nonce-source.
    fn nonce_matches(&self, nonce: &Text) -> bool
        ensures value { result ≡ tests.nonce_matches nonce.now (sources self.now) }
        ensures matches { IsTrue result ↔ NonceMatches nonce.now (sources self.now) };

    /// Whether integrity metadata matches the list: it isn't empty, and each of its pairs of algorithm and
    /// value is a hash-source, the values compared byte by byte.
    fn integrity_matches(&self, integrity: &List<Hash>) -> bool
        ensures value { result ≡ tests.integrity_matches integrity.now (sources self.now) }
        ensures matches { IsTrue result ↔ IntegrityMatches integrity.now (sources self.now) };

    /// Whether some hash-source of the list stands for the digest of its algorithm (Content Security Policy
    /// Level 3, section 6.7.3.3).
    fn digests_match(&self, digests: &Digests) -> bool
        ensures value { result ≡ tests.digests_match digests.now (sources self.now) }
        ensures matches { IsTrue result ↔ DigestsMatch digests.now (sources self.now) };

    /// Whether the list has a nonce-source or a hash-source.
    fn has_nonce_or_hash(&self) -> bool
        ensures { result ≡ list_any is_nonce_or_hash (sources self.now) };
}

impl Tokens for List<Source> {
    ghost sources = { λ list. list };

    #[tactic(auto, using(csp_model::proofs::TokensDecided::keyword_decides))]
    fn has_keyword(&self, word: Keyword) -> bool {
        self.as_slice()
            .iter()
            .any(|source| is_keyword(source, word))
    }

    fn nonce_matches(&self, nonce: &Text) -> bool {
        nonce_matches(nonce, self)
    }

    fn integrity_matches(&self, integrity: &List<Hash>) -> bool {
        integrity_matches(integrity, self)
    }

    #[tactic(auto, using(csp_model::proofs::TokensDecided::digests_decide))]
    fn digests_match(&self, digests: &Digests) -> bool {
        self.as_slice()
            .iter()
            .any(|source| is_hash_of(source, digests))
    }

    fn has_nonce_or_hash(&self) -> bool {
        self.as_slice().iter().any(is_nonce_or_hash)
    }
}

fn is_nonce_or_hash(source: &Source) -> bool
    ensures { result ≡ is_nonce_or_hash source.now }
{
    matches!(source, Source::Nonce { .. } | Source::Digest { .. })
}
