//! Digests and the hashes that stand for them (Content Security Policy Level 3, section 6.7.3.3).
ghost use Rattle.std.specs.Prelude.{◌≡◌, ◌↔◌, IsTrue, IsNone, IfSome};
ghost use Rattle.csp_model.specs.DecideTokens as tests;
ghost use Rattle.csp_model.specs.Tokens.{HashMatches};
ghost use Rattle.csp_model.specs.Validity.{IsValidDigests};
ghost use Rattle.csp_token.specs.Digests as spec;

use crate::base64_value::{decode, stands_for};
use crate::size::digests_are_bytes;
use csp_model::{Algorithm, Digest, Digests, Hash, Source};
use sha2::Digest as _;

/// The three digests of a source text's bytes (FIPS 180-4).
pub fn digests(source: &[u8]) -> Digests
    ensures digests { result ≡ spec.digests_of source.now }
    ensures valid { IsValidDigests result }
{
    let digests = Digests {
        sha256: sha2::Sha256::digest(source),
        sha384: sha2::Sha384::digest(source),
        sha512: sha2::Sha512::digest(source),
    };
    digests_are_bytes(&digests);
    digests
}

/// Some of the digests' algorithms, as those of the digests that are worth computing.
#[derive(Clone, Copy, Debug, PartialEq, Eq)]
pub struct Algorithms {
    pub sha256: bool,
    pub sha384: bool,
    pub sha512: bool,
}

/// The digests of a source text's bytes by the algorithms that are wanted. In place of each other digest are
/// bytes that are all 0.
///
/// Where the algorithms of a source list's hash-sources are wanted, these digests match the list where all
/// three would: `laws::only_named_algorithms_count` says so.
pub fn digests_for(source: &[u8], wanted: Algorithms) -> Digests
    ensures digests { result ≡ spec.digests_for source.now wanted }
    ensures valid { IsValidDigests result }
{
    let mut digests = Digests {
        sha256: [0; 32],
        sha384: [0; 48],
        sha512: [0; 64],
    };
    if wanted.sha256 {
        digests.sha256 = sha2::Sha256::digest(source);
    }
    if wanted.sha384 {
        digests.sha384 = sha2::Sha384::digest(source);
    }
    if wanted.sha512 {
        digests.sha512 = sha2::Sha512::digest(source);
    }
    digests_are_bytes(&digests);
    digests
}

/// The digest that a hash stands for: its value, with `-` read as `+` and `_` as `/`, is the digest's
/// standard base64, padding and all. None comes exactly where no digest of the hash's algorithm has that
/// base64.
pub fn hash_of(hash: &Hash) -> Option<Digest>
    ensures digest { IfSome result (spec.IsDigestOf hash.now) }
    ensures size { IfSome result spec.IsDigest }
    ensures none { IsNone result
        → (digest : Digest) → spec.IsDigest digest → ¬ spec.IsDigestOf hash.now digest }
{
    let value = hash.value.as_str();
    match hash.algorithm {
        Algorithm::Sha256 => Some(Digest::Sha256(decode(value)?)),
        Algorithm::Sha384 => Some(Digest::Sha384(decode(value)?)),
        Algorithm::Sha512 => Some(Digest::Sha512(decode(value)?)),
    }
}

/// Whether a hash stands for the digest of its algorithm.
#[tactic(auto, using(csp_model::proofs::TokensDecided::hash_decides))]
pub fn digest_matches(hash: &Hash, digests: &Digests) -> bool
    ensures value { result ≡ tests.hash_matches hash.now digests.now }
    ensures matches { IsTrue result ↔ HashMatches hash.now digests.now }
{
    let value = hash.value.as_str();
    match hash.algorithm {
        Algorithm::Sha256 => stands_for(value, &digests.sha256),
        Algorithm::Sha384 => stands_for(value, &digests.sha384),
        Algorithm::Sha512 => stands_for(value, &digests.sha512),
    }
}

/// Whether a source is a hash-source that stands for the digest of its algorithm.
pub fn is_hash_of(source: &Source, digests: &Digests) -> bool
    ensures { result ≡ tests.is_hash_of digests.now source.now }
{
    match source {
        Source::Digest { hash } => digest_matches(hash, digests),
        _ => false,
    }
}
