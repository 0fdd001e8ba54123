//! Digests that sources stand for.
ghost use Rattle.std.specs.Prelude.{◌≡◌};
ghost use Rattle.std.specs.Option.{option_map};
ghost use Rattle.base64.specs.GeneralPurpose.{IsBytes};
ghost use Rattle.csp_formula.specs.Sentences.{Fact};
ghost use Rattle.csp_formula.specs.Compiled as spec;

use csp_facts::Atom;
use csp_model::{Digest, Hash, Source};
use csp_token::hash_of;

/// The digest that a source stands for, if it is a hash-source.
pub fn source_digest(source: &Source) -> Option<Digest>
    ensures { option_map (λ d. Fact (Atom.DigestIs d)) result ≡ spec.digest_fact source.now }
{
    match source {
        Source::Digest { hash } => digest_of(hash),
        _ => None,
    }
}

// The digest that a hash stands for.
fn digest_of(hash: &Hash) -> Option<Digest>
    ensures { result ≡ spec.digest_of hash.now }
{
    slice_is_bytes(hash.value.as_str().as_bytes());
    hash_of(hash)
}

// Each byte of a slice is below 256.
fn slice_is_bytes(slice: &[u8])
    ensures { IsBytes slice.now }
{}
