//! Hashes in sets, as pairs of algorithm and value and as the digests that they stand for.
ghost use Rattle.std.specs.Prelude.{◌≡◌, ◌||◌, false, OnOk};
ghost use Rattle.std.specs.List.{list_all};
ghost use Rattle.csp_model.specs.DecideTokens.{hash_matches};
ghost use Rattle.csp_model.specs.DecideEquality.{same_hash};
ghost use Rattle.csp_model.specs.Validity.{IsValidDigests};
ghost use Rattle.csp_token.specs.Types.{Digests as DigestsValue, Hash as HashValue};
ghost use Rattle.csp_token.specs.Index as spec;

use crate::digest::hash_of;
use csp_model::{Algorithm, Digest, Digests, Hash, List, Memory};
use std::alloc::Global;
use std::collections::BTreeSet;

// Pairs of algorithm and value: for each algorithm a set of values.
#[derive(Drop)]
pub(crate) struct PairSets<'a> {
    sha256: BTreeSet<&'a str>,
    sha384: BTreeSet<&'a str>,
    sha512: BTreeSet<&'a str>,
}

impl<'a> PairSets<'a> {
    pub(crate) fn new(alloc: Global) -> PairSets<'a>
        ensures { (asked : HashValue) → spec.has_pair asked result ≡ false }
    {
        PairSets {
            sha256: BTreeSet::new(alloc),
            sha384: BTreeSet::new(alloc),
            sha512: BTreeSet::new(alloc),
        }
    }

    // With one more pair.
    pub(crate) fn add(&mut self, pair: &'a Hash) -> Result<(), Memory>
        ensures { OnOk result ((asked : HashValue)
            → spec.has_pair asked self.new ≡ (spec.has_pair asked self.old || same_hash pair.now asked)) }
    {
        let value = pair.value.as_str();
        match pair.algorithm {
            Algorithm::Sha256 => {
                self.sha256.insert(value)?;
            }
            Algorithm::Sha384 => {
                self.sha384.insert(value)?;
            }
            Algorithm::Sha512 => {
                self.sha512.insert(value)?;
            }
        }
        Ok(())
    }

    pub(crate) fn is_empty(&self) -> bool
        ensures { result ≡ spec.is_empty self.now }
    {
        self.sha256.is_empty() && self.sha384.is_empty() && self.sha512.is_empty()
    }

    fn has(&self, pair: &Hash) -> bool
        ensures { result ≡ spec.has_pair pair.now self.now }
    {
        let value = pair.value.as_str();
        match pair.algorithm {
            Algorithm::Sha256 => self.sha256.contains(value),
            Algorithm::Sha384 => self.sha384.contains(value),
            Algorithm::Sha512 => self.sha512.contains(value),
        }
    }

    // Whether each of the pairs is there.
    pub(crate) fn has_all(&self, pairs: &List<Hash>) -> bool
        ensures { result ≡ list_all (λ pair. spec.has_pair pair self.now) pairs.now }
    {
        pairs.as_slice().iter().all(|pair| self.has(pair))
    }
}

// Digests: for each algorithm a set.
#[derive(Drop)]
pub(crate) struct DigestSets {
    sha256: BTreeSet<[u8; 32]>,
    sha384: BTreeSet<[u8; 48]>,
    sha512: BTreeSet<[u8; 64]>,
}

impl DigestSets {
    pub(crate) fn new(alloc: Global) -> DigestSets
        ensures { (asked : DigestsValue) → spec.has_digest asked result ≡ false }
    {
        DigestSets {
            sha256: BTreeSet::new(alloc),
            sha384: BTreeSet::new(alloc),
            sha512: BTreeSet::new(alloc),
        }
    }

    // With the digest that a hash stands for, if there is one.
    pub(crate) fn add(&mut self, hash: &Hash) -> Result<(), Memory>
        ensures { OnOk result ((asked : DigestsValue) → IsValidDigests asked → spec.has_digest asked self.new
            ≡ (spec.has_digest asked self.old || hash_matches hash.now asked)) }
    {
        match hash_of(hash) {
            Some(Digest::Sha256(digest)) => {
                self.sha256.insert(digest)?;
            }
            Some(Digest::Sha384(digest)) => {
                self.sha384.insert(digest)?;
            }
            Some(Digest::Sha512(digest)) => {
                self.sha512.insert(digest)?;
            }
            None => {}
        }
        Ok(())
    }

    // Whether one of these digests is among those of its algorithm.
    pub(crate) fn has(&self, digests: &Digests) -> bool
        ensures { result ≡ spec.has_digest digests.now self.now }
    {
        self.sha256.contains(&digests.sha256)
            || self.sha384.contains(&digests.sha384)
            || self.sha512.contains(&digests.sha512)
    }
}
