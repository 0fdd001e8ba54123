//! Formulas of nonces, integrity metadata and digests.
ghost use Rattle.std.specs.Prelude.{◌≡◌, IfOk};
ghost use Rattle.csp_formula.specs.Sentences.{Not, Fact};
ghost use Rattle.csp_formulas.specs.Formulas.{sentence_of};
ghost use Rattle.csp_formula.specs.Compiled as spec;
ghost use Rattle.csp_formulas.specs.HashSets.{IsSetOf};

use crate::formula::Formula;
use csp_facts::Atom;
use csp_formula::source_digest;
use csp_model::{Duplicate, Hash, Memory, Source};
use std::alloc::Global;
use std::collections::BTreeSet;

// The formula of nonces: the nonce is that of a nonce-source.
pub(crate) fn nonces_formula(alloc: Global, sources: &[Source]) -> Result<Formula, Memory>
    ensures { IfOk result (λ f. sentence_of f ≡ spec.nonces_sentence sources.now) }
{
    let mut parts = Vec::new(alloc);
    for source in sources {
        if let Source::Nonce { value } = source {
            parts.push(Formula::Fact(Atom::NonceIs(value.copy(alloc)?)))?;
        }
    }
    Ok(Formula::OneOf(parts))
}

// The formula of integrity metadata, where the vocabulary has these hashes.
pub(crate) fn integrity_formula(
    alloc: Global,
    hashes: &[Hash],
    sources: &[Source],
) -> Result<Formula, Memory>
    ensures { IfOk result (λ f. sentence_of f ≡ spec.integrity_sentence hashes.now sources.now) }
{
    let own = hash_sources(alloc, sources)?;
    let mut parts = vec![in alloc; denial(alloc, Atom::IntegrityOutside)?]?;
    for hash in hashes {
        if !own.contains(&hash) {
            parts.push(denial(alloc, Atom::IntegrityHas(hash.copy(alloc)?))?)?;
        }
    }
    parts.push(pairs_formula(alloc, sources)?)?;
    Ok(Formula::Every(parts))
}

fn denial(alloc: Global, atom: Atom) -> Result<Formula, Memory>
    ensures { IfOk result (λ f. sentence_of f ≡ Not (Fact atom)) }
{
    Ok(Formula::Not(Box::new(alloc, Formula::Fact(atom))?))
}

// A pair is a hash-source.
fn pairs_formula(alloc: Global, sources: &[Source]) -> Result<Formula, Memory>
    ensures { IfOk result (λ f. sentence_of f ≡ spec.pairs_sentence sources.now) }
{
    let mut parts = Vec::new(alloc);
    for source in sources {
        if let Source::Digest { hash } = source {
            parts.push(Formula::Fact(Atom::IntegrityHas(hash.copy(alloc)?)))?;
        }
    }
    Ok(Formula::OneOf(parts))
}

// The hashes of the hash-sources.
fn hash_sources<'a>(alloc: Global, sources: &'a [Source]) -> Result<BTreeSet<&'a Hash>, Memory>
    ensures { IfOk result (λ set. IsSetOf sources.now set) }
{
    let mut hashes = BTreeSet::new(alloc);
    for source in sources {
        if let Source::Digest { hash } = source {
            hashes.insert(hash)?;
        }
    }
    Ok(hashes)
}

// The formula of digests: one of them is that of a hash-source.
pub(crate) fn digests_formula(alloc: Global, sources: &[Source]) -> Result<Formula, Memory>
    ensures { IfOk result (λ f. sentence_of f ≡ spec.digests_sentence sources.now) }
{
    let mut parts = Vec::new(alloc);
    for source in sources {
        if let Some(digest) = source_digest(source) {
            parts.push(Formula::Fact(Atom::DigestIs(digest)))?;
        }
    }
    Ok(Formula::OneOf(parts))
}
