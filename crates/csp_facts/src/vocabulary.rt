//! The vocabulary of two lists of policies.
ghost use Rattle.std.specs.Prelude.{◌≡◌, ◌≢◌, ◌↔◌, ◌++◌, IfOk, AllPairs, Contains};
ghost use Rattle.csp_model.specs.declared.source.Hash.{Hash as HashValue};
ghost use Rattle.csp_facts.specs.Vocabulary as spec;

use crate::atom::Vocabulary;
use csp_model::{Duplicate, Hash, List, Memory, PolicyList, Source};
use std::alloc::Global;
use std::collections::BTreeSet;

/// The hash-sources of both lists, each once, in the order in which they first stand: of all policies,
/// report-only ones too, and of all directives.
pub fn vocabulary_of(
    alloc: Global,
    first: &PolicyList,
    second: &PolicyList,
) -> Result<Vocabulary, Memory>
    ensures hashes { IfOk result (λ made. made.hashes ≡ spec.vocabulary_hashes first.now second.now) }
    ensures once { IfOk result (λ made. AllPairs (λ (g h : HashValue). g ≢ h) made.hashes) }
    ensures each { IfOk result (λ made. (h : HashValue)
        → Contains made.hashes h ↔ Contains (spec.hashes_of first.now ++ spec.hashes_of second.now) h) }
{
    let mut seen = BTreeSet::new(alloc);
    let mut hashes = List::new(alloc);
    let policies = first
        .policies
        .as_slice()
        .iter()
        .chain(second.policies.as_slice());
    let directives = policies.flat_map(|policy| policy.directives.as_slice());
    for source in directives.flat_map(|directive| directive.sources.as_slice()) {
        let Source::Digest { hash } = source else {
            continue;
        };
        if seen.insert(hash)? {
            hashes.push(hash.copy(alloc)?)?;
        }
    }
    Ok(Vocabulary { hashes })
}
