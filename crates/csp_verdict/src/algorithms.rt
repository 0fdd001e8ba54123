//! The algorithms that the hash-sources of policies name.
ghost use Rattle.std.specs.Prelude.{◌≡◌};
ghost use Rattle.csp_token.specs.Algorithms as token_spec;
ghost use Rattle.csp_verdict.specs.Algorithms as spec;
ghost use Rattle.csp_verdict.specs.Listed.{list_of};

use csp_model::{Algorithm, List, Policy, Source};
use csp_token::Algorithms;

// The algorithms that some hash-source of some of the policies has.
pub(crate) fn named_algorithms(policies: &[Policy]) -> Algorithms
    ensures { result ≡ spec.algorithms_of (list_of policies.now) }
{
    Algorithms {
        sha256: some_names(policies, Algorithm::Sha256),
        sha384: some_names(policies, Algorithm::Sha384),
        sha512: some_names(policies, Algorithm::Sha512),
    }
}

fn some_names(policies: &[Policy], algorithm: Algorithm) -> bool
    ensures { result ≡ spec.list_names algorithm (list_of policies.now) }
{
    policies
        .iter()
        .any(|policy| policy_names(policy, algorithm))
}

fn policy_names(policy: &Policy, algorithm: Algorithm) -> bool
    ensures { result ≡ spec.policy_names algorithm policy.now }
{
    policy
        .directives
        .as_slice()
        .iter()
        .any(|directive| sources_name(&directive.sources, algorithm))
}

fn sources_name(sources: &List<Source>, algorithm: Algorithm) -> bool
    ensures { result ≡ token_spec.names algorithm sources.now }
{
    sources
        .as_slice()
        .iter()
        .any(|source| is_of_algorithm(source, algorithm))
}

// The source is a hash-source of this algorithm.
fn is_of_algorithm(source: &Source, algorithm: Algorithm) -> bool
    ensures { result ≡ token_spec.is_of_algorithm algorithm source.now }
{
    match source {
        Source::Digest { hash } => hash.algorithm == algorithm,
        _ => false,
    }
}
