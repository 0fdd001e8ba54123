//! What is told of a policy and a check.
ghost use Rattle.std.specs.Prelude.{◌≡◌};
ghost use Rattle.csp_why.specs.Words as spec;

use csp_model::{List, Name};

/// The rule by which a token allows a check.
#[derive(Clone, Copy, Debug, PartialEq, Eq)]
pub enum Rule {
    /// A source expression matches the URL.
    Source,
    /// A nonce-source has the nonce of the element.
    Nonce,
    /// Each hash of the integrity metadata is a hash-source.
    Integrity,
    /// A hash-source is a digest of the inline text.
    Hash,
    /// `'strict-dynamic'` allows a script that no parser inserted.
    StrictDynamic,
    UnsafeInline,
    UnsafeEval,
    WasmUnsafeEval,
    /// A token of `sandbox` leaves the capability.
    Capability,
}

impl Rule {
    /// The rule as it is told, as `unsafe-inline`.
    pub fn as_str(self) -> &'static str
        ensures { result.now ≡ spec.rule_text self }
    {
        match self {
            Rule::Source => "source",
            Rule::Nonce => "nonce",
            Rule::Integrity => "integrity",
            Rule::Hash => "hash",
            Rule::StrictDynamic => "strict-dynamic",
            Rule::UnsafeInline => "unsafe-inline",
            Rule::UnsafeEval => "unsafe-eval",
            Rule::WasmUnsafeEval => "wasm-unsafe-eval",
            Rule::Capability => "capability",
        }
    }
}

/// A rule that allows, and the first token that it allows by.
#[derive(Clone, Copy, Debug, PartialEq, Eq)]
pub struct Allowance {
    pub rule: Rule,
    /// The index of the token in the directive's value.
    pub token: usize,
}

/// What keeps a token from allowing a check.
#[derive(Clone, Copy, Debug, PartialEq, Eq)]
pub enum Obstacle {
    /// The scheme of a source, or of the origin where it has none.
    Scheme,
    /// The port of a host-source or of `'self'`.
    Port,
    /// The path of a host-source.
    Path,
    /// A host-source `*.s`, where the host is `s` itself.
    Suffix,
    /// A source expression or `'unsafe-inline'` that doesn't count beside `'strict-dynamic'`.
    StrictDynamic,
    /// `'unsafe-inline'` that doesn't count beside a nonce-source.
    Nonce,
    /// `'unsafe-inline'` that doesn't count beside a hash-source.
    Hash,
    /// A hash-source of the very text, which counts only with `'unsafe-hashes'`.
    UnsafeHashes,
    /// A hash-source of the metadata, which counts only where all hashes of the metadata are there.
    Integrity,
    /// `allow-same-origin`, beside which a worker needs `allow-scripts`.
    AllowScripts,
    /// `allow-scripts`, beside which a worker needs `allow-same-origin`.
    AllowSameOrigin,
}

impl Obstacle {
    /// The word itself, as `unsafe-hashes`.
    pub fn as_str(self) -> &'static str
        ensures { result.now ≡ spec.word_text self }
    {
        match self {
            Obstacle::Scheme => "scheme",
            Obstacle::Port => "port",
            Obstacle::Path => "path",
            Obstacle::Suffix => "suffix",
            Obstacle::StrictDynamic => "strict-dynamic",
            Obstacle::Nonce => "nonce",
            Obstacle::Hash => "hash",
            Obstacle::UnsafeHashes => "unsafe-hashes",
            Obstacle::Integrity => "integrity",
            Obstacle::AllowScripts => "allow-scripts",
            Obstacle::AllowSameOrigin => "allow-same-origin",
        }
    }
}

/// A token that nearly allows a check.
#[derive(Clone, Copy, Debug, PartialEq, Eq)]
pub struct Near {
    /// The index of the token in the directive's value.
    pub token: usize,
    /// The one thing that keeps it from allowing.
    pub word: Obstacle,
}

/// Why a policy allows or blocks a check.
#[derive(Debug, PartialEq, Eq, Drop)]
pub enum Reason {
    /// No directive governs the check. A `sandbox` of a policy that only reports governs nothing.
    Ungoverned,
    /// The directive that governs allows the check.
    Allows {
        directive: Name,
        by: Allowance,
    },
    /// The directive that governs blocks the check.
    Blocks {
        directive: Name,
        /// The tokens that nearly allow it, in order.
        near: List<Near>,
    },
}
