//! Atoms and literals.
use csp_model::{Digest, Hash, Host, List, Path, Text};

/// A fact about one part of a check. A check without the part doesn't have the fact.
#[derive(Debug, PartialEq, Eq, Drop)]
pub enum Atom {
    /// The URL has this host.
    HostIs(Host),
    /// The URL's host is a domain that ends in a dot and this suffix.
    HostUnder(Text),
    /// The URL's host is a domain.
    HostDomain,
    /// The URL has a host and this port, where no port stands for its scheme's default.
    PortIs(u16),
    /// The URL has a host and a path of these pieces.
    PathIs(Path),
    /// The URL has a host and a path that begins with these pieces and has more.
    PathUnder(Path),
    /// The URL has no host, and this scheme.
    SchemeIs(Text),
    /// The nonce is this text.
    NonceIs(Text),
    /// The integrity metadata has this pair.
    IntegrityHas(Hash),
    /// The integrity metadata has a pair that isn't in the vocabulary.
    IntegrityOutside,
    /// The text has this digest.
    DigestIs(Digest),
}

/// An atom, or its denial.
#[derive(Debug, PartialEq, Eq, Drop)]
pub struct Literal {
    pub atom: Atom,
    /// False for the denial.
    pub positive: bool,
}

/// The hashes that a comparison of policies speaks of.
#[derive(Debug, PartialEq, Eq, Drop)]
pub struct Vocabulary {
    pub hashes: List<Hash>,
}
