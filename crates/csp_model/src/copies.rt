//! Copies, equal to what they are copies of.
ghost use Rattle.std.specs.Prelude.{◌≡◌, IfOk};

use crate::check::Check;
use crate::list::List;
use crate::memory::Memory;
use crate::path::Path;
use crate::policy::{Directive, Policy, PolicyList};
use crate::source::{Hash, HostPart, PathPart, Source};
use crate::text::{Bytes, Text};
use crate::url::{Host, Origin, Url};
use crate::verdict::Violation;
use std::alloc::Global;

/// What can be copied where there is memory.
pub trait Duplicate: Drop {
    /// A copy that equals `self`.
    fn copy(&self, alloc: Global) -> Result<Self, Memory>
        ensures { IfOk result (λ made. made ≡ self.now) };
}

impl Duplicate for Text {
    fn copy(&self, alloc: Global) -> Result<Text, Memory> {
        Text::new(alloc, self.as_str())
    }
}

impl Duplicate for Bytes {
    fn copy(&self, alloc: Global) -> Result<Bytes, Memory> {
        Bytes::new(alloc, self.as_slice())
    }
}

impl Duplicate for Path {
    fn copy(&self, alloc: Global) -> Result<Path, Memory> {
        self.copied(alloc)
    }
}

impl<T: Duplicate> Duplicate for List<T> {
    fn copy(&self, alloc: Global) -> Result<List<T>, Memory> {
        let mut made = List::new(alloc);
        for item in self.as_slice() {
            made.push(item.copy(alloc)?)?;
        }
        Ok(made)
    }
}

impl<T: Duplicate> Duplicate for Option<T> {
    fn copy(&self, alloc: Global) -> Result<Option<T>, Memory> {
        match self {
            None => Ok(None),
            Some(value) => Ok(Some(value.copy(alloc)?)),
        }
    }
}

impl Duplicate for Host {
    fn copy(&self, alloc: Global) -> Result<Host, Memory> {
        Ok(match self {
            Host::Domain(text) => Host::Domain(text.copy(alloc)?),
            Host::Address(text) => Host::Address(text.copy(alloc)?),
        })
    }
}

impl Duplicate for Origin {
    fn copy(&self, alloc: Global) -> Result<Origin, Memory> {
        Ok(match self {
            Origin::Opaque => Origin::Opaque,
            Origin::Tuple { scheme, host, port } => Origin::Tuple {
                scheme: *scheme,
                host: host.copy(alloc)?,
                port: *port,
            },
        })
    }
}

impl Duplicate for Url {
    fn copy(&self, alloc: Global) -> Result<Url, Memory> {
        Ok(match self {
            Url::Plain { scheme } => Url::Plain {
                scheme: scheme.copy(alloc)?,
            },
            Url::Hosted {
                scheme,
                host,
                port,
                path,
            } => Url::Hosted {
                scheme: *scheme,
                host: host.copy(alloc)?,
                port: *port,
                path: path.copy(alloc)?,
            },
        })
    }
}

impl Duplicate for Hash {
    fn copy(&self, alloc: Global) -> Result<Hash, Memory> {
        Ok(Hash {
            algorithm: self.algorithm,
            value: self.value.copy(alloc)?,
        })
    }
}

impl Duplicate for HostPart {
    fn copy(&self, alloc: Global) -> Result<HostPart, Memory> {
        Ok(match self {
            HostPart::Any => HostPart::Any,
            HostPart::Under(text) => HostPart::Under(text.copy(alloc)?),
            HostPart::Exact(text) => HostPart::Exact(text.copy(alloc)?),
        })
    }
}

impl Duplicate for PathPart {
    fn copy(&self, alloc: Global) -> Result<PathPart, Memory> {
        Ok(match self {
            PathPart::Absent => PathPart::Absent,
            PathPart::Exact(pieces) => PathPart::Exact(pieces.copy(alloc)?),
            PathPart::Prefix(pieces) => PathPart::Prefix(pieces.copy(alloc)?),
        })
    }
}

impl Duplicate for Source {
    fn copy(&self, alloc: Global) -> Result<Source, Memory> {
        Ok(match self {
            Source::Star => Source::Star,
            Source::SchemeOnly { scheme } => Source::SchemeOnly {
                scheme: scheme.copy(alloc)?,
            },
            Source::Hosted {
                scheme,
                host,
                port,
                path,
            } => Source::Hosted {
                scheme: scheme.copy(alloc)?,
                host: host.copy(alloc)?,
                port: *port,
                path: path.copy(alloc)?,
            },
            Source::Word { word } => Source::Word { word: *word },
            Source::Nonce { value } => Source::Nonce {
                value: value.copy(alloc)?,
            },
            Source::Digest { hash } => Source::Digest {
                hash: hash.copy(alloc)?,
            },
            Source::Other { token } => Source::Other {
                token: token.copy(alloc)?,
            },
        })
    }
}

impl Duplicate for Directive {
    fn copy(&self, alloc: Global) -> Result<Directive, Memory> {
        Ok(Directive {
            name: self.name.copy(alloc)?,
            tokens: self.tokens.copy(alloc)?,
            sources: self.sources.copy(alloc)?,
        })
    }
}

impl Duplicate for Policy {
    fn copy(&self, alloc: Global) -> Result<Policy, Memory> {
        Ok(Policy {
            disposition: self.disposition,
            meta: self.meta,
            origin: self.origin.copy(alloc)?,
            directives: self.directives.copy(alloc)?,
        })
    }
}

impl Duplicate for PolicyList {
    fn copy(&self, alloc: Global) -> Result<PolicyList, Memory> {
        Ok(PolicyList {
            policies: self.policies.copy(alloc)?,
        })
    }
}

impl Duplicate for Check {
    fn copy(&self, alloc: Global) -> Result<Check, Memory> {
        Ok(match self {
            Check::Fetch {
                group,
                url,
                redirects,
                nonce,
                integrity,
                parser_inserted,
            } => Check::Fetch {
                group: *group,
                url: url.copy(alloc)?,
                redirects: *redirects,
                nonce: nonce.copy(alloc)?,
                integrity: integrity.copy(alloc)?,
                parser_inserted: *parser_inserted,
            },
            Check::Inline {
                kind,
                nonce,
                digests,
            } => Check::Inline {
                kind: *kind,
                nonce: nonce.copy(alloc)?,
                digests: *digests,
            },
            Check::Eval => Check::Eval,
            Check::Wasm => Check::Wasm,
            Check::Base { url } => Check::Base {
                url: url.copy(alloc)?,
            },
            Check::Form { url, redirects } => Check::Form {
                url: url.copy(alloc)?,
                redirects: *redirects,
            },
            Check::Ancestor { url } => Check::Ancestor {
                url: url.copy(alloc)?,
            },
            Check::OpaqueAncestor => Check::OpaqueAncestor,
            Check::Capability { capability } => Check::Capability {
                capability: *capability,
            },
            Check::WorkerStart => Check::WorkerStart,
        })
    }
}

impl Duplicate for Violation {
    fn copy(&self, alloc: Global) -> Result<Violation, Memory> {
        Ok(Violation {
            disposition: self.disposition,
            effective: self.effective,
            blocked_uri: self.blocked_uri.copy(alloc)?,
            sample: self.sample.copy(alloc)?,
            policy: self.policy.copy(alloc)?,
        })
    }
}
