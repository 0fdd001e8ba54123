//! Source expressions (Content Security Policy Level 3, section 2.3.1).
ghost use Rattle.std.specs.Prelude.{◌≡◌};
ghost use Rattle.csp_model.specs.Grammar as spec;

use crate::path::Path;
use crate::text::Text;

/// A digest's algorithm.
#[derive(Clone, Copy, Debug, PartialEq, Eq, PartialOrd, Ord)]
pub enum Algorithm {
    Sha256,
    Sha384,
    Sha512,
}

impl Algorithm {
    /// The algorithm as it is written in lower case, as `sha256`.
    pub fn as_str(self) -> &'static str
        ensures { result.now ≡ spec.algorithm_text self }
    {
        match self {
            Algorithm::Sha256 => "sha256",
            Algorithm::Sha384 => "sha384",
            Algorithm::Sha512 => "sha512",
        }
    }

    /// The algorithm of that name, which is compared byte by byte.
    pub fn from_name(name: &str) -> Option<Algorithm>
        ensures { result ≡ spec.algorithm_named name.now }
    {
        match name {
            "sha256" => Some(Algorithm::Sha256),
            "sha384" => Some(Algorithm::Sha384),
            "sha512" => Some(Algorithm::Sha512),
            _ => None,
        }
    }
}

/// An algorithm and a base64-value, as in a hash-source or in integrity metadata.
#[derive(Debug, PartialEq, Eq, PartialOrd, Ord, Drop)]
pub struct Hash {
    pub algorithm: Algorithm,
    pub value: Text,
}

/// A keyword-source that acts.
#[derive(Clone, Copy, Debug, PartialEq, Eq)]
pub enum Keyword {
    /// `'self'`
    SelfOrigin,
    UnsafeInline,
    UnsafeEval,
    WasmUnsafeEval,
    StrictDynamic,
    UnsafeHashes,
    ReportSample,
}

impl Keyword {
    /// All keywords, in the order in which they are declared.
    pub const ALL: [Keyword; 7] = [
        Keyword::SelfOrigin,
        Keyword::UnsafeInline,
        Keyword::UnsafeEval,
        Keyword::WasmUnsafeEval,
        Keyword::StrictDynamic,
        Keyword::UnsafeHashes,
        Keyword::ReportSample,
    ];

    /// The keyword as it is written, in lower case and with its quotes.
    pub fn as_str(self) -> &'static str
        ensures { result.now ≡ spec.keyword_text self }
    {
        match self {
            Keyword::SelfOrigin => "'self'",
            Keyword::UnsafeInline => "'unsafe-inline'",
            Keyword::UnsafeEval => "'unsafe-eval'",
            Keyword::WasmUnsafeEval => "'wasm-unsafe-eval'",
            Keyword::StrictDynamic => "'strict-dynamic'",
            Keyword::UnsafeHashes => "'unsafe-hashes'",
            Keyword::ReportSample => "'report-sample'",
        }
    }
}

/// The host of a host-source, in lower case.
#[derive(Debug, PartialEq, Eq, Drop)]
pub enum HostPart {
    /// `*`
    Any,
    /// `*.` and this suffix
    Under(Text),
    /// This host.
    Exact(Text),
}

/// The port of a host-source.
#[derive(Clone, Copy, Debug, PartialEq, Eq)]
pub enum PortPart {
    Absent,
    /// `:*`
    Any,
    Number(u16),
    /// A number above 65,535, which matches nothing.
    TooLarge,
}

/// The path of a host-source, as its pieces between slashes, percent-decoded.
#[derive(Debug, PartialEq, Eq, Drop)]
pub enum PathPart {
    Absent,
    /// A path that doesn't end in `/`.
    Exact(Path),
    /// A path that ends in `/`, without its last, empty piece: `/` has none.
    Prefix(Path),
}

/// What a token of a directive's value stands for.
#[derive(Debug, PartialEq, Eq, Drop)]
pub enum Source {
    /// The token `*` alone.
    Star,
    /// A scheme and a colon. The scheme is in lower case.
    SchemeOnly {
        scheme: Text,
    },
    /// A host, with or without a scheme, a port and a path.
    Hosted {
        scheme: Option<Text>,
        host: HostPart,
        port: PortPart,
        path: PathPart,
    },
    /// A keyword.
    Word {
        word: Keyword,
    },
    /// A nonce, as it is written.
    Nonce {
        value: Text,
    },
    /// A hash, its value as it is written.
    Digest {
        hash: Hash,
    },
    /// Any other token, `'none'` among them. It matches nothing.
    Other {
        token: Text,
    },
}
