//! URLs and origins, as far as a policy looks at them (URL Standard, sections 4.1 and 4.7).
ghost use Rattle.std.specs.Prelude.{◌≡◌};
ghost use Rattle.csp_model.specs.DecideEnds as ends;
ghost use Rattle.csp_model.specs.DecideMatching as matching;
ghost use Rattle.csp_model.specs.Paths.{host_text};
ghost use Rattle.csp_model.specs.Schemes as spec;

use crate::ends::is_subdomain;
use crate::path::Path;
use crate::text::Text;

/// A scheme whose URLs have a host that a policy can match.
#[derive(Clone, Copy, Debug, PartialEq, Eq)]
pub enum Scheme {
    Http,
    Https,
    Ws,
    Wss,
    Ftp,
}

impl Scheme {
    /// The scheme as it is written, in lower case and without its colon.
    pub fn as_str(self) -> &'static str
        ensures { result.now ≡ spec.scheme_text self }
    {
        match self {
            Scheme::Http => "http",
            Scheme::Https => "https",
            Scheme::Ws => "ws",
            Scheme::Wss => "wss",
            Scheme::Ftp => "ftp",
        }
    }

    /// The scheme of that name, which is compared byte by byte.
    pub fn from_name(name: &str) -> Option<Scheme>
        ensures { result ≡ spec.scheme_named name.now }
    {
        match name {
            "http" => Some(Scheme::Http),
            "https" => Some(Scheme::Https),
            "ws" => Some(Scheme::Ws),
            "wss" => Some(Scheme::Wss),
            "ftp" => Some(Scheme::Ftp),
            _ => None,
        }
    }

    /// The port that a URL of the scheme means where it names none (URL Standard, section 4.2).
    pub fn default_port(self) -> u16
        ensures { result ≡ spec.default_port self }
    {
        match self {
            Scheme::Http | Scheme::Ws => 80,
            Scheme::Https | Scheme::Wss => 443,
            Scheme::Ftp => 21,
        }
    }
}

/// A host, as the URL Standard prints it.
#[derive(Debug, PartialEq, Eq, Drop)]
pub enum Host {
    /// A domain in lower case, as `b.example`.
    Domain(Text),
    /// An address: `10.0.0.1`, or `[::1]` with its brackets.
    Address(Text),
}

impl Host {
    /// The host as the URL Standard prints it, an address of version 6 with its brackets.
    pub fn as_str(&self) -> &str
        ensures { result.now ≡ host_text self.now }
    {
        match self {
            Host::Domain(text) | Host::Address(text) => text.as_str(),
        }
    }

    /// Whether the host is a domain.
    pub fn is_domain(&self) -> bool
        ensures { result ≡ matching.is_domain_host self.now }
    {
        matches!(self, Host::Domain(_))
    }

    /// Whether the host is a domain that lies under a suffix: it ends in a dot and the suffix.
    pub fn is_under(&self, suffix: &str) -> bool
        ensures { result ≡ ends.is_host_under self.now suffix.now }
    {
        match self {
            Host::Domain(domain) => is_subdomain(domain.as_str(), suffix),
            Host::Address(_) => false,
        }
    }
}

/// Where a policy comes from (HTML Standard, section 7.1.1).
#[derive(Debug, PartialEq, Eq, Drop)]
pub enum Origin {
    /// An origin that equals none but itself, printed as `null`.
    Opaque,
    /// The origin of a URL. A port of None stands for the scheme's default.
    Tuple {
        scheme: Scheme,
        host: Host,
        port: Option<u16>,
    },
}

/// A URL.
#[derive(Debug, PartialEq, Eq, Drop)]
pub enum Url {
    /// A URL of any other scheme is its scheme alone, in lower case.
    Plain {
        scheme: Text,
    },
    /// A URL with a host. A port of None stands for the scheme's default. The path `/` is one empty piece.
    Hosted {
        scheme: Scheme,
        host: Host,
        port: Option<u16>,
        path: Path,
    },
}
