//! Schemes (Content Security Policy Level 3, section 6.7.2, "scheme-part matches").
ghost use Rattle.std.specs.Prelude.{◌≡◌};
ghost use Rattle.csp_model.specs.DecideMatching as spec;
ghost use Rattle.csp_model.specs.Matching as matching;
ghost use Rattle.csp_model.specs.Schemes.{scheme_text};

use csp_model::{Origin, Scheme, Text, Url};

/// Whether a source expression's scheme matches a URL's: `http` stands for https too, `ws` also for wss, http
/// and https, and `wss` also for https.
pub fn scheme_matches(part: &str, scheme: &str) -> bool
    ensures { result ≡ spec.scheme_matches part.now scheme.now }
{
    match part {
        "http" => matches!(scheme, "http" | "https"),
        "ws" => matches!(scheme, "ws" | "wss" | "http" | "https"),
        "wss" => matches!(scheme, "wss" | "https"),
        _ => part == scheme,
    }
}

/// Whether a host-source's scheme, or else the origin's, matches a URL's. An opaque origin has none.
pub fn own_scheme_matches(part: &Option<Text>, origin: &Origin, scheme: Scheme) -> bool
    ensures { result ≡ spec.own_scheme_matches part.now origin.now (scheme_text scheme) }
{
    match (part, origin) {
        (Some(part), _) => scheme_matches(part.as_str(), scheme.as_str()),
        (None, Origin::Tuple { scheme: own, .. }) => scheme_matches(own.as_str(), scheme.as_str()),
        (None, Origin::Opaque) => false,
    }
}

/// Whether the token `*` matches a URL of a scheme.
pub fn is_network_scheme(scheme: &str) -> bool
    ensures { result ≡ spec.is_network_scheme scheme.now }
{
    matches!(scheme, "http" | "https" | "ws" | "wss")
}

pub fn url_scheme(url: &Url) -> &str
    ensures { result.now ≡ matching.url_scheme url.now }
{
    match url {
        Url::Plain { scheme } => scheme.as_str(),
        Url::Hosted { scheme, .. } => scheme.as_str(),
    }
}
