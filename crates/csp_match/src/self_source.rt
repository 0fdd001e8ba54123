//! The keyword `'self'` (Content Security Policy Level 3, section 6.7.2, "Does url match expression in origin
//! with redirect count?").
ghost use Rattle.std.specs.Prelude.{◌≡◌};
ghost use Rattle.csp_model.specs.DecideMatching as spec;

use csp_model::{Origin, Scheme, Url};

/// Whether `'self'` matches a URL: the same host and port, and the same scheme or one that is safe to take.
pub fn self_matches(origin: &Origin, url: &Url) -> bool
    ensures { result ≡ spec.self_matches origin.now url.now }
{
    match (origin, url) {
        (
            Origin::Tuple {
                scheme: own,
                host,
                port,
            },
            Url::Hosted {
                scheme,
                host: url_host,
                port: url_port,
                ..
            },
        ) => host == url_host && port == url_port && self_scheme_matches(*own, *scheme),
        _ => false,
    }
}

/// Whether `'self'` matches URLs of a scheme with hosts, on a page of the scheme `own`.
pub fn self_scheme_matches(own: Scheme, scheme: Scheme) -> bool
    ensures { result ≡ spec.self_scheme_matches own scheme }
{
    match scheme {
        Scheme::Https | Scheme::Wss => true,
        Scheme::Ws => matches!(own, Scheme::Ws | Scheme::Http),
        Scheme::Http | Scheme::Ftp => own == scheme,
    }
}
