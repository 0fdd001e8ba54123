//! Source expressions and source lists (Content Security Policy Level 3, section 6.7.2).
ghost use Rattle.std.specs.Prelude.{◌≡◌, ◌↔◌, IsTrue};
ghost use Rattle.csp_model.specs.DecideMatching as spec;
ghost use Rattle.csp_model.specs.Matching.{ListMatches, Matches};

use crate::host::host_matches;
use crate::path::path_matches;
use crate::port::port_matches;
use crate::scheme::{is_network_scheme, own_scheme_matches, scheme_matches, url_scheme};
use crate::self_source::self_matches;
use csp_model::{Keyword, List, Origin, Source, Url};

/// Whether a source expression matches a URL, in a policy of that origin (Content Security Policy Level 3,
/// section 6.7.2, "Does url match expression in origin with redirect count?").
///
/// `'self'`, and a host-source without a scheme, speak of the origin. `redirected` says that the URL was
/// reached by a redirect, where paths aren't compared. The token `*` matches the URLs of http, https, ws and
/// wss. An address is matched by the exact host that is printed so, and by no `*` or suffix of a host-source.
/// Nonces, hashes and all keywords but `'self'` match no URL. No text is copied, and each that is compared is
/// read once.
pub fn source_matches(source: &Source, origin: &Origin, url: &Url, redirected: bool) -> bool
    ensures value { result ≡ spec.matches source.now origin.now url.now redirected }
    ensures matches { IsTrue result ↔ (Matches source.now origin.now url.now redirected) }
{
    match source {
        Source::Star => is_network_scheme(url_scheme(url)),
        Source::SchemeOnly { scheme } => scheme_matches(scheme.as_str(), url_scheme(url)),
        Source::Hosted {
            scheme,
            host,
            port,
            path,
        } => match url {
            Url::Plain { .. } => false,
            Url::Hosted {
                scheme: there,
                host: url_host,
                port: url_port,
                path: url_path,
            } => {
                own_scheme_matches(scheme, origin, *there)
                    && host_matches(host, url_host)
                    && port_matches(*port, *url_port, *there)
                    && (redirected || path_matches(path, url_path))
            }
        },
        Source::Word { word } => *word == Keyword::SelfOrigin && self_matches(origin, url),
        Source::Nonce { .. } | Source::Digest { .. } | Source::Other { .. } => false,
    }
}

/// Whether some source expression of the list matches a URL, as `source_matches` says (Content Security
/// Policy Level 3, section 6.7.2, "Does url match source list in origin with redirect count?"). An empty list
/// matches nothing.
#[tactic(auto, using(csp_model::proofs::MatchingDecided::list_decides))]
pub fn list_matches(sources: &List<Source>, origin: &Origin, url: &Url, redirected: bool) -> bool
    ensures value { result ≡ spec.list_matches sources.now origin.now url.now redirected }
    ensures matches { IsTrue result ↔ (ListMatches sources.now origin.now url.now redirected) }
{
    sources
        .as_slice()
        .iter()
        .any(|source| source_matches(source, origin, url, redirected))
}
