//! The tokens of a directive that nearly allow a check that it blocks.
ghost use Rattle.std.specs.Prelude.{◌≡◌, IfOk};
ghost use Rattle.csp_match.specs.Shown.{shown};
ghost use Rattle.csp_why.specs.Missing.{port_of as port_part_of};
ghost use Rattle.csp_why.specs.Near as spec;

use crate::allowance::is_some_hash;
use crate::reason::{Near, Obstacle};
use csp_match::{Governor, source_matches};
use csp_model::{
    Capability, Check, Digests, Duplicate, FetchRule, Hash, Host, HostPart, Keyword, List, Memory,
    Name, Origin, PathPart, PortPart, Scheme, Source, Text, Url,
};
use csp_rules::token_grants;
use csp_token::{is_hash_of, is_keyword};
use std::alloc::Global;

// The tokens of what governs that nearly allow a check, in order, where `displaced` is what takes the place of
// others.
pub(crate) fn near_tokens(
    alloc: Global,
    origin: &Origin,
    check: &Check,
    displaced: Option<Obstacle>,
    found: &Governor<'_>,
) -> Result<List<Near>, Memory>
    ensures { IfOk result (λ made. made ≡ spec.near_of origin.now check.now displaced (shown found.now)) }
{
    match check {
        Check::WorkerStart => near_grants(alloc, &found.directive.tokens),
        _ => {
            let sources = &found.directive.sources;
            near_sources(alloc, origin, found.name, check, displaced, sources)
        }
    }
}

// The tokens of a sandbox beside which a worker needs another one.
fn near_grants(alloc: Global, tokens: &List<Text>) -> Result<List<Near>, Memory>
    ensures { IfOk result (λ made. made ≡ spec.near_from spec.near_grant 0 tokens.now) }
{
    let mut near = List::new(alloc);
    for (token, text) in tokens.as_slice().iter().enumerate() {
        if let Some(word) = near_grant(text.as_str()) {
            near.push(Near { token, word })?;
        }
    }
    Ok(near)
}

fn near_grant(token: &str) -> Option<Obstacle>
    ensures { result ≡ spec.near_grant token.now }
{
    if token_grants(token, Capability::Scripts) {
        Some(Obstacle::AllowSameOrigin)
    } else if token_grants(token, Capability::SameOrigin) {
        Some(Obstacle::AllowScripts)
    } else {
        None
    }
}

// The tokens of a list that nearly allow a check.
fn near_sources(
    alloc: Global,
    origin: &Origin,
    name: Name,
    check: &Check,
    displaced: Option<Obstacle>,
    sources: &List<Source>,
) -> Result<List<Near>, Memory>
    ensures { IfOk result (λ made.
        made ≡ spec.near_from (spec.near_word origin.now name check.now displaced) 0 sources.now) }
{
    let mut near = List::new(alloc);
    for (token, source) in sources.as_slice().iter().enumerate() {
        if let Some(word) = near_word(alloc, origin, name, check, displaced, source)? {
            near.push(Near { token, word })?;
        }
    }
    Ok(near)
}

// What keeps a token of a directive of this name from allowing a check, if it is one thing.
fn near_word(
    alloc: Global,
    origin: &Origin,
    name: Name,
    check: &Check,
    displaced: Option<Obstacle>,
    source: &Source,
) -> Result<Option<Obstacle>, Memory>
    ensures { IfOk result (λ made.
        made ≡ spec.near_word origin.now name check.now displaced source.now) }
{
    match check {
        Check::Fetch {
            group,
            integrity,
            ..
        } if is_part_of_metadata(group.rule(name), integrity, source) => Ok(Some(
            Obstacle::Integrity,
        )),
        Check::Fetch { url, redirects, .. } | Check::Form { url, redirects } => {
            near_source(alloc, displaced, origin, url, *redirects != 0, source)
        }
        Check::Base { url } | Check::Ancestor { url } => {
            near_source(alloc, displaced, origin, url, false, source)
        }
        Check::Inline { digests, .. } => Ok(near_inline(displaced, digests, source)),
        _ => Ok(None),
    }
}

// Whether a script's metadata has the hash that a source is.
fn is_part_of_metadata(rule: FetchRule, integrity: &List<Hash>, source: &Source) -> bool
    ensures { result ≡ spec.is_part_of_metadata rule integrity.now source.now }
{
    rule == FetchRule::Script && is_some_hash(integrity, source)
}

// What takes the place of a source expression that matches, or the one part by which another doesn't
// match.
fn near_source(
    alloc: Global,
    displaced: Option<Obstacle>,
    origin: &Origin,
    url: &Url,
    redirected: bool,
    source: &Source,
) -> Result<Option<Obstacle>, Memory>
    ensures { IfOk result (λ made.
        made ≡ spec.near_source displaced origin.now url.now redirected source.now) }
{
    match displaced {
        None => wrong_part(alloc, origin, url, redirected, source),
        Some(by) if source_matches(source, origin, url, redirected) => Ok(Some(by)),
        Some(_) => Ok(None),
    }
}

// What keeps `'unsafe-inline'`, or a hash of the very text, from counting.
fn near_inline(displaced: Option<Obstacle>, digests: &Digests, source: &Source) -> Option<Obstacle>
    ensures { result ≡ spec.near_inline displaced digests.now source.now }
{
    if is_keyword(source, Keyword::UnsafeInline) {
        displaced
    } else if is_hash_of(source, digests) {
        Some(Obstacle::UnsafeHashes)
    } else {
        None
    }
}

// The parts of a host-source.
fn parts() -> &'static [Obstacle]
    ensures { result.now ≡ spec.parts }
{
    &[
        Obstacle::Scheme,
        Obstacle::Port,
        Obstacle::Path,
        Obstacle::Suffix,
    ]
}

// The part that alone keeps a source that doesn't match from matching.
fn wrong_part(
    alloc: Global,
    origin: &Origin,
    url: &Url,
    redirected: bool,
    source: &Source,
) -> Result<Option<Obstacle>, Memory>
    ensures { IfOk result (λ made. made ≡ spec.wrong_part origin.now url.now redirected source.now) }
{
    if !may_fit(source, url) {
        return Ok(None);
    }
    for part in parts() {
        if matches_changed(alloc, *part, origin, url, redirected, source)? {
            return Ok(Some(*part));
        }
    }
    Ok(None)
}

// Whether a part of a source may be changed so that it matches: of a host-source none can, where the URL's host
// doesn't end as its own.
fn may_fit(source: &Source, url: &Url) -> bool
    ensures { result ≡ spec.may_fit source.now url.now }
{
    match (source, url) {
        (Source::Hosted { host: part, .. }, Url::Hosted { host, .. }) => ends_as(part, host),
        (Source::Word { .. } | Source::SchemeOnly { .. }, _) => true,
        _ => false,
    }
}

fn ends_as(part: &HostPart, host: &Host) -> bool
    ensures { result ≡ spec.ends_as part.now host.now }
{
    match part {
        HostPart::Any => true,
        HostPart::Under(text) | HostPart::Exact(text) => {
            host.as_str().as_bytes().ends_with(text.as_str().as_bytes())
        }
    }
}

// Whether a host-source with the part changed so that it fits matches the URL.
fn matches_changed(
    alloc: Global,
    part: Obstacle,
    origin: &Origin,
    url: &Url,
    redirected: bool,
    source: &Source,
) -> Result<bool, Memory>
    ensures { IfOk result (λ made. made
        ≡ spec.some_matches (spec.changed part origin.now url.now source.now) origin.now url.now redirected) }
{
    match change_part(alloc, part, origin, url, source)? {
        Some(changed) => Ok(source_matches(&changed, origin, url, redirected)),
        None => Ok(false),
    }
}

// A source with one part changed so that it fits the URL. None where it has no such part.
fn change_part(
    alloc: Global,
    part: Obstacle,
    origin: &Origin,
    url: &Url,
    source: &Source,
) -> Result<Option<Source>, Memory>
    ensures { IfOk result (λ made. made ≡ spec.changed part origin.now url.now source.now) }
{
    let (scheme, host, port, path) = match source {
        Source::Hosted {
            scheme,
            host,
            port,
            path,
        } => (scheme, host, port, path),
        Source::Word {
            word: Keyword::SelfOrigin,
        } => return changed_self(alloc, part, origin, url),
        Source::SchemeOnly { scheme } => {
            return changed_scheme(alloc, part, scheme.as_str(), url);
        }
        _ => return Ok(None),
    };
    let port = *port;
    match (part, url, host) {
        (Obstacle::Scheme, Url::Hosted { scheme: there, .. }, _) => Ok(Some(Source::Hosted {
            scheme: Some(Text::new(alloc, there.as_str())?),
            host: host.copy(alloc)?,
            port,
            path: path.copy(alloc)?,
        })),
        (Obstacle::Port, _, _) => Ok(Some(Source::Hosted {
            scheme: scheme.copy(alloc)?,
            host: host.copy(alloc)?,
            port: PortPart::Any,
            path: path.copy(alloc)?,
        })),
        (Obstacle::Path, _, _) => Ok(Some(Source::Hosted {
            scheme: scheme.copy(alloc)?,
            host: host.copy(alloc)?,
            port,
            path: PathPart::Absent,
        })),
        (Obstacle::Suffix, _, HostPart::Under(suffix)) => Ok(Some(Source::Hosted {
            scheme: scheme.copy(alloc)?,
            host: HostPart::Exact(suffix.copy(alloc)?),
            port,
            path: path.copy(alloc)?,
        })),
        _ => Ok(None),
    }
}

// The same of `'self'`, which stands for a host-source of the origin.
fn changed_self(
    alloc: Global,
    part: Obstacle,
    origin: &Origin,
    url: &Url,
) -> Result<Option<Source>, Memory>
    ensures { IfOk result (λ made. made ≡ spec.changed_self part origin.now url.now) }
{
    let Origin::Tuple { scheme, host, port } = origin else {
        return Ok(None);
    };
    let (scheme, port) = match (part, url) {
        (Obstacle::Scheme, Url::Hosted { scheme: there, .. }) => (there, port_of(*port)),
        (Obstacle::Port, _) => (scheme, PortPart::Any),
        _ => return Ok(None),
    };
    Ok(Some(Source::Hosted {
        scheme: Some(Text::new(alloc, scheme.as_str())?),
        host: HostPart::Exact(Text::new(alloc, host.as_str())?),
        port,
        path: PathPart::Absent,
    }))
}

// The same of a scheme-source of http or https, where the URL is of a web socket.
fn changed_scheme(
    alloc: Global,
    part: Obstacle,
    own: &str,
    url: &Url,
) -> Result<Option<Source>, Memory>
    ensures { IfOk result (λ made. made ≡ spec.changed_scheme part own.now url.now) }
{
    match (part, url) {
        (Obstacle::Scheme, Url::Hosted { scheme, .. }) if is_socket(*scheme) && is_web(own) => {
            Ok(Some(Source::SchemeOnly {
                scheme: Text::new(alloc, scheme.as_str())?,
            }))
        }
        _ => Ok(None),
    }
}

fn is_socket(scheme: Scheme) -> bool
    ensures { result ≡ spec.is_socket scheme }
{
    matches!(scheme, Scheme::Ws | Scheme::Wss)
}

fn is_web(scheme: &str) -> bool
    ensures { result ≡ spec.is_web scheme.now }
{
    scheme == "http" || scheme == "https"
}

// The port as a source has it.
fn port_of(port: Option<u16>) -> PortPart
    ensures { result ≡ port_part_of port }
{
    match port {
        None => PortPart::Absent,
        Some(port) => PortPart::Number(port),
    }
}
