//! An index of a source list by host and path (Content Security Policy Level 3, section 6.7.2).
ghost use Rattle.std.specs.Prelude.{◌≡◌, ◌↔◌, All, IfOk, IsTrue, map};
ghost use Rattle.std.specs.List.{list_any};
ghost use Rattle.std.specs.Option.{option_map};
ghost use Rattle.csp_model.specs.DecideMatching as spec;
ghost use Rattle.csp_model.specs.Matching.{ListMatches};
ghost use Rattle.csp_match.specs.Entries.{entry_parts, IsEntry};
ghost use Rattle.csp_match.specs.Split.{any_host_source, by_scheme_or_host, by_star_or_self, host_sources};
ghost use Rattle.csp_match.specs.Split.{is_self, is_star, scheme_part, scheme_parts};

use crate::host_index::HostIndex;
use crate::host_key::HostKey;
use crate::host_source::{Target, host_source};
use crate::hosted_url::HostedUrl;
use crate::multimap::sorted_once;
use crate::scheme::{is_network_scheme, scheme_matches, url_scheme};
use crate::self_source::self_matches;
use csp_model::{Keyword, List, Memory, Origin, Source, Text, Url};
use std::alloc::Global;
use std::marker::Model;

/// An index of a source list, which many URLs can be matched against without looking at each source anew
/// (Content Security Policy Level 3, section 6.7.2).
///
/// Host-sources are found by their hosts, and under each host by their paths. Of equal sources one is looked
/// at, and of those that match no URL none.
#[derive(Drop)]
pub struct Index<'a> {
    sources: &'a List<Source>,
    has_star: bool,
    has_self: bool,
    schemes: Vec<&'a Text>,
    hosts: HostIndex<'a>,
}

impl<'a> Model for Index<'a> {
    ghost use Rattle.std.specs.Prelude.{List as Items};
    ghost use Rattle.csp_model.specs.declared.source.Source.{Source as Token};

    ghost Value = { Items Token };

    ghost view = { λ a. a.sources.now };

    ghost use Rattle.csp_match.specs.Index.{IsIndex};

    ghost invariant = { IsIndex };
}

impl<'a> Index<'a> {
    /// The index of a list, whose sources are sorted by host and path. No text is copied.
    pub fn new(alloc: Global, sources: &'a List<Source>) -> Result<Index<'a>, Memory>
        ensures sources { IfOk result (λ made. made ≡ sources.now) }
    {
        let listed = sources.as_slice();
        let schemes = scheme_sources(alloc, listed)?;
        let hosts = HostIndex::new(alloc, entries(alloc, listed)?)?;
        Ok(Index {
            sources,
            has_star: has_star(listed),
            has_self: has_self(listed),
            schemes: sorted_once(schemes),
            hosts,
        })
    }

    /// Whether some source expression of the list matches a URL, as `list_matches` says. No memory is taken.
    pub fn matches(&self, origin: &Origin, url: &Url, redirected: bool) -> bool
        ensures value { result ≡ spec.list_matches self.now origin.now url.now redirected }
        ensures matches { IsTrue result ↔ ListMatches self.now origin.now url.now redirected }
    {
        self.star_or_self_matches(origin, url)
            || self.listed_source_matches(origin, url, redirected)
    }

    // Whether `*` or `'self'` matches.
    fn star_or_self_matches(&self, origin: &Origin, url: &Url) -> bool
        ensures { result ≡ by_star_or_self self.now origin.now url.now }
    {
        (self.has_star && is_network_scheme(url_scheme(url)))
            || (self.has_self && self_matches(origin, url))
    }

    // Whether a scheme-source or a host-source matches.
    fn listed_source_matches(&self, origin: &Origin, url: &Url, redirected: bool) -> bool
        ensures { result ≡ by_scheme_or_host self.now origin.now url.now redirected }
    {
        self.scheme_sources_match(url_scheme(url))
            || self.host_sources_match(origin, url, redirected)
    }

    fn scheme_sources_match(&self, scheme: &str) -> bool
        ensures { result ≡ list_any (λ part. spec.scheme_matches part scheme.now) (scheme_parts self.now) }
    {
        any_scheme_matches(self.schemes.as_slice(), scheme)
    }

    fn host_sources_match(&self, origin: &Origin, url: &Url, redirected: bool) -> bool
        ensures { result ≡ any_host_source (host_sources self.now) origin.now url.now redirected }
    {
        match url {
            Url::Plain { .. } => false,
            Url::Hosted {
                scheme,
                host,
                port,
                path,
            } => self.hosts.matches(&HostedUrl {
                origin,
                scheme: *scheme,
                host,
                port: *port,
                path,
                redirected,
            }),
        }
    }
}

fn any_scheme_matches(schemes: &[&Text], scheme: &str) -> bool
    ensures { result ≡ list_any (λ part. spec.scheme_matches part.now scheme.now) schemes.now }
{
    schemes
        .iter()
        .any(|part| scheme_matches(part.as_str(), scheme))
}

fn has_star(sources: &[Source]) -> bool
    ensures { result ≡ list_any is_star sources.now }
{
    sources.iter().any(is_star_source)
}

fn is_star_source(source: &Source) -> bool
    ensures { result ≡ is_star source.now }
{
    matches!(source, Source::Star)
}

fn has_self(sources: &[Source]) -> bool
    ensures { result ≡ list_any is_self sources.now }
{
    sources.iter().any(is_self_source)
}

fn is_self_source(source: &Source) -> bool
    ensures { result ≡ is_self source.now }
{
    match source {
        Source::Word { word } => *word == Keyword::SelfOrigin,
        _ => false,
    }
}

fn scheme_source(source: &Source) -> Option<&Text>
    ensures { option_map (λ t. t.now) result ≡ scheme_part source.now }
{
    match source {
        Source::SchemeOnly { scheme } => Some(scheme),
        _ => None,
    }
}

// The schemes of the scheme-sources.
fn scheme_sources<'a>(alloc: Global, sources: &'a [Source]) -> Result<Vec<&'a Text>, Memory>
    ensures { IfOk result (λ made. map (λ t. t.now) made.items ≡ scheme_parts sources.now) }
{
    let mut made = Vec::new(alloc);
    for source in sources {
        if let Some(scheme) = scheme_source(source) {
            made.push(scheme)?;
        }
    }
    Ok(made)
}

// The host-sources that a URL can match.
fn entries<'a>(
    alloc: Global,
    sources: &'a [Source],
) -> Result<Vec<(HostKey<'a>, Target<'a>)>, Memory>
    ensures parts { IfOk result (λ made. map entry_parts made.items ≡ host_sources sources.now) }
    ensures each { IfOk result (λ made. All IsEntry made.items) }
{
    let mut made = Vec::with_capacity(alloc, sources.len())?;
    for source in sources {
        if let Some(entry) = host_source(source) {
            made.push(entry)?;
        }
    }
    Ok(made)
}
