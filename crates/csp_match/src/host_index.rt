//! An index of host-sources by host and path.
ghost use Rattle.std.specs.Prelude.{◌≡◌, ◌≤◌, All, Bool, IfOk, OnOk, map};
ghost use Rattle.std.specs.List.{list_any};
ghost use Rattle.csp_model.specs.declared.source.HostPart.TheVariants as host_part;
ghost use Rattle.csp_match.specs.Entries.{entry_parts, scheme_of, way_fits, way_port, IsEntry};
ghost use Rattle.csp_match.specs.Keys.{host_of, key_length, IsHostKey, Parts as HostSource};
ghost use Rattle.csp_match.specs.Under as spec;

use crate::fronts::Fronts;
use crate::host_key::HostKey;
use crate::host_source::{SchemePort, Target};
use crate::hosted_url::HostedUrl;
use crate::multimap::{Multimap, without_repeats};
use csp_model::{Host, Memory};
use std::alloc::Global;
use std::marker::Model;

// Host-sources by host, and by path under each host.
#[derive(Drop)]
pub(crate) struct HostIndex<'a> {
    // The length of the longest suffix: no longer one is looked up.
    longest_suffix: usize,
    // The targets at each host.
    targets: Fronts<'a>,
    // The ways to each host, for where paths aren't compared.
    pathless: Multimap<HostKey<'a>, SchemePort<'a>>,
}

impl<'a> Model for HostIndex<'a> {
    ghost use Rattle.std.specs.Prelude.{List};
    ghost use Rattle.csp_match.specs.Keys.{Parts};

    ghost Value = { List Parts };

    ghost use Rattle.csp_match.specs.HostIndex.{parts_inside, IsHostIndex};

    ghost view = { parts_inside };

    ghost invariant = { IsHostIndex };
}

impl<'a> HostIndex<'a> {
    pub(crate) fn new(
        alloc: Global,
        entries: Vec<(HostKey<'a>, Target<'a>)>,
    ) -> Result<HostIndex<'a>, Memory>
        requires { All IsEntry entries.items }
        ensures { IfOk result (λ made. (p : HostSource → Bool)
            → list_any p made ≡ list_any p (map entry_parts entries.entry.items)) }
    {
        let longest_suffix = longest_suffix(entries.as_slice());
        let targets = Multimap::new(entries);
        // Most hosts are reached in one way. So these are few, or in order by now.
        let ways = without_repeats(host_ways(alloc, targets.as_slice())?);
        Ok(HostIndex {
            longest_suffix,
            targets: Fronts::new(alloc, targets)?,
            pathless: Multimap::new(ways),
        })
    }

    // Whether some host-source matches a URL.
    pub(crate) fn matches(&self, asked: &HostedUrl<'_>) -> bool
        ensures { result ≡ list_any (spec.parts_match asked.now) self.now }
    {
        let text = asked.host.as_str().as_bytes();
        if self.matches_under(HostKey::exact(text), asked) {
            return true;
        }
        match asked.host {
            Host::Domain(_) => {
                self.matches_under(HostKey::Any, asked) || self.matches_suffix(text, asked)
            }
            Host::Address(_) => false,
        }
    }

    // Whether some host-source whose suffix the domain has matches. The tails behind the domain's dots are
    // looked up, but for those that are longer than all suffixes.
    fn matches_suffix(&self, domain: &[u8], asked: &HostedUrl<'_>) -> bool
        ensures { result ≡ spec.any_suffixed domain.now asked.now self.now }
    {
        let longer = domain.len().saturating_sub(self.longest_suffix);
        let first = longer.saturating_sub(1);
        for at in first..domain.len() {
            if domain[at] == b'.' && self.matches_under(HostKey::under(&domain[at + 1..]), asked) {
                return true;
            }
        }
        false
    }

    // Whether some host-source of a host matches.
    fn matches_under(&self, host: HostKey<'_>, asked: &HostedUrl<'_>) -> bool
        requires { IsHostKey host }
        ensures { result ≡ spec.any_under (host_of host.entry) asked.now self.now }
    {
        if asked.redirected {
            any_way_fits(self.pathless.get(&host), asked)
        } else {
            self.targets.any_fits(&host, asked)
        }
    }
}

// Whether one of the ways is a URL's.
fn any_way_fits<K>(ways: &[(K, SchemePort<'_>)], asked: &HostedUrl<'_>) -> bool
    ensures { result ≡ list_any (λ e. way_fits (scheme_of e.1) (way_port e.1) asked.now) ways.now }
{
    ways.iter().any(|pair| pair.1.fits(asked))
}

fn host_ways<'a>(
    alloc: Global,
    targets: &[(HostKey<'a>, Target<'a>)],
) -> Result<Vec<(HostKey<'a>, SchemePort<'a>)>, Memory>
    ensures { IfOk result (λ made. made.items ≡ map (λ e. (e.0, e.1.way)) targets.now) }
{
    Ok(
        targets
            .iter()
            .map(|pair| (pair.0, pair.1.way))
            .collect(alloc)?,
    )
}

// The length of the longest suffix.
fn longest_suffix(entries: &[(HostKey<'_>, Target<'_>)]) -> usize
    ensures { All (λ e. key_length e.0 ≤ result) entries.now }
{
    let mut longest = 0;
    for entry in entries {
        longest = entry.0.suffix_length().max(longest);
    }
    longest
}
