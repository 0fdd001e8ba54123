//! Host-sources, found by their hosts and by how a URL's path begins.
ghost use Rattle.std.specs.Prelude.{◌≡◌, ◌<◌, ◌≤◌, ◌↔◌, ◌&&◌, true, false, All, IfOk, IsTrue, length};
ghost use Rattle.std.specs.List.{list_any};
ghost use Rattle.std.specs.List.Sorted.{IsPartitionPoint};
ghost use Rattle.std.specs.Ordering.{is_eq};
ghost use Rattle.csp_match.specs.Entries.{target_fits, IsEntry};
ghost use Rattle.csp_match.specs.Fronts.{host_cmp, is_up_to, place, within_fits, AreOutersTo, IsLastOuter};
ghost use Rattle.csp_match.specs.Fronts.{IsOuter, IsShared, Rises};

use crate::host_key::HostKey;
use crate::host_source::Target;
use crate::hosted_url::HostedUrl;
use crate::multimap::Multimap;
use csp_model::Memory;
use std::alloc::Global;
use std::marker::Model;

// Host-sources in the order of their hosts, and under each host in that of the texts of their paths.
#[derive(Drop)]
pub(crate) struct Fronts<'a> {
    targets: Multimap<HostKey<'a>, Target<'a>>,
    // For each target its outer one: the last before it, of the same host, whose text begins its own.
    outers: Vec<Option<usize>>,
}

impl<'a> Model for Fronts<'a> {
    ghost use Rattle.std.specs.Prelude.{length, List};
    ghost use Rattle.csp_match.specs.Entries.{Entry};
    ghost use Rattle.csp_match.specs.Fronts.{AreOutersTo};

    ghost Value = { List Entry };

    ghost view = { λ a. a.targets };

    ghost invariant = { λ a. AreOutersTo a.targets a.outers.items (length a.targets) };
}

impl<'a> Fronts<'a> {
    pub(crate) fn new(
        alloc: Global,
        targets: Multimap<HostKey<'a>, Target<'a>>,
    ) -> Result<Fronts<'a>, Memory>
        ensures { IfOk result (λ made. made ≡ targets.entry) }
    {
        let outers = outers_of(alloc, targets.as_slice())?;
        Ok(Fronts { targets, outers })
    }

    // Whether a target of a host is a URL's. Only those can be whose text begins the text of its path: of the
    // last target that isn't behind the path in order and its outer ones, those that are no longer than what
    // that one shares with the path.
    pub(crate) fn any_fits(&self, host: &HostKey<'_>, asked: &HostedUrl<'_>) -> bool
        requires { All IsEntry self.now }
        ensures { result ≡ list_any (λ e. is_eq (host_cmp e.0 host.now) && target_fits asked.now e) self.now }
    {
        let targets = self.targets.as_slice();
        let path = asked.path.as_front().as_bytes();
        let Some(last) = count_up_to(targets, host, path).checked_sub(1) else {
            return false;
        };
        if targets[last].0 != *host {
            return false;
        }
        let shared = shared_length(targets[last].1.text.as_bytes(), path);
        let mut next = Some(last);
        while let Some(at) = next {
            if fits_within(&targets[at].1, shared, asked) {
                return true;
            }
            next = self.outers[at];
        }
        false
    }
}

// How many targets aren't behind a path of a host in order.
fn count_up_to(targets: &[(HostKey<'_>, Target<'_>)], host: &HostKey<'_>, path: &[u8]) -> usize
    requires { Rises targets.now }
    ensures bound { result ≤ length targets.now }
    ensures end { IsPartitionPoint (λ e. is_up_to (host.now, path.now) e ≡ true)
        (λ e. is_up_to (host.now, path.now) e ≡ false) targets.now result }
{
    targets.partition_point(|pair| (pair.0, pair.1.text.as_bytes()).cmp(&(*host, path)).is_le())
}

// Whether a target is a URL's, whose path begins with the target's text if that is no longer than this.
fn fits_within(target: &Target<'_>, shared: usize, asked: &HostedUrl<'_>) -> bool
    ensures { result ≡ within_fits asked.now shared target.now }
{
    let length = target.text.len();
    length <= shared && target.fits(asked, length == asked.path.as_front().len())
}

// For each target its outer one.
fn outers_of(
    alloc: Global,
    targets: &[(HostKey<'_>, Target<'_>)],
) -> Result<Vec<Option<usize>>, Memory>
    requires { Rises targets.now }
    ensures { IfOk result (λ made. AreOutersTo targets.now made.items (length targets.now)) }
{
    let mut outers = Vec::with_capacity(alloc, targets.len())?;
    for at in 0..targets.len() {
        let outer = outer_of(targets, &outers, at);
        outers.push(outer)?;
    }
    Ok(outers)
}

// The outer target of this one: the target before it, or an outer one of that.
fn outer_of(
    targets: &[(HostKey<'_>, Target<'_>)],
    outers: &[Option<usize>],
    at: usize,
) -> Option<usize>
    requires order { Rises targets.now }
    requires at { at < length targets.now }
    requires outers { AreOutersTo targets.now outers.now at }
    ensures { IsLastOuter targets.now at result }
{
    let mut next = at.checked_sub(1);
    while let Some(outer) = next {
        if is_outer(&targets[outer], &targets[at]) {
            return next;
        }
        next = outers[outer];
    }
    None
}

// Whether a target is of the host of another, and its text begins that one's.
fn is_outer(outer: &(HostKey<'_>, Target<'_>), inner: &(HostKey<'_>, Target<'_>)) -> bool
    ensures { IsTrue result ↔ IsOuter (place outer.now) (place inner.now) }
{
    let front = outer.1.text.as_bytes();
    outer.0 == inner.0 && inner.1.text.as_bytes().starts_with(front)
}

// How many of their first bytes two texts have in common.
fn shared_length(one: &[u8], other: &[u8]) -> usize
    ensures { IsShared one.now other.now result }
{
    let most = one.len().min(other.len());
    for at in 0..most {
        if one[at] != other[at] {
            return at;
        }
    }
    most
}
