//! Host-sources, as keys.
ghost use Rattle.std.specs.Prelude.{◌≡◌, IfSome};
ghost use Rattle.std.specs.Option.{option_map};
ghost use Rattle.csp_match.specs.Keys as spec;
ghost use Rattle.csp_match.specs.Entries as entries;

use crate::host_key::HostKey;
use crate::hosted_url::HostedUrl;
use crate::path_key::{PathKind, front_of};
use crate::port::port_matches;
use crate::scheme::own_scheme_matches;
use csp_model::{PortPart, Source, Text};

// A port that some URL has.
#[derive(Clone, Copy, PartialEq, Eq, PartialOrd, Ord)]
pub(crate) enum PortKey {
    Absent,
    Any,
    Number(u16),
}

impl PortKey {
    // None where no URL has such a port.
    fn of(part: PortPart) -> Option<PortKey>
        ensures { result ≡ spec.port_key part }
    {
        match part {
            PortPart::Absent => Some(PortKey::Absent),
            PortPart::Any => Some(PortKey::Any),
            PortPart::Number(number) => Some(PortKey::Number(number)),
            PortPart::TooLarge => None,
        }
    }

    fn part(self) -> PortPart
        ensures { result ≡ spec.port_of self }
    {
        match self {
            PortKey::Absent => PortPart::Absent,
            PortKey::Any => PortPart::Any,
            PortKey::Number(number) => PortPart::Number(number),
        }
    }
}

// How the URLs of a host-source are reached.
#[derive(Clone, Copy, PartialEq, Eq, PartialOrd, Ord)]
pub(crate) struct SchemePort<'a> {
    pub(crate) scheme: &'a Option<Text>,
    pub(crate) port: PortKey,
}

impl SchemePort<'_> {
    // Whether a URL's scheme and port are those that a host-source asks for.
    pub(crate) fn fits(&self, asked: &HostedUrl<'_>) -> bool
        ensures { result
            ≡ entries.way_fits (entries.scheme_of self.now) (entries.way_port self.now) asked.now }
    {
        port_matches(self.port.part(), asked.port, asked.scheme)
            && own_scheme_matches(self.scheme, asked.origin, asked.scheme)
    }
}

// Where the URLs of a host-source lie at its host, and how they are reached. The text of its path comes first
// in the order, with a slash at its end.
#[derive(Clone, Copy, PartialEq, Eq, PartialOrd, Ord)]
pub(crate) struct Target<'a> {
    pub(crate) text: &'a str,
    pub(crate) kind: PathKind,
    pub(crate) way: SchemePort<'a>,
}

impl Target<'_> {
    // Whether a URL is the target's, whose path begins with its pieces, and has no others if `ends`.
    pub(crate) fn fits(&self, asked: &HostedUrl<'_>, ends: bool) -> bool
        ensures { result ≡ entries.front_fits asked.now ends self.now }
    {
        self.kind.takes(ends) && self.way.fits(asked)
    }
}

// The host and the target of a host-source. None where the source isn't one, or matches no URL by its port.
pub(crate) fn host_source(source: &Source) -> Option<(HostKey<'_>, Target<'_>)>
    ensures parts { option_map entries.entry_parts result ≡ spec.parts_of source.now }
    ensures entry { IfSome result entries.IsEntry }
{
    match source {
        Source::Hosted {
            scheme,
            host,
            port,
            path,
        } => {
            let port = PortKey::of(*port)?;
            let target = Target {
                text: front_of(path),
                kind: PathKind::of(path),
                way: SchemePort { scheme, port },
            };
            Some((HostKey::of(host), target))
        }
        _ => None,
    }
}
