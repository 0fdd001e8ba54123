//! Hosts of host-sources, as keys.
ghost use Rattle.std.specs.Prelude.{◌≡◌};
ghost use Rattle.csp_match.specs.Keys as spec;
ghost use Rattle.csp_model.specs.declared.source.HostPart.TheVariants as host_part;

use csp_model::HostPart;

// The host of a host-source. Suffixes of different lengths are told apart without reading them, and so are
// whole hosts of different hashes.
#[derive(Clone, Copy, PartialEq, Eq, PartialOrd, Ord)]
pub(crate) enum HostKey<'a> {
    Any,
    Under { length: usize, suffix: &'a [u8] },
    Exact { hash: u64, text: &'a [u8] },
}

// The hash of a host's text, by Bernstein's function.
fn hash_of(text: &[u8]) -> u64
    ensures { result ≡ spec.hash_of text.now }
{
    let mut hash: u64 = 5381;
    for byte in text {
        hash = hash.wrapping_mul(33).wrapping_add(u64::from(*byte));
    }
    hash
}

impl<'a> HostKey<'a> {
    pub(crate) fn under(suffix: &'a [u8]) -> HostKey<'a>
        ensures host { spec.host_of result ≡ host_part.Under suffix.now }
        ensures key { spec.IsHostKey result }
    {
        HostKey::Under {
            length: suffix.len(),
            suffix,
        }
    }

    pub(crate) fn exact(text: &'a [u8]) -> HostKey<'a>
        ensures host { spec.host_of result ≡ host_part.Exact text.now }
        ensures key { spec.IsHostKey result }
    {
        HostKey::Exact {
            hash: hash_of(text),
            text,
        }
    }

    pub(crate) fn of(part: &'a HostPart) -> HostKey<'a>
        ensures host { spec.host_of result ≡ part.now }
        ensures key { spec.IsHostKey result }
    {
        match part {
            HostPart::Any => HostKey::Any,
            HostPart::Under(suffix) => HostKey::under(suffix.as_str().as_bytes()),
            HostPart::Exact(text) => HostKey::exact(text.as_str().as_bytes()),
        }
    }

    pub(crate) fn suffix_length(&self) -> usize
        ensures { result ≡ spec.key_length self.now }
    {
        match self {
            HostKey::Under { length, .. } => *length,
            HostKey::Any | HostKey::Exact { .. } => 0,
        }
    }
}
