//! Hosts (URL Standard, section 3).
ghost use Rattle.std.specs.Prelude.{◌≡◌, IfOk, option_and_then};
ghost use Rattle.url.specs.Parts.{nonempty_host};
ghost use Rattle.csp_url.specs.Reading as spec;

use csp_model::{Host, Memory, Text, is_address, is_domain};
use std::alloc::Global;

// The domain that a text is.
fn domain_of(alloc: Global, text: &str) -> Result<Option<Host>, Memory>
    ensures { IfOk result (λ host. host ≡ spec.domain_of text.now) }
{
    if is_domain(text) {
        Ok(Some(Host::Domain(Text::new(alloc, text)?)))
    } else {
        Ok(None)
    }
}

// The address that a text is.
fn address_of(alloc: Global, text: &str) -> Result<Option<Host>, Memory>
    ensures { IfOk result (λ host. host ≡ spec.address_of text.now) }
{
    if is_address(text) {
        Ok(Some(Host::Address(Text::new(alloc, text)?)))
    } else {
        Ok(None)
    }
}

// The host that parsing found, where it is valid.
pub(crate) fn found_host(alloc: Global, parsed: &url::Url) -> Result<Option<Host>, Memory>
    ensures { IfOk result (λ host. host ≡ option_and_then spec.found_host (nonempty_host parsed.now)) }
{
    match parsed.host() {
        None => Ok(None),
        Some(url::Host::Domain(text)) => domain_of(alloc, text),
        Some(_) => match parsed.host_str() {
            None => Ok(None),
            Some(text) => address_of(alloc, text),
        },
    }
}

// The domain or the address that a text is.
pub(crate) fn host_of(alloc: Global, text: &str) -> Result<Option<Host>, Memory>
    ensures { IfOk result (λ host. host ≡ spec.host_of text.now) }
{
    match domain_of(alloc, text)? {
        Some(host) => Ok(Some(host)),
        None => address_of(alloc, text),
    }
}
