//! Makes URLs of their parts.
ghost use Rattle.std.specs.Prelude.{◌≡◌, IfOk, option_copied};
ghost use Rattle.csp_model.specs.Answers.{Gives};
ghost use Rattle.csp_model.specs.Validity.{IsValidUrl};
ghost use Rattle.csp_url.specs.Parts as spec;

use crate::error::{Part, PartsError};
use crate::host::host_of;
use crate::path::found_path;
use csp_model::{Host, Memory, Scheme, Text, Url, is_lower_scheme};
use std::alloc::Global;

// The host that is given; it has to be.
fn given_host(alloc: Global, host: Option<&str>) -> Result<Option<Host>, Memory>
    ensures { IfOk result (λ found. found ≡ spec.given_host (option_copied host.entry)) }
{
    match host {
        None => Ok(None),
        Some(text) => host_of(alloc, text),
    }
}

// The port, or none where it is the scheme's default.
fn kept_port(scheme: Scheme, port: u16) -> Option<u16>
    ensures { result ≡ spec.kept_port scheme port }
{
    if port == scheme.default_port() {
        None
    } else {
        Some(port)
    }
}

// The port that is given, where it has 16 bits.
fn given_port(scheme: Scheme, port: Option<u32>) -> Option<Option<u16>>
    ensures { result ≡ spec.given_port scheme port }
{
    match port {
        None => Some(None),
        Some(n) => {
            if n < 65536 {
                Some(kept_port(scheme, n as u16))
            } else {
                None
            }
        }
    }
}

// The URL of a scheme that has hosts.
fn hosted_url(
    alloc: Global,
    scheme: Scheme,
    host: Option<&str>,
    port: Option<u32>,
    path: &str,
) -> Result<Url, PartsError>
    ensures { Gives PartsError.Memory result
        (spec.hosted_of_parts scheme (option_copied host.entry) port path.now) }
{
    let Some(host) = given_host(alloc, host)? else {
        return Err(PartsError::Bad { part: Part::Host });
    };
    let Some(port) = given_port(scheme, port) else {
        return Err(PartsError::Bad { part: Part::Port });
    };
    let Some(path) = found_path(alloc, path.as_bytes())? else {
        return Err(PartsError::Bad { part: Part::Path });
    };
    Ok(Url::Hosted {
        scheme,
        host,
        port,
        path,
    })
}

// The URL of any other scheme: no host, no port, and the path `/`.
fn plain(
    alloc: Global,
    scheme: &str,
    host: Option<&str>,
    port: Option<u32>,
    path: &str,
) -> Result<Url, PartsError>
    ensures { Gives PartsError.Memory result
        (spec.plain_of_parts scheme.now (option_copied host.entry) port path.now) }
{
    if host.is_some() {
        return Err(PartsError::Bad { part: Part::Host });
    }
    if port.is_some() {
        return Err(PartsError::Bad { part: Part::Port });
    }
    if path != "/" {
        return Err(PartsError::Bad { part: Part::Path });
    }
    Ok(Url::Plain {
        scheme: Text::new(alloc, scheme)?,
    })
}

/// The URL of its parts (URL Standard, section 4.1). The scheme is in lower case. A URL of http, https, ws,
/// wss or ftp has a host in lower case, or an address, as the standard prints them; a port of 16 bits, of
/// which the scheme's default is kept as None; and a path that begins with `/`, whose pieces are
/// percent-decoded. One of another scheme has neither host nor port, and the path `/`.
///
/// `Bad` names the first part, in the order of the arguments, that isn't so.
pub fn url_from_parts(
    alloc: Global,
    scheme: &str,
    host: Option<&str>,
    port: Option<u32>,
    path: &str,
) -> Result<Url, PartsError>
    ensures url { Gives PartsError.Memory result
        (spec.url_of_parts scheme.now (option_copied host.entry) port path.now) }
    ensures valid { IfOk result IsValidUrl }
{
    if !is_lower_scheme(scheme) {
        return Err(PartsError::Bad { part: Part::Scheme });
    }
    match Scheme::from_name(scheme) {
        Some(known) => hosted_url(alloc, known, host, port, path),
        None => plain(alloc, scheme, host, port, path),
    }
}
