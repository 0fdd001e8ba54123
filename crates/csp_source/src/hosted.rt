//! Host-sources (Content Security Policy Level 3, section 2.3.1).
ghost use Rattle.std.specs.Prelude.{◌≡◌, ◌≤◌, length, IfOk, IsTrue, IfSome, option_map};
ghost use Rattle.std.specs.List.{prefix_len};
ghost use Rattle.csp_model.specs.Ascii.{is_ascii_text, lower};
ghost use Rattle.csp_model.specs.Reading as spec;

use crate::host::{host_len, host_part_of};
use crate::path::{is_path, path_part_of};
use crate::port::port_part_of;
use crate::scheme::split_scheme;
use csp_model::{Memory, Source, Text};
use std::alloc::Global;

#[tactic(auto, unfolding(csp_model::specs::Reading::is_no_slash))]
fn is_no_slash(b: u8) -> bool
    ensures { result ≡ spec.is_no_slash b }
{
    b != b'/'
}

// How many bytes stand before the first slash.
fn len_to_slash(text: &[u8]) -> usize
    ensures value { result ≡ prefix_len spec.is_no_slash text.now }
    ensures bound { result ≤ length text.now }
{
    text.iter().take_while(|b| is_no_slash(**b)).count()
}

// A scheme in lower case, where there is one. Mostly it is the same one, which is known to be a text.
fn lower_scheme(alloc: Global, letters: Option<&[u8]>) -> Result<Option<Text>, Memory>
    requires { IfSome letters (λ l. IsTrue (is_ascii_text l.now)) }
    ensures { IfOk result (λ made. made ≡ option_map (λ l. lower l.now) letters.entry) }
{
    match letters {
        None => Ok(None),
        Some(b"https") => Ok(Some(Text::new(alloc, "https")?)),
        Some(letters) => Ok(Some(Text::from_ascii_lowercase(alloc, letters)?)),
    }
}

// The source behind the scheme-part. Memory is taken only once each part is known to be good.
#[tactic(auto, unfolding(csp_model::specs::Reading::authority))]
fn authority(alloc: Global, letters: Option<&[u8]>, text: &[u8]) -> Result<Option<Source>, Memory>
    requires letters { IfSome letters (λ l. IsTrue (is_ascii_text l.now)) }
    requires text { IsTrue (is_ascii_text text.now) }
    ensures { IfOk result
        (λ found. found ≡ spec.authority (option_map (λ l. lower l.now) letters.entry) text.now) }
{
    let (host_text, rest) = text.split_at(host_len(text));
    let (port_text, path_text) = rest.split_at(len_to_slash(rest));
    let Some(port) = port_part_of(port_text) else {
        return Ok(None);
    };
    if !is_path(path_text) {
        return Ok(None);
    }
    let Some(host) = host_part_of(alloc, host_text)? else {
        return Ok(None);
    };
    let path = path_part_of(alloc, path_text)?;
    let scheme = lower_scheme(alloc, letters)?;
    Ok(Some(Source::Hosted {
        scheme,
        host,
        port,
        path,
    }))
}

// The source that is a host with or without a scheme, a port and a path.
#[tactic(auto, unfolding(csp_model::specs::Reading::host_source))]
pub(crate) fn host_source(alloc: Global, token: &[u8]) -> Result<Option<Source>, Memory>
    requires { IsTrue (is_ascii_text token.now) }
    ensures { IfOk result (λ found. found ≡ spec.host_source token.now) }
{
    match split_scheme(token) {
        Some((letters, rest)) => authority(alloc, Some(letters), rest),
        None => authority(alloc, None, token),
    }
}
