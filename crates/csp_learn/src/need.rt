//! What a fetch needs: a source expression of its effective directive.
ghost use Rattle.std.specs.Prelude.{◌≡◌, ◌≤◌, ◌&&◌, IfOk, IsTrue, MatchOption, Some, None, option_map, if◌then◌else◌};
ghost use Rattle.std.specs.List.{list_all};
ghost use Rattle.csp_model.specs.Ascii.{code, split_at, without_final};
ghost use Rattle.csp_model.specs.Grammar.{is_label, is_label_char, is_name};
ghost use Rattle.csp_learn.specs.Needs as spec;

use crate::directive_name::DirectiveName;
use csp_model::{Memory, Scheme, Text, Url};
use itoa::Buffer;
use std::alloc::Global;

// The longest token that a policy file may have, in bytes.
const LONGEST_TOKEN: usize = 4096;

// The longest that stands beside a host, as in `https://` and `:65535`.
const BESIDE_HOST: usize = 14;

// A directive's name and a token that is needed of it. In order they stand by their bytes, first those of the
// directives.
#[derive(Debug, PartialEq, Eq, PartialOrd, Ord, Drop)]
pub(crate) struct Need {
    pub(crate) directive: DirectiveName,
    pub(crate) token: Text,
}

#[tactic(auto, unfolding(csp_model::specs::Grammar::is_label_char))]
fn is_label_char(b: u8) -> bool
    ensures { result ≡ is_label_char b }
{
    b.is_ascii_alphanumeric() || b == b'-'
}

fn all_label_chars(text: &[u8]) -> bool
    ensures { result ≡ list_all is_label_char text.now }
{
    text.iter().all(|b| is_label_char(*b))
}

fn is_label(text: &[u8]) -> bool
    ensures { result ≡ is_label text.now }
{
    !text.is_empty() && all_label_chars(text)
}

fn are_labels(text: &[u8]) -> bool
    ensures { result ≡ list_all is_label (split_at (code ".") text.now) }
{
    text.split(|b| *b == b'.').all(|label| is_label(label))
}

fn without_dot(text: &[u8]) -> &[u8]
    ensures { result.now ≡ without_final (code ".") text.now }
{
    match text {
        [front @ .., b'.'] => front,
        _ => text,
    }
}

// Whether a host is made of labels of letters, digits and `-`, joined by dots, with or without one more dot
// at the end.
#[tactic(auto, unfolding(csp_model::specs::Grammar::is_name))]
fn is_host_name(host: &str) -> bool
    ensures { result ≡ is_name host.now }
{
    are_labels(without_dot(host.as_bytes()))
}

// Whether a source can name the URL's host, where it has one.
fn has_named_host(url: &Url) -> bool
    ensures { result ≡ spec.has_named_host url.now }
{
    match url {
        Url::Plain { .. } => true,
        Url::Hosted { host, .. } => is_host_name(host.as_str()),
    }
}

// The token of the source that a fetch of the URL needs.
fn write_token(alloc: Global, url: &Url) -> Result<Text, Memory>
    ensures { IfOk result (λ token. token ≡ spec.needed_token url.now) }
{
    let mut token = String::new(alloc);
    match url {
        Url::Plain { scheme } => {
            token.push_str(scheme.as_str())?;
            token.push(':')?;
        }
        Url::Hosted {
            scheme,
            host,
            port,
            ..
        } => {
            token.reserve(host.as_str().len() + BESIDE_HOST)?;
            token.push_str(scheme.as_str())?;
            token.push_str("://")?;
            token.push_str(host.as_str())?;
            token.push_str(":")?;
            token.push_str(Buffer::new().format(effective_port(*scheme, *port)))?;
        }
    }
    Ok(Text::from_string(token))
}

fn effective_port(scheme: Scheme, port: Option<u16>) -> u16
    ensures { result ≡ spec.effective_port scheme port }
{
    port.unwrap_or(scheme.default_port())
}

// The token of the source that a fetch of the URL needs. None where no source can name it.
#[tactic(auto, unfolding(crate::specs::Needs::can_be_named))]
pub(crate) fn needed_token(alloc: Global, url: &Url) -> Result<Option<Text>, Memory>
    ensures { IfOk result (λ made. made
        ≡ (if spec.can_be_named url.now then Some (spec.needed_token url.now) else None)) }
{
    if !has_named_host(url) {
        return Ok(None);
    }
    let token = write_token(alloc, url)?;
    if token.as_str().len() <= LONGEST_TOKEN {
        Ok(Some(token))
    } else {
        Ok(None)
    }
}
