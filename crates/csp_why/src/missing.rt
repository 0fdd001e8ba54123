//! The URL whose source would allow a check that a directive blocks.
ghost use Rattle.std.specs.Prelude.{◌≡◌, option_copied};
ghost use Rattle.std.specs.List.{list_all};
ghost use Rattle.csp_model.specs.Ascii.{code, split_at, without_final};
ghost use Rattle.csp_model.specs.Grammar.{is_label, is_label_char, is_name};
ghost use Rattle.csp_why.specs.Missing as spec;

use crate::displacement::displacement;
use crate::reason::Reason;
use csp_match::governor;
use csp_model::{
    Check, Duplicate, HostPart, Memory, PathPart, Policy, PortPart, Source, Text, Url,
};
use csp_verdict::effective_name;
use std::alloc::Global;

/// The URL of the check, where its source would allow the check, added to the directive that blocks it for
/// this reason: the URL's scheme, its very host and its port, or its scheme alone where it has no host.
///
/// None where a token comes near, where no source would count, as beside `'strict-dynamic'`, where no source
/// can name the host, and of a check without a URL.
pub fn missing_url<'a>(policy: &Policy, check: &'a Check, reason: &Reason) -> Option<&'a Url>
    ensures { option_copied result ≡ spec.missing_url policy.now check.now reason.now }
{
    let Reason::Blocks { near, .. } = reason else {
        return None;
    };
    let Some(found) = governor(policy, effective_name(check)) else {
        return None;
    };
    let displaced = displacement(check, found.name, &found.directive.sources);
    if !near.as_slice().is_empty() || displaced.is_some() {
        return None;
    }
    named_url(check.url())
}

// The URL, where a source can name it.
fn named_url(url: Option<&Url>) -> Option<&Url>
    ensures { option_copied result ≡ spec.named_url (option_copied url.entry) }
{
    match url {
        Some(url) if can_be_named(url) => Some(url),
        _ => None,
    }
}

// Whether a source can name the URL's host, where it has one.
fn can_be_named(url: &Url) -> bool
    ensures { result ≡ spec.can_be_named url.now }
{
    match url {
        Url::Plain { .. } => true,
        Url::Hosted { host, .. } => is_host_name(host.as_str()),
    }
}

// Whether a host is made of labels of letters, digits and `-`, joined by dots, with or without one more dot
// at the end.
#[tactic(auto, unfolding(csp_model::specs::Grammar::is_name))]
fn is_host_name(host: &str) -> bool
    ensures { result ≡ is_name host.now }
{
    are_labels(without_dot(host.as_bytes()))
}

fn without_dot(text: &[u8]) -> &[u8]
    ensures { result.now ≡ without_final (code ".") text.now }
{
    match text {
        [front @ .., b'.'] => front,
        _ => text,
    }
}

fn are_labels(text: &[u8]) -> bool
    ensures { result ≡ list_all is_label (split_at (code ".") text.now) }
{
    text.split(|b| *b == b'.').all(|label| is_label(label))
}

fn is_label(text: &[u8]) -> bool
    ensures { result ≡ is_label text.now }
{
    !text.is_empty() && all_label_chars(text)
}

fn all_label_chars(text: &[u8]) -> bool
    ensures { result ≡ list_all is_label_char text.now }
{
    text.iter().all(|b| is_label_char(*b))
}

#[tactic(auto, unfolding(csp_model::specs::Grammar::is_label_char))]
fn is_label_char(b: u8) -> bool
    ensures { result ≡ is_label_char b }
{
    b.is_ascii_alphanumeric() || b == b'-'
}
