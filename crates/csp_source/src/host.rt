//! The host of a host-source (Content Security Policy Level 3, section 2.3.1).
ghost use Rattle.std.specs.Prelude.{◌≡◌, ◌≤◌, length, IfOk, IsTrue};
ghost use Rattle.std.specs.List.{list_all, prefix_len};
ghost use Rattle.csp_model.specs.Ascii.{code, is_ascii_text, split_at};
ghost use Rattle.csp_model.specs.Grammar as spec;
ghost use Rattle.csp_model.specs.Reading as reading;

use crate::texts::without_final;
use csp_model::{HostPart, Memory, Text};
use std::alloc::Global;

#[tactic(auto, unfolding(csp_model::specs::Grammar::is_label_char))]
fn is_label_char(b: u8) -> bool
    ensures { result ≡ spec.is_label_char b }
{
    b.is_ascii_alphanumeric() || b == b'-'
}

fn all_label_chars(text: &[u8]) -> bool
    ensures { result ≡ list_all spec.is_label_char text.now }
{
    text.iter().fold(true, |all, b| all & is_label_char(*b))
}

fn is_label(text: &[u8]) -> bool
    ensures { result ≡ spec.is_label text.now }
{
    !text.is_empty() && all_label_chars(text)
}

fn are_labels(text: &[u8]) -> bool
    ensures { result ≡ list_all spec.is_label (split_at (code ".") text.now) }
{
    text.split(|b| *b == b'.').all(|label| is_label(label))
}

#[tactic(auto, unfolding(csp_model::specs::Grammar::is_name))]
fn is_name(text: &[u8]) -> bool
    ensures { result ≡ spec.is_name text.now }
{
    are_labels(without_final(text, b'.'))
}

#[tactic(auto, unfolding(csp_model::specs::Reading::is_host_char))]
fn is_host_char(b: u8) -> bool
    ensures { result ≡ reading.is_host_char b }
{
    is_label_char(b) || b == b'.' || b == b'*'
}

// How many bytes of a host the text begins with.
pub(crate) fn host_len(text: &[u8]) -> usize
    ensures value { result ≡ prefix_len reading.is_host_char text.now }
    ensures bound { result ≤ length text.now }
{
    text.iter().take_while(|b| is_host_char(**b)).count()
}

// The host that the text is.
#[tactic(auto, unfolding(csp_model::specs::Grammar::host_part_of))]
pub(crate) fn host_part_of(alloc: Global, text: &[u8]) -> Result<Option<HostPart>, Memory>
    requires { IsTrue (is_ascii_text text.now) }
    ensures { IfOk result (λ found. found ≡ spec.host_part_of text.now) }
{
    if text == b"*".as_slice() {
        return Ok(Some(HostPart::Any));
    }
    if text.starts_with(b"*.") {
        let (_, suffix) = text.split_at(2);
        if is_name(suffix) {
            return Ok(Some(HostPart::Under(Text::from_ascii_lowercase(alloc, suffix)?)));
        }
    }
    if is_name(text) {
        Ok(Some(HostPart::Exact(Text::from_ascii_lowercase(alloc, text)?)))
    } else {
        Ok(None)
    }
}
