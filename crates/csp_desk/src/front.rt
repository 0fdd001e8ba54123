//! The front of a report, which tells what is blocked.
ghost use Rattle.std.specs.Prelude.{◌≡◌, ◌++◌, IfOk, OnOk, OnErr, take, length};
ghost use Rattle.json.specs.Print.{quoted};
ghost use Rattle.csp_desk.specs.Report as spec;
ghost use Rattle.csp_desk.specs.Plain.{is_plain, are_plain};

use csp_model::Memory;
use json::Writer;
use std::alloc::{AllocError, Global};

// Whether a byte stands for itself in a JSON text (RFC 8259, section 7).
fn is_plain(byte: u8) -> bool
    ensures { result ≡ is_plain byte }
{
    byte >= 32 && byte != b'"' && byte != b'\\'
}

// Looks at each byte, whatever it finds, so that it looks at many at once.
fn are_plain(text: &[u8]) -> bool
    ensures { result ≡ are_plain text.now }
{
    let mut plain = true;
    for byte in text {
        plain &= is_plain(*byte);
    }
    plain
}

// A text between quotes, in the shortest escapes.
fn quote(alloc: Global, text: &str) -> Result<Vec<u8>, AllocError>
    ensures { IfOk result (λ made. made.items ≡ quoted text.now) }
{
    let mut out = Writer::new(Vec::new(alloc));
    out.string(text)?;
    Ok(out.into_inner())
}

// Adds a text between quotes, which mostly needs no escape. What stood there stays.
fn push_quoted(alloc: Global, text: &mut Vec<u8>, value: &str) -> Result<(), AllocError>
    ensures ok { OnOk result (text.new.items ≡ text.old.items ++ quoted value.now) }
    ensures kept { take (length text.old.items) text.new.items ≡ text.old.items }
{
    if !are_plain(value.as_bytes()) {
        return text.extend_from_slice(quote(alloc, value)?.as_slice());
    }
    text.push(b'"')?;
    text.extend_from_slice(value.as_bytes())?;
    text.push(b'"')?;
    Ok(())
}

fn append_front(alloc: Global, text: &mut Vec<u8>, blocked_uri: &str) -> Result<(), AllocError>
    ensures ok { OnOk result (text.new.items ≡ text.old.items ++ spec.report_front blocked_uri.now) }
    ensures kept { take (length text.old.items) text.new.items ≡ text.old.items }
{
    text.extend_from_slice(b"{\"blocked-uri\":")?;
    push_quoted(alloc, text, blocked_uri)
}

/// Adds the front of a report behind a text: what it says up to the blocked URI.
///
/// Where there is no memory, the text is as it was.
pub fn push_front(alloc: Global, text: &mut Vec<u8>, blocked_uri: &str) -> Result<(), Memory>
    ensures ok { OnOk result (text.new.items ≡ text.old.items ++ spec.report_front blocked_uri.now) }
    ensures err { OnErr result (text.new.items ≡ text.old.items) }
{
    let before = text.len();
    if append_front(alloc, text, blocked_uri).is_err() {
        text.truncate(before);
        return Err(Memory);
    }
    Ok(())
}
