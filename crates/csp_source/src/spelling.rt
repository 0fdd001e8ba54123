//! Writes a source expression (Content Security Policy Level 3, section 2.3.1).
ghost use Rattle.std.specs.Prelude.{◌≡◌, ◌++◌, IfOk, OnOk, string_bytes, codes};
ghost use Rattle.csp_model.specs.Reading.{source_of};
ghost use Rattle.csp_source.specs.Spelling as spec;

use crate::quoted::hash_word;
use csp_model::{HostPart, Memory, PathPart, PortPart, Source, Text};
use itoa::Buffer;
use std::alloc::Global;

fn push_scheme(text: &mut String, scheme: &Option<Text>) -> Result<(), Memory>
    ensures { OnOk result
        (string_bytes text.new ≡ string_bytes text.old ++ spec.scheme_spelling scheme.now) }
{
    match scheme {
        None => Ok(()),
        Some(scheme) => {
            text.push_str(scheme.as_str())?;
            text.push_str("://")?;
            Ok(())
        }
    }
}

fn push_host(text: &mut String, host: &HostPart) -> Result<(), Memory>
    ensures { OnOk result
        (string_bytes text.new ≡ string_bytes text.old ++ spec.host_spelling host.now) }
{
    match host {
        HostPart::Any => text.push('*')?,
        HostPart::Under(suffix) => {
            text.push_str("*.")?;
            text.push_str(suffix.as_str())?;
        }
        HostPart::Exact(host) => text.push_str(host.as_str())?,
    }
    Ok(())
}

fn push_port(text: &mut String, port: PortPart) -> Result<(), Memory>
    ensures { OnOk result
        (string_bytes text.new ≡ string_bytes text.old ++ spec.port_spelling port) }
{
    match port {
        PortPart::Absent => {}
        PortPart::Any => text.push_str(":*")?,
        PortPart::Number(number) => {
            text.push(':')?;
            text.push_str(Buffer::new().format(number))?;
        }
        PortPart::TooLarge => text.push_str(":65536")?,
    }
    Ok(())
}

fn push_path_part(text: &mut String, path: &PathPart) -> Result<(), Memory>
    ensures { OnOk result
        (string_bytes text.new ≡ string_bytes text.old ++ spec.path_spelling path.now) }
{
    match path {
        PathPart::Absent => {}
        PathPart::Exact(path) => text.push_str(path.as_str())?,
        PathPart::Prefix(front) => text.push_str(front.as_front())?,
    }
    Ok(())
}

fn push_quoted(text: &mut String, word: &str, value: &Text) -> Result<(), Memory>
    ensures { OnOk result
        (string_bytes text.new ≡ string_bytes text.old ++ (word.now ++ (value.now ++ codes "'"))) }
{
    text.push_str(word)?;
    text.push_str(value.as_str())?;
    text.push('\'')?;
    Ok(())
}

fn push_source(text: &mut String, source: &Source) -> Result<(), Memory>
    ensures { OnOk result
        (string_bytes text.new ≡ string_bytes text.old ++ spec.spelling source.now) }
{
    match source {
        Source::Star => text.push('*')?,
        Source::SchemeOnly { scheme } => {
            text.push_str(scheme.as_str())?;
            text.push(':')?;
        }
        Source::Hosted {
            scheme,
            host,
            port,
            path,
        } => {
            push_scheme(text, scheme)?;
            push_host(text, host)?;
            push_port(text, *port)?;
            push_path_part(text, path)?;
        }
        Source::Word { word } => text.push_str(word.as_str())?,
        Source::Nonce { value } => push_quoted(text, "'nonce-", value)?,
        Source::Digest { hash } => push_quoted(text, hash_word(hash.algorithm), &hash.value)?,
        Source::Other { token } => text.push_str(token.as_str())?,
    }
    Ok(())
}

/// The one text of a source that some token reads as; it reads back to that source. Words that ignore case
/// are in lower case, a port has no leading zeros, and one that is too large is `65536`. In a path every byte
/// of a piece but letters, digits, `-`, `.`, `_` and `~` is written as `%` and two upper-case hexadecimal
/// digits.
pub fn source_text(alloc: Global, source: &Source) -> Result<Text, Memory>
    requires { spec.IsRead source.now }
    ensures text { IfOk result (λ text. text ≡ spec.spelling source.now) }
    ensures reads_back { IfOk result (λ text. source_of text ≡ source.now) }
{
    let mut text = String::new(alloc);
    push_source(&mut text, source)?;
    Ok(Text::from_string(text))
}
