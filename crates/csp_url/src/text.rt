//! Writes URLs.
ghost use Rattle.std.specs.Prelude.{◌≡◌, ◌++◌, IfOk, OnOk, string_bytes};
ghost use Rattle.csp_url.specs.Texts as spec;

use csp_model::{Memory, Scheme, Text, Url};
use itoa::Buffer;
use std::alloc::Global;

// Writes `:` and the port, where there is one.
fn push_port(text: &mut String, port: Option<u16>) -> Result<(), Memory>
    ensures { OnOk result (string_bytes text.new ≡ string_bytes text.old ++ spec.port_text port) }
{
    if let Some(number) = port {
        text.push(':')?;
        text.push_str(Buffer::new().format(number))?;
    }
    Ok(())
}

// Writes a URL behind a text.
fn push_url(text: &mut String, url: &Url) -> Result<(), Memory>
    ensures { OnOk result (string_bytes text.new ≡ string_bytes text.old ++ spec.url_text url.now) }
{
    match url {
        Url::Plain { scheme } => {
            text.push_str(scheme.as_str())?;
            text.push(':')?;
        }
        Url::Hosted {
            scheme,
            host,
            port,
            path,
        } => {
            text.push_str(scheme.as_str())?;
            text.push_str("://")?;
            text.push_str(host.as_str())?;
            push_port(text, *port)?;
            text.push_str(path.as_str())?;
        }
    }
    Ok(())
}

/// The text of a URL: `scheme:`, or `scheme://host`, `:port` where it isn't None, and `/` and the piece for
/// each piece of the path. In a piece every byte but letters, digits, `-`, `.`, `_` and `~` is written as `%`
/// and two upper-case hexadecimal digits.
pub fn url_text(alloc: Global, url: &Url) -> Result<Text, Memory>
    ensures { IfOk result (λ text. text ≡ spec.url_text url.now) }
{
    let mut text = String::new(alloc);
    push_url(&mut text, url)?;
    Ok(Text::from_string(text))
}
