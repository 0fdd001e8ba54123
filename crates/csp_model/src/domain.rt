//! Domains (URL Standard, sections 3.2 to 3.5).
ghost use Rattle.std.specs.Prelude.{◌≡◌, [], None, unwrap_or};
ghost use Rattle.std.specs.List.{last_or, list_all};
ghost use Rattle.std.specs.Char.{is_ascii_hexdigit};
ghost use Rattle.csp_model.specs.Ascii.{code, without_final, split_at};
ghost use Rattle.csp_model.specs.Validity as spec;

use crate::grammar::are_digits;

#[tactic(auto, unfolding(crate::specs::Validity::is_domain_byte))]
fn is_domain_byte(b: u8) -> bool
    ensures { result ≡ spec.is_domain_byte b }
{
    matches!(b, 33..=126)
        && !b.is_ascii_uppercase()
        && !matches!(
            b,
            b'#' | b'/'
                | b':'
                | b'<'
                | b'>'
                | b'?'
                | b'@'
                | b'['
                | b'\\'
                | b']'
                | b'^'
                | b'|'
                | b'%'
        )
}

fn are_domain_bytes(text: &[u8]) -> bool
    ensures { result ≡ list_all spec.is_domain_byte text.now }
{
    text.iter().all(|b| is_domain_byte(*b))
}

fn are_hex_digits(text: &[u8]) -> bool
    ensures { result ≡ list_all is_ascii_hexdigit text.now }
{
    text.iter().all(|b| b.is_ascii_hexdigit())
}

fn is_hex_number(label: &[u8]) -> bool
    ensures { result ≡ spec.is_hex_number label.now }
{
    match label {
        [b'0', b'x', rest @ ..] => are_hex_digits(rest),
        _ => false,
    }
}

fn without_dot(text: &[u8]) -> &[u8]
    ensures { result.now ≡ without_final (code ".") text.now }
{
    match text {
        [front @ .., b'.'] => front,
        _ => text,
    }
}

fn last_label(text: &[u8]) -> &[u8]
    ensures { result.now ≡ unwrap_or (last_or None (split_at (code ".") text.now)) [] }
{
    match text.split(|b| *b == b'.').last() {
        Some(label) => label,
        None => &[],
    }
}

#[tactic(auto, unfolding(crate::specs::Validity::ends_in_number))]
fn ends_in_number(text: &[u8]) -> bool
    ensures { result ≡ spec.ends_in_number text.now }
{
    let label = last_label(without_dot(text));
    are_digits(label) || is_hex_number(label)
}

/// Whether a text is a domain as a URL can have it, in lower case.
#[tactic(auto, unfolding(crate::specs::Validity::is_domain))]
pub fn is_domain(text: &str) -> bool
    ensures { result ≡ spec.is_domain text.now }
{
    let bytes = text.as_bytes();
    !bytes.is_empty() && are_domain_bytes(bytes) && !ends_in_number(bytes)
}
