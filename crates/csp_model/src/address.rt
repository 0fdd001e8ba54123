//! Addresses as the standard prints them (URL Standard, section 3.5), those of version 6 loosely.
ghost use Rattle.std.specs.Prelude.{◌≡◌, length};
ghost use Rattle.std.specs.List.{list_all};
ghost use Rattle.csp_model.specs.Ascii.{code, split_at};
ghost use Rattle.csp_model.specs.Validity as spec;

use crate::grammar::{are_digits, decimal_value};

fn is_octet(part: &[u8]) -> bool
    ensures { result ≡ spec.is_octet part.now }
{
    are_digits(part) && decimal_value(part) < 256 && (part.len() < 2 || part[0] != b'0')
}

fn are_octets(text: &[u8]) -> bool
    ensures { result ≡ list_all spec.is_octet (split_at (code ".") text.now) }
{
    text.split(|b| *b == b'.').all(|part| is_octet(part))
}

fn part_count(text: &[u8]) -> usize
    ensures { result ≡ length (split_at (code ".") text.now) }
{
    text.split(|b| *b == b'.').count()
}

/// Whether a text is four decimal numbers from 0 to 255 without leading zeros, joined by dots.
#[tactic(auto, unfolding(crate::specs::Validity::is_four_numbers))]
pub fn is_four_numbers(text: &str) -> bool
    ensures { result ≡ spec.is_four_numbers text.now }
{
    let bytes = text.as_bytes();
    part_count(bytes) == 4 && are_octets(bytes)
}

fn is_group_char(b: u8) -> bool
    ensures { result ≡ spec.is_group_char b }
{
    (b.is_ascii_hexdigit() && !b.is_ascii_uppercase()) || b == b':'
}

fn are_group_chars(text: &[u8]) -> bool
    ensures { result ≡ list_all spec.is_group_char text.now }
{
    text.iter().all(|b| is_group_char(*b))
}

#[tactic(auto, unfolding(crate::specs::Validity::is_bracketed))]
fn is_bracketed(text: &[u8]) -> bool
    ensures { result ≡ spec.is_bracketed text.now }
{
    match text {
        [b'[', groups @ .., b']'] => !groups.is_empty() && are_group_chars(groups),
        _ => false,
    }
}

/// Whether a text is an address as a URL can have it: four numbers, or hexadecimal digits and colons in
/// brackets.
#[tactic(auto, unfolding(crate::specs::Validity::is_address))]
pub fn is_address(text: &str) -> bool
    ensures { result ≡ spec.is_address text.now }
{
    is_four_numbers(text) || is_bracketed(text.as_bytes())
}
