//! The path of a host-source (Content Security Policy Level 3, section 2.3.1; RFC 3986, section 3.3).
ghost use Rattle.std.specs.Prelude.{◌≡◌, Some, IfOk, IsTrue, is_some};
ghost use Rattle.std.specs.List.{list_all};
ghost use Rattle.csp_model.specs.Ascii.{code, split_at};
ghost use Rattle.csp_model.specs.Grammar as spec;

use csp_model::{Memory, Path, PathPart};
use std::alloc::Global;

#[tactic(auto, unfolding(csp_model::specs::Grammar::is_path_char))]
fn is_path_char(b: u8) -> bool
    ensures { result ≡ spec.is_path_char b }
{
    b.is_ascii_alphanumeric() || b"-._~!$&'()*+=:@".contains(&b)
}

fn begins_hex_pair(text: &[u8]) -> bool
    ensures { result ≡ spec.begins_hex_pair text.now }
{
    match text.split_first() {
        None => false,
        Some((first, rest)) => match rest.split_first() {
            None => false,
            Some((second, _)) => first.is_ascii_hexdigit() && second.is_ascii_hexdigit(),
        },
    }
}

fn is_segment(text: &[u8]) -> bool
    ensures { result ≡ spec.is_segment text.now }
{
    for (i, b) in text.iter().enumerate() {
        if *b == b'%' {
            if !begins_hex_pair(text.split_at(i + 1).1) {
                return false;
            }
        } else if !is_path_char(*b) {
            return false;
        }
    }
    true
}

fn all_segments(text: &[u8]) -> bool
    ensures { result ≡ list_all spec.is_segment (split_at (code "/") text.now) }
{
    text.split(|b| *b == b'/')
        .all(|segment| is_segment(segment))
}

// The text behind a path's first slash is segments, of which the first is empty only where it stands alone.
fn are_segments(text: &[u8]) -> bool
    ensures { result ≡ spec.are_segments (split_at (code "/") text.now) }
{
    match text.split_first() {
        None => true,
        Some((first, _)) => *first != b'/' && all_segments(text),
    }
}

// The text is no path at all, or a good one.
#[tactic(auto, unfolding(csp_model::specs::Grammar::path_part_of))]
pub(crate) fn is_path(text: &[u8]) -> bool
    ensures { result ≡ is_some (spec.path_part_of text.now) }
{
    match text.split_first() {
        None => true,
        Some((b'/', rest)) => are_segments(rest),
        Some(_) => false,
    }
}

// The path that the text is. The empty piece behind a last slash is left out.
#[tactic(auto, unfolding(csp_model::specs::Grammar::path_part_of))]
pub(crate) fn path_part_of(alloc: Global, text: &[u8]) -> Result<PathPart, Memory>
    requires { IsTrue (is_some (spec.path_part_of text.now)) }
    ensures { IfOk result (λ made. spec.path_part_of text.now ≡ Some made) }
{
    match text.split_first() {
        None => Ok(PathPart::Absent),
        Some((_, rest)) => match rest.split_last() {
            None => Ok(PathPart::Prefix(Path::new(alloc)?)),
            Some((b'/', front)) => Ok(PathPart::Prefix(Path::read(alloc, front)?)),
            Some(_) => Ok(PathPart::Exact(Path::read(alloc, rest)?)),
        },
    }
}
