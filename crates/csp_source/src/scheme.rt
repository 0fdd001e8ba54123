//! Schemes, and sources that are a scheme alone (Content Security Policy Level 3, section 2.3.1).
ghost use Rattle.std.specs.Prelude.{◌≡◌, false, drop, take_while, MatchOption, IfOk, IfSome, IsTrue};
ghost use Rattle.csp_model.specs.Ascii.{is_ascii_text, skip_while};
ghost use Rattle.csp_model.specs.Grammar.{is_scheme_char};
ghost use Rattle.csp_model.specs.Reading as spec;
ghost use Rattle.csp_source.specs.Schemes.{has_scheme};

use csp_model::{Memory, Source, Text, is_scheme};
use memchr::memchr;
use std::alloc::Global;

// The letters of a scheme and the text behind `://`, where the token begins with both.
#[tactic(auto, using(csp_model::proofs::AsciiParts::take_ascii, csp_model::proofs::AsciiParts::drop_ascii))]
pub(crate) fn split_scheme(token: &[u8]) -> Option<(&[u8], &[u8])>
    ensures parts { MatchOption result (has_scheme token.now ≡ false)
        (λ found. IsTrue (has_scheme token.now) × (found.0.now ≡ take_while is_scheme_char token.now)
        × (found.1.now ≡ drop 3 (skip_while is_scheme_char token.now))) }
    ensures ascii { IsTrue (is_ascii_text token.now) → IfSome result
        (λ found. IsTrue (is_ascii_text found.0.now) × IsTrue (is_ascii_text found.1.now)) }
{
    let Some(at) = memchr(b':', token) else {
        return None;
    };
    let (letters, after) = token.split_at(at);
    if after.starts_with(b"://") && is_scheme(letters) {
        Some((letters, after.split_at(3).1))
    } else {
        None
    }
}

// The source that is a scheme and a colon.
#[tactic(auto, using(csp_model::proofs::FinalBytes::byte_turned, csp_model::proofs::AsciiParts::take_ascii), unfolding(csp_model::specs::Reading::scheme_source))]
pub(crate) fn scheme_source(alloc: Global, token: &[u8]) -> Result<Option<Source>, Memory>
    requires { IsTrue (is_ascii_text token.now) }
    ensures { IfOk result (λ found. found ≡ spec.scheme_source token.now) }
{
    match token.strip_suffix(b":") {
        Some(letters) if is_scheme(letters) => Ok(Some(Source::SchemeOnly {
            scheme: Text::from_ascii_lowercase(alloc, letters)?,
        })),
        _ => Ok(None),
    }
}
