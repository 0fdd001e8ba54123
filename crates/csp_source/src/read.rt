//! Reads a source expression (Content Security Policy Level 3, section 2.3.1).
ghost use Rattle.std.specs.Prelude.{◌≡◌, IfOk, IsTrue};
ghost use Rattle.csp_model.specs.Ascii.{is_ascii_text};
ghost use Rattle.csp_model.specs.Reading as spec;

use crate::hosted::host_source;
use crate::quoted::{hash_source, keyword_source, nonce_source};
use crate::scheme::scheme_source;
use csp_model::{Algorithm, Memory, Source, Text};
use std::alloc::Global;

// The source that a token of some kind is.
#[tactic(auto, unfolding(csp_model::specs::Reading::kind_of))]
fn kind_of(alloc: Global, token: &[u8]) -> Result<Option<Source>, Memory>
    requires { IsTrue (is_ascii_text token.now) }
    ensures { IfOk result (λ found. found ≡ spec.kind_of token.now) }
{
    if let Some(source) = scheme_source(alloc, token)? {
        return Ok(Some(source));
    }
    if let Some(source) = host_source(alloc, token)? {
        return Ok(Some(source));
    }
    if let Some(source) = keyword_source(token) {
        return Ok(Some(source));
    }
    if let Some(source) = nonce_source(alloc, token)? {
        return Ok(Some(source));
    }
    if let Some(source) = hash_source(alloc, Algorithm::Sha256, token)? {
        return Ok(Some(source));
    }
    if let Some(source) = hash_source(alloc, Algorithm::Sha384, token)? {
        return Ok(Some(source));
    }
    hash_source(alloc, Algorithm::Sha512, token)
}

/// What a token of a directive's value stands for (Content Security Policy Level 3, section 2.3.1). A token
/// of no kind is a source too, one that matches nothing. What it is made of is compared as the standard says:
/// schemes, hosts and keywords ignoring the case of letters, nonces and digests as they are written.
#[tactic(auto, unfolding(csp_model::specs::Reading::source_of))]
pub fn read_source(alloc: Global, token: &[u8]) -> Result<Source, Memory>
    requires { IsTrue (is_ascii_text token.now) }
    ensures { IfOk result (λ source. source ≡ spec.source_of token.now) }
{
    if token == b"*".as_slice() {
        return Ok(Source::Star);
    }
    match kind_of(alloc, token)? {
        Some(source) => Ok(source),
        None => Ok(Source::Other {
            token: Text::from_ascii(alloc, token)?,
        }),
    }
}
