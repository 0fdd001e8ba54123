//! Keywords, nonces and hashes, which stand between apostrophes (Content Security Policy Level 3,
//! section 2.3.1).
ghost use Rattle.std.specs.Prelude.{◌≡◌, ◌++◌, ◌∷◌, ◌&&◌, if◌then◌else◌, IfOk, IfSome, IsTrue, Some, None, option_copied, codes};
ghost use Rattle.std.specs.List.{find};
ghost use Rattle.std.specs.Str.{bytes_eq};
ghost use Rattle.csp_model.specs.Ascii.{code, is_ascii_text, lower, ends_in, without_last};
ghost use Rattle.csp_model.specs.Grammar as grammar;
ghost use Rattle.csp_model.specs.Reading as spec;

use csp_model::{Algorithm, Hash, Keyword, Memory, Source, Text, is_base64_value};
use std::alloc::Global;

// The token is the keyword, in letters of either case.
fn spells(token: &[u8], word: Keyword) -> bool
    ensures { result ≡ bytes_eq (lower token.now) (grammar.keyword_text word) }
{
    token.eq_ignore_ascii_case(word.as_str().as_bytes())
}

fn keyword_of(token: &[u8]) -> Option<Keyword>
    ensures { result ≡ find (λ word. bytes_eq (lower token.now) (grammar.keyword_text word)) spec.keywords }
{
    Keyword::ALL
        .iter()
        .copied()
        .find(|word| spells(token, *word))
}

// The source that is a keyword.
#[tactic(auto, unfolding(csp_model::specs::Reading::keyword_source))]
pub(crate) fn keyword_source(token: &[u8]) -> Option<Source>
    ensures { result ≡ spec.keyword_source token.now }
{
    match keyword_of(token) {
        None => None,
        Some(word) => Some(Source::Word { word }),
    }
}

// The letters are the word in letters of either case, where the word is in lower case.
fn spells_word(letters: &[u8], word: &[u8]) -> bool
    requires { lower word.now ≡ word.now }
    ensures { result ≡ bytes_eq (lower letters.now) word.now }
{
    letters.eq_ignore_ascii_case(word)
}

// The base64-value before an apostrophe at the end.
#[tactic(auto, using(csp_model::proofs::FinalBytes::byte_turned, csp_model::proofs::AsciiParts::take_ascii))]
fn value_before_apostrophe(rest: &[u8]) -> Option<&[u8]>
    ensures value { option_copied result
        ≡ (if ends_in (code "'") rest.now && grammar.is_base64_value (without_last rest.now)
        then Some (without_last rest.now) else None) }
    ensures ascii { IsTrue (is_ascii_text rest.now)
        → IfSome result (λ value. IsTrue (is_ascii_text value.now)) }
{
    match rest.strip_suffix(b"'") {
        Some(value) if is_base64_value(value) => Some(value),
        _ => None,
    }
}

// The base64-value between the word, which is in lower case, and an apostrophe.
#[tactic(auto, using(csp_model::proofs::AsciiParts::drop_ascii), unfolding(csp_model::specs::Reading::quoted_value))]
fn quoted_value<'a>(word: &[u8], token: &'a [u8]) -> Option<&'a [u8]>
    requires { lower word.now ≡ word.now }
    ensures value { option_copied result ≡ spec.quoted_value word.now token.now }
    ensures ascii { IsTrue (is_ascii_text token.now)
        → IfSome result (λ value. IsTrue (is_ascii_text value.now)) }
{
    if token.len() < word.len() {
        return None;
    }
    let (letters, rest) = token.split_at(word.len());
    if spells_word(letters, word) {
        value_before_apostrophe(rest)
    } else {
        None
    }
}

// The source that is a nonce.
#[tactic(auto, unfolding(csp_model::specs::Reading::nonce_source))]
pub(crate) fn nonce_source(alloc: Global, token: &[u8]) -> Result<Option<Source>, Memory>
    requires { IsTrue (is_ascii_text token.now) }
    ensures { IfOk result (λ found. found ≡ spec.nonce_source token.now) }
{
    match quoted_value(b"'nonce-", token) {
        None => Ok(None),
        Some(nonce) => Ok(Some(Source::Nonce {
            value: Text::from_ascii(alloc, nonce)?,
        })),
    }
}

// What a hash-source of the algorithm begins with.
pub(crate) fn hash_word(algorithm: Algorithm) -> &'static str
    ensures { result.now ≡ code "'" ∷ grammar.algorithm_text algorithm ++ codes "-" }
{
    match algorithm {
        Algorithm::Sha256 => "'sha256-",
        Algorithm::Sha384 => "'sha384-",
        Algorithm::Sha512 => "'sha512-",
    }
}

// The source that is a hash of the algorithm.
#[tactic(auto, unfolding(csp_model::specs::Reading::hash_source))]
pub(crate) fn hash_source(
    alloc: Global,
    algorithm: Algorithm,
    token: &[u8],
) -> Result<Option<Source>, Memory>
    requires { IsTrue (is_ascii_text token.now) }
    ensures { IfOk result (λ found. found ≡ spec.hash_source algorithm token.now) }
{
    match quoted_value(hash_word(algorithm).as_bytes(), token) {
        None => Ok(None),
        Some(digest) => Ok(Some(Source::Digest {
            hash: Hash {
                algorithm,
                value: Text::from_ascii(alloc, digest)?,
            },
        })),
    }
}
