//! Integrity metadata as a text (Subresource Integrity, section 3.3).
ghost use Rattle.std.specs.Prelude.{◌≡◌, ◌<◌, ◌++◌, false, IfOk, IfSome, OnOk, All, string_bytes};
ghost use Rattle.std.specs.Char.{is_ascii_whitespace};
ghost use Rattle.std.specs.List.{before_first, after_first};
ghost use Rattle.csp_model.specs.Ascii.{lower};
ghost use Rattle.csp_model.specs.Grammar.{algorithm_named};
ghost use Rattle.csp_model.specs.Validity.{IsIntegrityValue};
ghost use Rattle.csp_token.specs.Integrity as spec;

use csp_model::{Algorithm, Hash, List, Memory, Text};
use std::alloc::Global;

// The algorithm of that name, whose letters may be of either case.
fn algorithm_of(name: &str) -> Option<Algorithm>
    ensures { result ≡ algorithm_named (lower name.now) }
{
    if name.eq_ignore_ascii_case("sha256") {
        Some(Algorithm::Sha256)
    } else if name.eq_ignore_ascii_case("sha384") {
        Some(Algorithm::Sha384)
    } else if name.eq_ignore_ascii_case("sha512") {
        Some(Algorithm::Sha512)
    } else {
        None
    }
}

// A token without its options.
fn without_options(token: &str) -> &str
    ensures { result.now ≡ before_first spec.is_question_mark token.now }
{
    match token.split_once('?') {
        Some((front, _)) => front,
        None => token,
    }
}

// An algorithm's name and a value, which is empty where there is no `-` between them.
fn parts(text: &str) -> (&str, &str)
    ensures name { result.0.now ≡ before_first spec.is_hyphen text.now }
    ensures value { result.1.now ≡ after_first spec.is_hyphen text.now }
{
    match text.split_once('-') {
        Some(found) => found,
        None => (text, ""),
    }
}

// The pair that a token stands for, if its algorithm is known.
fn read_token(alloc: Global, token: &str) -> Result<Option<Hash>, Memory>
    requires { All (λ b. is_ascii_whitespace b ≡ false) token.now }
    ensures pair { IfOk result (λ made. made ≡ spec.hash_of_token token.now) }
    ensures valid { IfOk result (λ made. IfSome made (λ h. IsIntegrityValue h.value)) }
{
    let (name, value) = parts(without_options(token));
    match algorithm_of(name) {
        None => Ok(None),
        Some(algorithm) => Ok(Some(Hash {
            algorithm,
            value: Text::new(alloc, value)?,
        })),
    }
}

/// Reads integrity metadata (Subresource Integrity, section 3.3, "Parse metadata").
///
/// The tokens stand between ASCII whitespace. Of each the text from its first `?` on is dropped. The part
/// before the first `-` is the algorithm, in letters of either case, and the part after it is the value;
/// where there is no `-` the value is empty. A token of another algorithm than the three is dropped.
pub fn read_integrity(alloc: Global, text: &str) -> Result<List<Hash>, Memory>
    ensures pairs { IfOk result (λ made. made ≡ spec.integrity_of text.now) }
    ensures valid { IfOk result (λ made. All (λ h. IsIntegrityValue h.value) made) }
{
    let mut pairs = List::new(alloc);
    for token in text.split_ascii_whitespace() {
        if let Some(pair) = read_token(alloc, token)? {
            pairs.push(pair)?;
        }
    }
    Ok(pairs)
}

// Writes a pair behind a text.
fn push_pair(text: &mut String, pair: &Hash) -> Result<(), Memory>
    ensures { OnOk result (string_bytes text.new ≡ string_bytes text.old ++ spec.hash_text pair.now) }
{
    text.push_str(pair.algorithm.as_str())?;
    text.push_str("-")?;
    text.push_str(pair.value.as_str())?;
    Ok(())
}

/// Integrity metadata as a text: of each pair the algorithm in lower case, `-` and the value, with a space
/// between each two. `read_integrity` gives the pairs back, where no value has ASCII whitespace or `?`.
pub fn integrity_text(alloc: Global, integrity: &List<Hash>) -> Result<Text, Memory>
    ensures text { IfOk result (λ made. made ≡ spec.integrity_text integrity.now) }
    ensures reads_back { All (λ h. IsIntegrityValue h.value) integrity.now
        → IfOk result (λ made. spec.integrity_of made ≡ integrity.now) }
{
    let mut text = String::new(alloc);
    let Some((first, others)) = integrity.as_slice().split_first() else {
        return Ok(Text::from_string(text));
    };
    push_pair(&mut text, first)?;
    for pair in others {
        text.push_str(" ")?;
        push_pair(&mut text, pair)?;
    }
    Ok(Text::from_string(text))
}
