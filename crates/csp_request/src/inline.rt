//! Sources of inline code and style in descriptions.
ghost use Rattle.std.specs.Prelude.{◌≡◌, not, length, IfOk, IfSome};
ghost use Rattle.std.specs.Char.{is_ascii_uppercase};
ghost use Rattle.std.specs.List.{list_all};
ghost use Rattle.csp_json.specs.View.{view};
ghost use Rattle.csp_model.specs.Answers.{Gives};
ghost use Rattle.csp_model.specs.Validity.{IsOfSize, IsValidDigests};
ghost use Rattle.csp_token.specs.Digests.{digests_for as wanted_digests};
ghost use Rattle.csp_request.specs.Members.{named, needed_part, optional};
ghost use Rattle.csp_request.specs.Described as spec;

use crate::error::DescriptionError;
use crate::field::Field;
use crate::member::{demand, is_absent, needed_text, present, require, text_part};
use crate::sample::sample_of;
use crate::texts::{ReportTexts, no_text};
use csp_json::Value;
use csp_model::{Digests, Text};
use csp_token::{Algorithms, digests_for};
use hex::FromHex;
use std::alloc::Global;

// What a description says of an inline source.
#[derive(Drop)]
pub(crate) struct InlineSource {
    pub(crate) digests: Digests,
    pub(crate) sample: Text,
}

fn has_no_upper_case(word: &str) -> bool
    ensures { result ≡ list_all (λ c. not (is_ascii_uppercase c)) word.now }
{
    word.as_bytes().iter().all(|b| !b.is_ascii_uppercase())
}

// Each byte of a slice is below 256.
fn slice_is_bytes(slice: &[u8])
    ensures { IsOfSize (length slice.now) slice.now }
{}

// The bytes of hexadecimal digits in lower case.
fn lower_hex<const N: usize>(word: &str) -> Option<[u8; N]>
    ensures bytes { result ≡ spec.lower_hex N word.now }
    ensures size { IfSome result (IsOfSize N) }
{
    if !has_no_upper_case(word) {
        return None;
    }
    match <[u8; N] as FromHex>::from_hex(word) {
        Ok(bytes) => {
            slice_is_bytes(&bytes);
            Some(bytes)
        }
        Err(_) => None,
    }
}

// A part that has to hold a digest.
fn digest_part<const N: usize>(
    name: &str,
    field: Field,
    value: &Value<'_>,
) -> Result<[u8; N], DescriptionError>
    ensures digest { result ≡ needed_part name.now (named (spec.lower_hex N)) field (view value.now) }
    ensures size { IfOk result (IsOfSize N) }
{
    let word = needed_text(name, field, value)?;
    require(field, lower_hex(word))
}

fn digests_from(field: Field, value: &Value<'_>) -> Result<Digests, DescriptionError>
    ensures digests { result ≡ spec.digests field (view value.now) }
    ensures valid { IfOk result IsValidDigests }
{
    Ok(Digests {
        sha256: digest_part("sha256", field, value)?,
        sha384: digest_part("sha384", field, value)?,
        sha512: digest_part("sha512", field, value)?,
    })
}

// The digests that are given.
fn optional_digests(value: &Value<'_>) -> Result<Option<Digests>, DescriptionError>
    ensures digests { result ≡ optional spec.digests Field.Digests (view value.now) }
    ensures valid { IfOk result (λ found. IfSome found IsValidDigests) }
{
    match present(value, "digests") {
        None => Ok(None),
        Some(found) => Ok(Some(digests_from(Field::Digests, found)?)),
    }
}

// A source text, of which the digests that are wanted are computed, or else its digests.
pub(crate) fn source_of(
    alloc: Global,
    texts: ReportTexts,
    value: &Value<'_>,
    wanted: Algorithms,
) -> Result<InlineSource, DescriptionError>
    ensures source { Gives DescriptionError.Memory result
        (spec.source_of texts (λ source. wanted_digests source wanted) (view value.now)) }
    ensures valid { IfOk result (λ found. IsValidDigests found.digests) }
{
    match text_part("source", Field::Source, value)? {
        Some(source) => {
            demand(Field::Digests, is_absent(value, Field::Digests))?;
            Ok(InlineSource {
                digests: digests_for(source.as_bytes(), wanted),
                sample: sample_of(alloc, texts, source)?,
            })
        }
        None => Ok(InlineSource {
            digests: require(Field::Source, optional_digests(value)?)?,
            sample: no_text(alloc),
        }),
    }
}
