//! What a report shows of source texts.
ghost use Rattle.std.specs.Prelude.{◌≡◌, IfOk, string_bytes};
ghost use Rattle.std.specs.Str.{IsUtf8};
ghost use Rattle.csp_request.specs.Described as spec;
ghost use Rattle.csp_request.specs.Urls.{told};

use crate::texts::{ReportTexts, no_text};
use csp_model::{Memory, Text};
use std::alloc::{AllocError, Global};

// The characters that a report shows of a source.
const SAMPLE_LENGTH: usize = 40;

fn first_characters(alloc: Global, source: &str) -> Result<String, AllocError>
    ensures { IfOk result (λ made. string_bytes made ≡ spec.sample_of source.now) }
{
    source.chars().take(SAMPLE_LENGTH).collect(alloc)
}

// The first 40 characters of a source.
pub(crate) fn sample_of(alloc: Global, texts: ReportTexts, source: &str) -> Result<Text, Memory>
    ensures { IfOk result (λ sample. sample ≡ told texts (spec.sample_of source.now)) }
{
    match texts {
        ReportTexts::Made => Ok(Text::from_string(first_characters(alloc, source)?)),
        ReportTexts::Empty => Ok(no_text(alloc)),
    }
}

// A text is in UTF-8.
pub(crate) fn text_is_utf8(text: &Text)
    ensures { IsUtf8 text.now }
{
    text.as_str();
}
