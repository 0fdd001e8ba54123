//! Texts that only reports show.
ghost use Rattle.std.specs.Prelude.{◌≡◌, [], IfOk};
ghost use Rattle.csp_request.specs.Urls as spec;

use csp_model::{Memory, Text};
use std::alloc::Global;

/// Whether a description gives the texts that only a report shows: its `blocked_uri` and its `sample`.
#[derive(Clone, Copy, Debug, PartialEq, Eq)]
pub enum ReportTexts {
    /// They are made.
    Made,
    /// Both stay empty, which saves the work of making them.
    Empty,
}

// The empty text. It takes no memory.
pub(crate) fn no_text(alloc: Global) -> Text
    ensures { result ≡ [] }
{
    Text::from_string(String::new(alloc))
}

// A text that only a report shows.
pub(crate) fn report_text(alloc: Global, texts: ReportTexts, shown: &str) -> Result<Text, Memory>
    ensures { IfOk result (λ text. text ≡ spec.told texts shown.now) }
{
    match texts {
        ReportTexts::Made => Ok(Text::new(alloc, shown)?),
        ReportTexts::Empty => Ok(no_text(alloc)),
    }
}
