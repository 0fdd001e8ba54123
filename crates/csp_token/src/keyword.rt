//! Keywords.
ghost use Rattle.std.specs.Prelude.{◌≡◌, ◌||◌, OnOk, false};
ghost use Rattle.csp_model.specs.DecideTokens as spec;
ghost use Rattle.csp_model.specs.DecideEquality.{same_keyword};
ghost use Rattle.csp_token.specs.Types.{Keyword as AnyKeyword};
ghost use Rattle.csp_token.specs.Keywords.{has};

use csp_model::{Keyword, List, Memory, Source};
use std::alloc::Global;

/// Whether a source is a keyword.
pub fn is_keyword(source: &Source, word: Keyword) -> bool
    ensures { result ≡ spec.is_keyword word source.now }
{
    match source {
        Source::Word { word: other } => *other == word,
        _ => false,
    }
}

// Some of the keywords, each once.
#[derive(Drop)]
pub(crate) struct Keywords {
    words: List<Keyword>,
}

impl Keywords {
    // None of them.
    pub(crate) fn new(alloc: Global) -> Keywords
        ensures { (asked : AnyKeyword) → has asked result ≡ false }
    {
        Keywords {
            words: List::new(alloc),
        }
    }

    // With one more.
    pub(crate) fn add(&mut self, word: Keyword) -> Result<(), Memory>
        ensures { OnOk result ((asked : AnyKeyword)
            → has asked self.new ≡ (has asked self.old || same_keyword word asked)) }
    {
        if self.has(word) {
            Ok(())
        } else {
            Ok(self.words.push(word)?)
        }
    }

    pub(crate) fn has(&self, word: Keyword) -> bool
        ensures { result ≡ has word self.now }
    {
        self.words.as_slice().iter().any(|other| *other == word)
    }
}
