//! The grammar of source expressions and the reading agree.
ghost use Rattle.std.specs.Prelude.{◌≡◌, ℕ, List};
ghost use Rattle.csp_model.specs.Grammar.{IsSource};
ghost use Rattle.csp_model.specs.Reading.{source_of};
ghost use Rattle.csp_source.specs.Types.{Source};

/// A law, which does nothing: a token is built as a source of one kind, with one value, or else is of no
/// kind; and that is what it reads as (Content Security Policy Level 3, section 2.3.1).
pub fn each_token_has_one_source()
    ensures built { (token : List ℕ) (s : Source) → IsSource token s → source_of token ≡ s }
    ensures read { (token : List ℕ) → IsSource token (source_of token) }
{}
