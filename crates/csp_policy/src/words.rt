//! The words of a text.
ghost use Rattle.std.specs.Prelude.{◌≡◌, ◌<◌, ◌∷◌, [], length, position, true, IfSome, MatchOption};
ghost use Rattle.std.specs.Char.{is_ascii_whitespace};
ghost use Rattle.csp_model.specs.Ascii.{words, is_ascii_text};

// Whether each byte is below 128. There is no branch at each, so that many can be looked at together.
pub(crate) fn is_ascii(text: &[u8]) -> bool
    ensures { result ≡ is_ascii_text text.now }
{
    text.iter().fold(true, |all, byte| all & (*byte < 128))
}

fn space_at(text: &[u8]) -> Option<usize>
    ensures value { result ≡ position is_ascii_whitespace text.now }
    ensures bound { IfSome result (λ at. at < length text.now) }
{
    text.iter().position(|b| b.is_ascii_whitespace())
}

// The first word, and the text behind it.
pub(crate) fn next_word(text: &[u8]) -> Option<(&[u8], &[u8])>
    ensures word { MatchOption result (words text.now ≡ [])
        (λ found. words text.now ≡ found.0.now ∷ words found.1.now) }
    ensures ascii_word { is_ascii_text text.now ≡ true
        → IfSome result (λ found. is_ascii_text found.0.now ≡ true) }
    ensures ascii_rest { is_ascii_text text.now ≡ true
        → IfSome result (λ found. is_ascii_text found.1.now ≡ true) }
{
    let text = text.trim_ascii_start();
    match space_at(text) {
        Some(at) => Some(text.split_at(at)),
        None if text.is_empty() => None,
        None => Some((text, &[])),
    }
}
