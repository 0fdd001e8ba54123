//! Base64-values (Content Security Policy Level 3, section 2.3.1).
ghost use Rattle.std.specs.Prelude.{◌≡◌};
ghost use Rattle.std.specs.List.{list_all};
ghost use Rattle.csp_model.specs.Ascii.{code, without_final};
ghost use Rattle.csp_model.specs.Grammar as spec;

#[tactic(auto, unfolding(crate::specs::Grammar::is_base64_char))]
fn is_base64_char(b: u8) -> bool
    ensures { result ≡ spec.is_base64_char b }
{
    b.is_ascii_alphanumeric() || b"+/-_".contains(&b)
}

fn all_base64_chars(text: &[u8]) -> bool
    ensures { result ≡ list_all spec.is_base64_char text.now }
{
    text.iter().all(|b| is_base64_char(*b))
}

// The text without one `=` at its end.
#[tactic(auto, using(crate::proofs::FinalBytes::byte_turned))]
fn without_padding(text: &[u8]) -> &[u8]
    ensures { result.now ≡ without_final (code "=") text.now }
{
    text.strip_suffix(b"=").unwrap_or(text)
}

/// Whether a text is a base64-value: letters, digits, `+`, `/`, `-` and `_`, one at least, and behind them at
/// most two `=`.
#[tactic(auto, unfolding(crate::specs::Grammar::is_base64_value))]
pub fn is_base64_value(text: &[u8]) -> bool
    ensures { result ≡ spec.is_base64_value text.now }
{
    let digits = without_padding(without_padding(text));
    !digits.is_empty() && all_base64_chars(digits)
}
