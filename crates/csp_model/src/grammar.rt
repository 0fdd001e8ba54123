//! Readers of the grammar's small parts.
ghost use Rattle.std.specs.Prelude.{◌≡◌, min, IsTrue};
ghost use Rattle.std.specs.List.{list_all};
ghost use Rattle.std.specs.Char.{is_ascii_digit};
ghost use Rattle.csp_model.specs.Grammar as spec;

/// Whether the byte may stand in a scheme behind its first letter: a letter, a digit, `+`, `-` or `.` (RFC
/// 3986, section 3.1).
#[tactic(auto, unfolding(crate::specs::Grammar::is_scheme_char))]
pub fn is_scheme_char(b: u8) -> bool
    ensures { result ≡ spec.is_scheme_char b }
{
    b.is_ascii_alphanumeric() || b == b'+' || b == b'-' || b == b'.'
}

fn all_scheme_chars(text: &[u8]) -> bool
    ensures { result ≡ list_all spec.is_scheme_char text.now }
{
    text.iter().all(|b| is_scheme_char(*b))
}

/// Whether the text is a scheme without its colon: a letter, and then letters, digits, `+`, `-` and `.` (RFC
/// 3986, section 3.1). Its letters may be of either case.
pub fn is_scheme(text: &[u8]) -> bool
    ensures { result ≡ spec.is_scheme text.now }
{
    match text.split_first() {
        None => false,
        Some((first, rest)) => first.is_ascii_alphabetic() && all_scheme_chars(rest),
    }
}

fn all_digits(text: &[u8]) -> bool
    ensures { result ≡ list_all is_ascii_digit text.now }
{
    text.iter().all(|b| b.is_ascii_digit())
}

/// Whether the text is one decimal digit or more, as the number of a port is written (Content Security Policy
/// Level 3, section 2.3.1).
pub fn are_digits(text: &[u8]) -> bool
    ensures { result ≡ spec.are_digits text.now }
{
    !text.is_empty() && all_digits(text)
}

/// The number that decimal digits spell, or 65,536 where it is greater: more than any port (Content Security
/// Policy Level 3, section 2.3.1). The number of no digit is 0.
pub fn decimal_value(digits: &[u8]) -> u32
    requires { IsTrue (list_all is_ascii_digit digits.now) }
    ensures { result ≡ min (spec.decimal_value digits.now) 65536 }
{
    let mut n = 0;
    for digit in digits {
        n = (10 * n + u32::from(*digit - b'0')).min(65536);
    }
    n
}
