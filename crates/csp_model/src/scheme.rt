//! Schemes (URL Standard, section 4.1; RFC 3986, section 3.1).
ghost use Rattle.std.specs.Prelude.{◌≡◌, not};
ghost use Rattle.std.specs.List.{list_all};
ghost use Rattle.std.specs.Char.{is_ascii_uppercase};
ghost use Rattle.csp_model.specs.Validity as spec;

use crate::grammar::is_scheme;

fn has_no_upper_case(text: &[u8]) -> bool
    ensures { result ≡ list_all (λ b. not (is_ascii_uppercase b)) text.now }
{
    text.iter().all(|b| !b.is_ascii_uppercase())
}

/// Whether a text is a scheme in lower case.
pub fn is_lower_scheme(text: &str) -> bool
    ensures { result ≡ spec.is_lower_scheme text.now }
{
    let bytes = text.as_bytes();
    is_scheme(bytes) && has_no_upper_case(bytes)
}
