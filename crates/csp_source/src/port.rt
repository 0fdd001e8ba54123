//! The port of a host-source (Content Security Policy Level 3, section 2.3.1).
ghost use Rattle.std.specs.Prelude.{◌≡◌, IsTrue};
ghost use Rattle.csp_model.specs.Grammar as spec;

use csp_model::{PortPart, are_digits, decimal_value};

// The port of this number.
fn port_numbered(digits: &[u8]) -> PortPart
    requires { IsTrue (spec.are_digits digits.now) }
    ensures { result ≡ spec.port_numbered (spec.decimal_value digits.now) }
{
    let n = decimal_value(digits);
    if n < 65536 {
        PortPart::Number(n as u16)
    } else {
        PortPart::TooLarge
    }
}

// The port that the text is: none, or a colon and a number or `*`.
#[tactic(auto, unfolding(csp_model::specs::Grammar::port_part_of))]
pub(crate) fn port_part_of(text: &[u8]) -> Option<PortPart>
    ensures { result ≡ spec.port_part_of text.now }
{
    match text.split_first() {
        None => Some(PortPart::Absent),
        Some((b':', digits)) => {
            if digits == b"*".as_slice() {
                Some(PortPart::Any)
            } else if are_digits(digits) {
                Some(port_numbered(digits))
            } else {
                None
            }
        }
        Some(_) => None,
    }
}
