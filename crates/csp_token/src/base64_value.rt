//! Base64-values (Content Security Policy Level 3, section 2.3.1), whose symbols are of either alphabet of
//! RFC 4648.
ghost use Rattle.std.specs.Prelude.{◌≡◌, ◌≤◌, ℕ, List, length, IsNone, IfSome};
ghost use Rattle.std.specs.Str.{bytes_eq};
ghost use Rattle.base64.specs.Engines.{standard};
ghost use Rattle.base64.specs.GeneralPurpose.{encode_of};
ghost use Rattle.csp_model.specs.Tokens as spec;
ghost use Rattle.csp_model.specs.Validity.{IsOfSize};

use crate::size::slice_is_bytes;
use base64::engine::general_purpose::STANDARD;

// The most symbols that the base64 of 64 bytes has.
const MOST_SYMBOLS: usize = 88;

// A symbol in the standard alphabet.
fn plain(symbol: u8) -> u8
    ensures { result ≡ spec.plain_symbol symbol }
{
    match symbol {
        b'-' => b'+',
        b'_' => b'/',
        _ => symbol,
    }
}

// Writes a value in the standard alphabet.
fn write_plain(value: &[u8], out: &mut [u8])
    requires { length out.old ≡ length value.now }
    ensures { out.new ≡ spec.plain_value value.now }
{
    for i in 0..value.len() {
        out[i] = plain(value[i]);
    }
}

// The `N` bytes that a value stands for.
pub(crate) fn decode<const N: usize>(value: &str) -> Option<[u8; N]>
    requires { N ≤ 64 }
    ensures some { IfSome result (spec.StandsFor value.now) }
    ensures size { IfSome result (IsOfSize N) }
    ensures none { IsNone result → (bytes : List ℕ) → IsOfSize N bytes → ¬ spec.StandsFor value.now bytes }
{
    if value.len() > MOST_SYMBOLS {
        return None;
    }
    let mut symbols = [0; MOST_SYMBOLS];
    let mut room = [0; 66];
    let text = &mut symbols[..value.len()];
    write_plain(value.as_bytes(), text);
    let count = match STANDARD.decode_slice_unchecked(text, &mut room) {
        Ok(count) => count,
        Err(_) => return None,
    };
    if count != N {
        return None;
    }
    let mut bytes = [0; N];
    bytes.copy_from_slice(&room[..N]);
    slice_is_bytes(&bytes);
    Some(bytes)
}

// Whether a value stands for these bytes.
pub(crate) fn stands_for(value: &str, bytes: &[u8]) -> bool
    requires { length bytes.now ≤ 64 }
    ensures { result ≡ bytes_eq (spec.plain_value value.now) (encode_of standard bytes.now) }
{
    if value.len() > MOST_SYMBOLS {
        return false;
    }
    let mut symbols = [0; MOST_SYMBOLS];
    let mut room = [0; MOST_SYMBOLS];
    let text = &mut symbols[..value.len()];
    write_plain(value.as_bytes(), text);
    let Ok(count) = STANDARD.encode_slice(bytes, &mut room) else {
        return false;
    };
    let encoded = &room[..count];
    *text == *encoded
}
