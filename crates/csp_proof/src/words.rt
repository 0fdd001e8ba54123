//! Words and numbers of a line.
ghost use Rattle.std.specs.Prelude.{◌≡◌, ◌≤◌, ◌<◌, ◌^◌, IfSome, MatchOption, Some, None, decimal, nat_lt, ◌&&◌};
ghost use Rattle.std.specs.Str.{bytes_eq};
ghost use Rattle.csp_proof.specs.Reading as spec;

use itoa::Buffer;

// The word before the first space, and what stands behind that.
pub(crate) fn cut(text: &str) -> Option<(&str, &str)>
    ensures { MatchOption result (spec.cut text.now ≡ None)
        (λ parts. spec.cut text.now ≡ Some (parts.0.now, parts.1.now)) }
{
    text.split_once(' ')
}

fn is_spelled_below(number: u32, limit: u64, text: &str) -> bool
    ensures { result ≡ (nat_lt number limit && bytes_eq (decimal number) text.now) }
{
    u64::from(number) < limit && Buffer::new().format(number) == text
}

// The number below the limit that decimal digits without leading zeros spell.
pub(crate) fn number_below(limit: u64, text: &str) -> Option<u32>
    requires { limit ≤ 2 ^ 32 }
    ensures value { result ≡ spec.number_below limit text.now }
    ensures below { IfSome result (λ number. number < limit) }
{
    match text.parse::<u32>() {
        Ok(number) => {
            if is_spelled_below(number, limit, text) {
                Some(number)
            } else {
                None
            }
        }
        Err(_) => None,
    }
}
