//! Texts that none of some values says. Of one candidate more than there are values, one is such a text.
ghost use Rattle.std.specs.Prelude.{◌≡◌, ◌≢◌, ◌↔◌, ◌<◌, ◌^◌, ℕ, List as Items, Option as Maybe, All, Any, IfOk, IsTrue, Some, length, option_copied};
ghost use Rattle.csp_facts.specs.declared.atom.Literal.{Literal as LiteralValue};
ghost use Rattle.csp_model.specs.declared.source.Hash.{Hash as HashValue};
ghost use Rattle.csp_pick.specs.Fresh as spec;
ghost use Rattle.csp_pick.specs.Said.{segment_at_end, text_of};

use csp_facts::{Atom, Literal};
use csp_model::{Hash, Memory, Path, Text};
use memchr::memrchr;
use std::alloc::Global;

// What may say a text.
pub(crate) trait Says {
    ghost said: { Self → Maybe (Items ℕ) };

    fn text(&self) -> Option<&[u8]>
        ensures { option_copied result ≡ said self.now };
}

// A literal says a host, a scheme, or what stands behind the last slash of a path.
impl Says for Literal {
    ghost said = { λ (literal : LiteralValue). text_of literal.atom };

    fn text(&self) -> Option<&[u8]> {
        match &self.atom {
            Atom::HostIs(host) => Some(host.as_str().as_bytes()),
            Atom::PathIs(path) => last_segment(path),
            Atom::SchemeIs(scheme) => Some(scheme.as_str().as_bytes()),
            _ => None,
        }
    }
}

impl Says for Hash {
    ghost said = { λ (hash : HashValue). Some hash.value };

    fn text(&self) -> Option<&[u8]> {
        Some(self.value.as_str().as_bytes())
    }
}

// What stands behind the last slash of the path as it is written.
fn last_segment(path: &Path) -> Option<&[u8]>
    ensures { option_copied result ≡ segment_at_end path.now }
{
    let text = path.as_str().as_bytes();
    match memrchr(b'/', text) {
        Some(slash) => Some(&text[slash + 1..]),
        None => None,
    }
}

// The first candidate that none of the values says. The first of all is the front and the back. The others
// have a number between these: 2, 3 and so on.
pub(crate) fn fresh_text<S: Says>(
    alloc: Global,
    front: &str,
    back: &str,
    values: &[S],
) -> Result<Text, Memory>
    requires { length values.now < 2 ^ 63 }
    ensures numbered { IfOk result (spec.IsNumbered front.now back.now) }
    ensures fresh { IfOk result (λ text. All (λ value. S.said value ≢ Some text) values.now) }
{
    for number in 1..values.len() as u64 + 2 {
        let text = numbered_text(alloc, front, number, back)?;
        if !is_said(values, text.as_str().as_bytes()) {
            return Ok(text);
        }
    }
    unreachable!()
}

// Whether one of the values says the text.
pub(crate) fn is_said<S: Says>(values: &[S], text: &[u8]) -> bool
    ensures { IsTrue result ↔ Any (λ value. S.said value ≡ Some text.now) values.now }
{
    values.iter().any(|value| value.text() == Some(text))
}

// The candidate of this number.
fn numbered_text(alloc: Global, front: &str, number: u64, back: &str) -> Result<Text, Memory>
    ensures { IfOk result (λ text. text ≡ spec.numbered front.now number back.now) }
{
    let text = match number {
        1 => format!(in alloc; "{front}{back}")?,
        _ => format!(in alloc; "{front}{number}{back}")?,
    };
    Ok(Text::from_string(text))
}
