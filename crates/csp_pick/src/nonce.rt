//! Nonces.
ghost use Rattle.std.specs.Prelude.{◌≡◌, All, Any, IfOk, MatchOption, None, Some};
ghost use Rattle.std.specs.Option.{option_copied};
ghost use Rattle.std.specs.Str.{IsUtf8};
ghost use Rattle.csp_model.specs.declared.check.CheckPart.TheVariants as part;
ghost use Rattle.csp_pick.specs.Parts.{MeetPart, nonce_holds};
ghost use Rattle.csp_pick.specs.Said.{nonce_of};

use csp_cell::Cell;
use csp_facts::{Atom, Literal};
use csp_model::{Memory, Text};
use std::alloc::Global;

// A nonce of which each literal on nonces is true: the empty one, where they allow it.
pub(crate) fn pick_nonce(alloc: Global, cell: &Cell) -> Result<Text, Memory>
    ensures valid { IfOk result (λ nonce. IsUtf8 nonce) }
    ensures meets { IfOk result (λ nonce. MeetPart part.Nonce (nonce_holds nonce) cell.now.literals) }
{
    match wanted_nonce(cell.placing()) {
        Some(value) => Text::new(alloc, value.as_str()),
        None => Text::new(alloc, ""),
    }
}

// The value that a literal names.
fn wanted_nonce(literals: &[Literal]) -> Option<&Text>
    ensures { MatchOption result
        (All (λ l. nonce_of l.atom ≡ None) literals.now)
        (λ value. Any (λ l. nonce_of l.atom ≡ Some value.now) literals.now) }
{
    literals.iter().find_map(named_nonce)
}

fn named_nonce(literal: &Literal) -> Option<&Text>
    ensures { option_copied result ≡ nonce_of literal.now.atom }
{
    match &literal.atom {
        Atom::NonceIs(value) => Some(value),
        _ => None,
    }
}
