//! Schemes of URLs without a host.
ghost use Rattle.std.specs.Prelude.{◌≡◌, ◌≢◌, All, Any, IfOk, IsTrue, IsNone, MatchOption, None, Some};
ghost use Rattle.std.specs.Option.{option_copied};
ghost use Rattle.csp_model.specs.Schemes.{scheme_named};
ghost use Rattle.csp_model.specs.Validity.{is_lower_scheme};
ghost use Rattle.csp_model.specs.declared.check.CheckPart.TheVariants as part;
ghost use Rattle.csp_pick.specs.Parts.{MeetPart, scheme_holds};
ghost use Rattle.csp_pick.specs.Said.{scheme_of, text_of};

use crate::fresh::{fresh_text, is_said};
use csp_cell::Cell;
use csp_facts::{Atom, Literal};
use csp_model::{Duplicate, Memory, Text};
use std::alloc::Global;

// A scheme of a URL without a host, of which each literal on such schemes is true.
pub(crate) fn pick_scheme(alloc: Global, cell: &Cell) -> Result<Text, Memory>
    ensures valid { IfOk result (λ scheme. IsTrue (is_lower_scheme scheme) × IsNone (scheme_named scheme)) }
    ensures meets { IfOk result
        (λ scheme. MeetPart part.PlainScheme (scheme_holds scheme) cell.now.literals) }
{
    match wanted_scheme(cell.placing()) {
        Some(scheme) => scheme.copy(alloc),
        None => free_scheme(alloc, cell.others()),
    }
}

// The scheme that a literal names.
fn wanted_scheme(literals: &[Literal]) -> Option<&Text>
    ensures { MatchOption result
        (All (λ l. scheme_of l.atom ≡ None) literals.now)
        (λ scheme. Any (λ l. scheme_of l.atom ≡ Some scheme.now) literals.now) }
{
    literals.iter().find_map(named_scheme)
}

fn named_scheme(literal: &Literal) -> Option<&Text>
    ensures { option_copied result ≡ scheme_of literal.now.atom }
{
    match &literal.atom {
        Atom::SchemeIs(scheme) => Some(scheme),
        _ => None,
    }
}

// A scheme that no literal names: `data` or `blob`, where it is one.
fn free_scheme(alloc: Global, literals: &[Literal]) -> Result<Text, Memory>
    ensures valid { IfOk result (λ scheme. IsTrue (is_lower_scheme scheme) × IsNone (scheme_named scheme)) }
    ensures free { IfOk result (λ scheme. All (λ l. text_of l.atom ≢ Some scheme) literals.now) }
{
    if is_said(literals, b"data") {
        fresh_text(alloc, "blob", "", literals)
    } else {
        fresh_text(alloc, "data", "", literals)
    }
}
