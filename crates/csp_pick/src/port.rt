//! Ports.
ghost use Rattle.std.specs.Prelude.{◌≡◌, ◌≢◌, ◌≤◌, All, Any, IfSome, MatchOption, None, Some, filter_map, length, unwrap_or};
ghost use Rattle.csp_facts.specs.declared.atom.Literal.{Literal as LiteralValue};
ghost use Rattle.csp_model.specs.Validity.{IsValidPort};
ghost use Rattle.csp_model.specs.declared.check.CheckPart.TheVariants as part;
ghost use Rattle.csp_pick.specs.Parts.{MeetPart, port_holds};
ghost use Rattle.csp_pick.specs.Picks.{LeavesPorts, port_limit};
ghost use Rattle.csp_pick.specs.Said.{number_of, port_of};

use crate::number::free_number;
use csp_cell::Cell;
use csp_facts::{Atom, Literal};
use csp_model::{CheckPart, Scheme};

// The first number that is looked at where the default is denied.
const FIRST: u16 = 8080;

// A valid port of which each literal on ports is true; none is the scheme's default.
pub(crate) fn pick_port(cell: &Cell, scheme: Scheme) -> Option<u16>
    requires { LeavesPorts cell.now.literals }
    ensures valid { IsValidPort scheme result }
    ensures meets { MeetPart part.Port (port_holds scheme result) cell.now.literals }
{
    let default = scheme.default_port();
    match wanted_port(cell.placing()) {
        Some(number) => other_than(number, default),
        None => other_than(allowed_port(cell.others(), default), default),
    }
}

// The number, where it isn't the default.
fn other_than(number: u16, default: u16) -> Option<u16>
    ensures same { unwrap_or result default ≡ number }
    ensures other { IfSome result (λ n. n ≢ default) }
{
    (number != default).then_some(number)
}

// The number that a literal names.
fn wanted_port(literals: &[Literal]) -> Option<u16>
    ensures { MatchOption result
        (All (λ l. port_of l.atom ≡ None) literals.now)
        (λ n. Any (λ l. port_of l.atom ≡ Some n) literals.now) }
{
    literals.iter().find_map(named_port)
}

fn named_port(literal: &Literal) -> Option<u16>
    ensures { result ≡ port_of literal.now.atom }
{
    match literal.atom {
        Atom::PortIs(number) => Some(number),
        _ => None,
    }
}

// A number that no literal names: the default, where it is one.
fn allowed_port(literals: &[Literal], default: u16) -> u16
    requires { length (filter_map (λ (l : LiteralValue). number_of part.Port l.atom) literals.now)
        ≤ port_limit }
    ensures { All (λ l. port_of l.atom ≢ Some result) literals.now }
{
    if literals.iter().any(|l| named_port(l) == Some(default)) {
        free_number(FIRST, literals, CheckPart::Port) as u16
    } else {
        default
    }
}
