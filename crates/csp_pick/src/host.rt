//! Hosts.
ghost use Rattle.std.specs.Prelude.{◌≡◌, ◌≢◌, ◌↔◌, All, Any, IfOk, IsTrue, MatchOption, None, Some, false, option_copied, true};
ghost use Rattle.std.specs.List.{list_any};
ghost use Rattle.csp_facts.specs.Follows.{follows_true};
ghost use Rattle.csp_facts.specs.declared.atom.Atom.TheVariants.{HostUnder};
ghost use Rattle.csp_model.specs.DecideEnds.{is_host_under};
ghost use Rattle.csp_model.specs.DecideMatching.{is_domain_host};
ghost use Rattle.csp_model.specs.Validity.{IsValidHost, is_domain};
ghost use Rattle.csp_model.specs.declared.check.CheckPart.TheVariants as part;
ghost use Rattle.csp_pick.specs.Parts.{IsDenied, MeetPart, host_holds};
ghost use Rattle.csp_pick.specs.Said as spec;

use crate::fresh::fresh_text;
use csp_cell::Cell;
use csp_facts::{Atom, Literal, follows_as};
use csp_model::{Duplicate, Host, Memory, Text};
use std::alloc::Global;

// A valid host of which each literal on hosts is true: the one that a literal names, or else one below the
// suffix that a literal asks for. Where none does either, it is any domain, or an address where domains are
// denied.
pub(crate) fn pick_host(alloc: Global, cell: &Cell) -> Result<Host, Memory>
    ensures valid { IfOk result IsValidHost }
    ensures meets { IfOk result (λ host. MeetPart part.Host (host_holds host) cell.now.literals) }
{
    let denials = cell.others();
    if let Some(host) = wanted_host(cell.placing()) {
        return host.copy(alloc);
    }
    match wanted_suffix(cell.placing()) {
        Some(suffix) => other_below(alloc, suffix.as_str(), denials),
        None if has_domains(denials) => other_address(alloc, denials),
        None => other_domain(alloc, denials),
    }
}

// The host that a literal names.
fn wanted_host(literals: &[Literal]) -> Option<&Host>
    ensures { MatchOption result
        (All (λ l. spec.host_of l.atom ≡ None) literals.now)
        (λ host. Any (λ l. spec.host_of l.atom ≡ Some host.now) literals.now) }
{
    literals.iter().find_map(named_host)
}

fn named_host(literal: &Literal) -> Option<&Host>
    ensures { option_copied result ≡ spec.host_of literal.now.atom }
{
    match &literal.atom {
        Atom::HostIs(host) => Some(host),
        _ => None,
    }
}

// The suffix below which a literal asks for hosts.
fn wanted_suffix(literals: &[Literal]) -> Option<&Text>
    ensures { MatchOption result
        (All (λ l. spec.suffix_of l.atom ≡ None) literals.now)
        (λ suffix. Any (λ l. spec.suffix_of l.atom ≡ Some suffix.now) literals.now) }
{
    literals.iter().find_map(named_suffix)
}

fn named_suffix(literal: &Literal) -> Option<&Text>
    ensures { option_copied result ≡ spec.suffix_of literal.now.atom }
{
    match &literal.atom {
        Atom::HostUnder(suffix) => Some(suffix),
        _ => None,
    }
}

// Whether some literal is on whether the host is a domain.
fn has_domains(literals: &[Literal]) -> bool
    ensures { result ≡ list_any (λ l. spec.is_on_domains l.atom) literals.now }
{
    literals
        .iter()
        .any(|literal| matches!(literal.atom, Atom::HostDomain))
}

// A domain of one label more than the suffix, of which no literal's atom is true.
fn other_below(alloc: Global, suffix: &str, literals: &[Literal]) -> Result<Host, Memory>
    requires valid { IsTrue (is_domain suffix.now) }
    requires leaves { All (λ l. follows_true (HostUnder suffix.now) l.atom ≢ Some true) literals.now }
    ensures valid { IfOk result IsValidHost }
    ensures below { IfOk result (λ host. is_host_under host suffix.now ≡ true) }
    ensures denied { IfOk result (IsDenied literals.now) }
{
    let back = format!(in alloc; ".{suffix}")?;
    let text = fresh_text(alloc, "other", back.as_str(), literals)?;
    Ok(Host::Domain(text))
}

// A domain of which no literal's atom is true: one below `example`, where they leave one open, or else a
// label alone.
fn other_domain(alloc: Global, literals: &[Literal]) -> Result<Host, Memory>
    requires { list_any (λ l. spec.is_on_domains l.atom) literals.now ≡ false }
    ensures valid { IfOk result IsValidHost }
    ensures domain { IfOk result (λ host. is_domain_host host ≡ true) }
    ensures denied { IfOk result (IsDenied literals.now) }
{
    let example = Atom::HostUnder(Text::new(alloc, "example")?);
    if is_open(&example, literals) {
        other_below(alloc, "example", literals)
    } else {
        let text = fresh_text(alloc, "other", "", literals)?;
        Ok(Host::Domain(text))
    }
}

// Whether no literal's atom is true wherever this one is.
fn is_open(atom: &Atom, literals: &[Literal]) -> bool
    ensures { IsTrue result ↔ All (λ l. follows_true atom.now l.atom ≢ Some true) literals.now }
{
    literals.iter().all(|literal| follows_as(atom, true, &literal.atom) != Some(true))
}

// An address of which no literal's atom is true. It is one of those that are set aside for examples
// (RFC 3849).
fn other_address(alloc: Global, literals: &[Literal]) -> Result<Host, Memory>
    ensures valid { IfOk result IsValidHost }
    ensures denied { IfOk result (IsDenied literals.now) }
{
    let text = fresh_text(alloc, "[2001:db8::1", "]", literals)?;
    Ok(Host::Address(text))
}
