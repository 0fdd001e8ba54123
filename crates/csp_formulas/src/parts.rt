//! Formulas of the parts of host-sources, by their outlines.
ghost use Rattle.std.specs.Prelude.{◌≡◌, IfOk};
ghost use Rattle.csp_formula.specs.Outlines as outlines;
ghost use Rattle.csp_formulas.specs.Formulas.{sentence_of};
ghost use Rattle.csp_formula.specs.Sources as spec;

use crate::formula::Formula;
use csp_facts::Atom;
use csp_formula::{PathOutline, PortOutline};
use csp_model::{Duplicate, Host, HostPart, Memory, PathPart, Text, is_domain, is_four_numbers};
use std::alloc::Global;

// The formula of a host. It is false where no URL can have the host.
pub(crate) fn host_formula(alloc: Global, part: &HostPart) -> Result<Formula, Memory>
    ensures { IfOk result (λ f. sentence_of f ≡ spec.host_sentence part.now) }
{
    match part {
        HostPart::Any => Ok(Formula::Fact(Atom::HostDomain)),
        HostPart::Under(suffix) => suffix_formula(alloc, suffix),
        HostPart::Exact(text) => exact_formula(alloc, text),
    }
}

fn suffix_formula(alloc: Global, suffix: &Text) -> Result<Formula, Memory>
    ensures { IfOk result (λ f. sentence_of f ≡ spec.suffix_sentence suffix.now) }
{
    if is_domain(suffix.as_str()) {
        Ok(Formula::Fact(Atom::HostUnder(suffix.copy(alloc)?)))
    } else {
        Ok(Formula::Constant(false))
    }
}

fn exact_formula(alloc: Global, text: &Text) -> Result<Formula, Memory>
    ensures { IfOk result (λ f. sentence_of f ≡ spec.exact_sentence text.now) }
{
    if is_domain(text.as_str()) {
        Ok(Formula::Fact(Atom::HostIs(Host::Domain(text.copy(alloc)?))))
    } else if is_four_numbers(text.as_str()) {
        Ok(Formula::Fact(Atom::HostIs(Host::Address(text.copy(alloc)?))))
    } else {
        Ok(Formula::Constant(false))
    }
}

// The formula of a port.
pub(crate) fn port_formula(outline: PortOutline) -> Formula
    ensures { sentence_of result ≡ outlines.port_said outline }
{
    match outline {
        PortOutline::Constant(known) => Formula::Constant(known),
        PortOutline::Is(number) => Formula::Fact(Atom::PortIs(number)),
    }
}

// The formula of a path.
pub(crate) fn path_formula(
    alloc: Global,
    outline: PathOutline,
    part: &PathPart,
) -> Result<Formula, Memory>
    ensures { IfOk result (λ f. sentence_of f ≡ outlines.path_said outline part.now) }
{
    match (outline, part) {
        (PathOutline::Constant(known), _) => Ok(Formula::Constant(known)),
        (PathOutline::Itself, PathPart::Absent) => Ok(Formula::Constant(true)),
        (PathOutline::Itself, PathPart::Exact(pieces)) => {
            Ok(Formula::Fact(Atom::PathIs(pieces.copy(alloc)?)))
        }
        (PathOutline::Itself, PathPart::Prefix(pieces)) => {
            Ok(Formula::Fact(Atom::PathUnder(pieces.copy(alloc)?)))
        }
    }
}
