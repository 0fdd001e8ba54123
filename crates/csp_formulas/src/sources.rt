//! Formulas of source expressions and of source lists.
ghost use Rattle.std.specs.Prelude.{◌≡◌, IfOk};
ghost use Rattle.csp_formula.specs.Outlines as outlines;
ghost use Rattle.csp_formulas.specs.Formulas.{sentence_of};
ghost use Rattle.csp_formula.specs.Sources as spec;

use crate::formula::Formula;
use crate::parts::{host_formula, path_formula, port_formula};
use csp_facts::{Atom, Shape};
use csp_formula::{Outline, PathOutline, PortOutline, source_outline};
use csp_model::{Duplicate, Memory, Origin, Source};
use std::alloc::Global;

// The formula of a list: one of its sources matches.
pub(crate) fn list_formula(
    alloc: Global,
    origin: &Origin,
    shape: Shape,
    sources: &[Source],
) -> Result<Formula, Memory>
    ensures { IfOk result (λ f. sentence_of f ≡ spec.list_sentence origin.now shape sources.now) }
{
    let mut parts = Vec::with_capacity(alloc, sources.len())?;
    for source in sources {
        let outline = source_outline(origin, shape, source);
        parts.push(source_formula(alloc, outline, origin, source)?)?;
    }
    Ok(Formula::OneOf(parts))
}

// The formula of a source of this outline, of a policy of this origin.
fn source_formula(
    alloc: Global,
    outline: Outline,
    origin: &Origin,
    source: &Source,
) -> Result<Formula, Memory>
    ensures { IfOk result (λ f. sentence_of f ≡ outlines.outlined outline origin.now source.now) }
{
    match outline {
        Outline::Constant(known) => Ok(Formula::Constant(known)),
        Outline::Scheme => scheme_formula(alloc, source),
        Outline::Hosted { port, path } => host_source_formula(alloc, port, path, source),
        Outline::Own { port } => own_formula(alloc, port, origin),
    }
}

// The formula of a scheme-source: the scheme is this one.
fn scheme_formula(alloc: Global, source: &Source) -> Result<Formula, Memory>
    ensures { IfOk result (λ f. sentence_of f ≡ outlines.scheme_said source.now) }
{
    match source {
        Source::SchemeOnly { scheme } => Ok(Formula::Fact(Atom::SchemeIs(scheme.copy(alloc)?))),
        _ => Ok(Formula::Constant(false)),
    }
}

// The formula of a host-source.
fn host_source_formula(
    alloc: Global,
    port: PortOutline,
    path: PathOutline,
    source: &Source,
) -> Result<Formula, Memory>
    ensures { IfOk result (λ f. sentence_of f ≡ outlines.host_source_said port path source.now) }
{
    match source {
        Source::Hosted {
            host,
            path: part,
            ..
        } => Ok(Formula::Every(vec![in alloc;
            host_formula(alloc, host)?,
            port_formula(port),
            path_formula(alloc, path, part)?,
        ]?)),
        _ => Ok(Formula::Constant(false)),
    }
}

// The formula of `'self'`.
fn own_formula(alloc: Global, port: PortOutline, origin: &Origin) -> Result<Formula, Memory>
    ensures { IfOk result (λ f. sentence_of f ≡ outlines.own_said port origin.now) }
{
    match origin {
        Origin::Tuple { host, .. } => Ok(Formula::Every(vec![in alloc;
            Formula::Fact(Atom::HostIs(host.copy(alloc)?)),
            port_formula(port),
        ]?)),
        Origin::Opaque => Ok(Formula::Constant(false)),
    }
}
