//! What a source list says of URLs, as conjunctions of names.
ghost use Rattle.std.specs.Prelude.{◌≡◌, IfOk, List as Items, MatchOption, None, slice_get};
ghost use Rattle.std.specs.Option.{option_to_list};
ghost use Rattle.csp_facts.specs.declared.atom.Atom.{Atom as AtomValue};
ghost use Rattle.csp_formula.specs.Outlines.{port_said};
ghost use Rattle.csp_formula.specs.Sources.{list_sentence, source_sentence};
ghost use Rattle.csp_answer.specs.Asking as spec;
ghost use Rattle.csp_answer.specs.Naming.{HasPorts, IsNamed, IsSourceNamed};

use crate::conjunction::Conjunction;
use crate::naming::{NamedPolicy, SourceNames};
use csp_branch::Names;
use csp_facts::{Atom, Shape};
use csp_formula::{Outline, PathOutline, PortOutline, source_outline, sources_at};
use csp_model::{List, Memory, Origin, Source};
use std::alloc::Global;

// The sources of a directive of a policy of this origin, with their names.
#[derive(Clone, Copy)]
pub(crate) struct NamedList<'n> {
    pub(crate) origin: &'n Origin,
    pub(crate) sources: &'n List<Source>,
    pub(crate) names: &'n [SourceNames],
}

// The list of the directive at the place.
pub(crate) fn list_at<'n>(named: &'n NamedPolicy, place: usize) -> Option<NamedList<'n>>
    ensures { (atoms : Items AtomValue) → IsNamed atoms named.now
        → MatchOption result (slice_get named.now.policy.now.directives place ≡ None)
        (spec.IsListAt atoms named.now place) }
{
    let sources = sources_at(named.policy, place)?;
    let names = named.directives.as_slice().get(place)?;
    Some(NamedList {
        origin: &named.policy.origin,
        sources,
        names: names.as_slice(),
    })
}

// The conjunctions of the sources that can match at the shape.
pub(crate) fn list_conjunctions(
    alloc: Global,
    names: &Names,
    list: NamedList,
    shape: Shape,
) -> Result<Vec<Conjunction>, Memory>
    requires { spec.IsListNamed names.now list }
    ensures { IfOk result (λ made. spec.AmountTo names.now
        (list_sentence list.entry.origin.now shape list.entry.sources.now) made.items) }
{
    let mut conjunctions = Vec::new(alloc);
    for (source, named) in list.sources.as_slice().iter().zip(list.names) {
        if let Some(found) = source_conjunction(names, list.origin, shape, source, *named) {
            conjunctions.push(found)?;
        }
    }
    Ok(conjunctions)
}

// The conjunction of a source, if it can match at the shape.
fn source_conjunction(
    names: &Names,
    origin: &Origin,
    shape: Shape,
    source: &Source,
    named: SourceNames,
) -> Option<Conjunction>
    requires source { IsSourceNamed names.now origin.now source.now named }
    requires ports { HasPorts names.now origin.now }
    ensures { spec.AmountTo names.now (source_sentence origin.now shape source.now)
        (option_to_list result) }
{
    let lead = named.lead;
    match (source_outline(origin, shape, source), source) {
        (Outline::Constant(true), _) => Some(Conjunction::always()),
        (Outline::Scheme, Source::SchemeOnly { .. }) => conjunction_of(
            lead,
            Some(None),
            Some(None),
        ),
        (Outline::Hosted { port, path }, Source::Hosted { .. }) => {
            conjunction_of(lead, port_asked(names, port), path_asked(path, named.rest))
        }
        (Outline::Own { port }, Source::Word { .. }) => {
            conjunction_of(lead, port_asked(names, port), Some(None))
        }
        _ => None,
    }
}

// What is asked of the port. None stands for a part that never holds, and Some(None) for nothing.
fn port_asked(names: &Names, port: PortOutline) -> Option<Option<usize>>
    ensures { spec.IsPortNamed names.now port → spec.IsAsked names.now (port_said port) result }
{
    match port {
        PortOutline::Constant(true) => Some(None),
        PortOutline::Constant(false) => None,
        PortOutline::Is(number) => names.find(&Atom::PortIs(number)).map(Some),
    }
}

// What is asked of the path, of which this is the name.
fn path_asked(path: PathOutline, name: Option<usize>) -> Option<Option<usize>>
    ensures { result ≡ spec.path_asked path name }
{
    match path {
        PathOutline::Constant(true) => Some(None),
        PathOutline::Constant(false) => None,
        PathOutline::Itself => Some(name),
    }
}

// The conjunction of what is asked of the parts, if all of them can hold.
fn conjunction_of(
    lead: Option<usize>,
    port: Option<Option<usize>>,
    path: Option<Option<usize>>,
) -> Option<Conjunction>
    ensures { result ≡ spec.conjunction_of lead port path }
{
    Some(Conjunction {
        lead: Some(lead?),
        port: port?,
        path: path?,
    })
}
