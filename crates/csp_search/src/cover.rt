//! The widest conjunctions of a policy.
use crate::view::View;
use csp_answer::{Conjunction, Ground, ShapeAnswer};
use csp_branch::Names;
use csp_model::{CheckPart, Memory};
use std::alloc::Global;

// An answer, and its conjunctions with a host by port, path and host. Of these one is left out whose host
// lies under that of another with the same port and path.
#[derive(Drop)]
pub(crate) struct Cover<'c> {
    answer: &'c ShapeAnswer,
    hosted: Vec<Conjunction>,
    // The own pairs of the rule on integrity metadata by name, each with its place among them.
    pairs: Vec<(usize, usize)>,
}

impl<'c> Cover<'c> {
    pub(crate) fn new(
        alloc: Global,
        names: &Names,
        answer: &'c ShapeAnswer,
    ) -> Result<Cover<'c>, Memory> {
        let mut all = Vec::new(alloc);
        for conjunction in answer.conjunctions() {
            if conjunction.lead.is_some_and(|lead| is_host(names, lead)) {
                all.push(*conjunction)?;
            }
        }
        all.sort_by(|one, other| by_port(one).cmp(&by_port(other)))?;
        let mut hosted: Vec<Conjunction> = Vec::with_capacity(alloc, all.len())?;
        for conjunction in all {
            let is_under = |outer| lies_under(names, &conjunction, outer);
            if !hosted.last().is_some_and(is_under) {
                hosted.push(conjunction)?;
            }
        }
        let mut pairs = Vec::new(alloc);
        if let Some(rule) = answer.integrity() {
            let own = rule.own.iter().enumerate();
            pairs.extend(own.map(|(place, pair)| (*pair, place)))?;
        }
        pairs.sort()?;
        Ok(Cover {
            answer,
            hosted,
            pairs,
        })
    }

    pub(crate) fn answer(&self) -> &'c ShapeAnswer {
        self.answer
    }

    // What the policy holds by where this does, one of its conjunctions or a pair of integrity metadata.
    pub(crate) fn ground(&self, conjunction: Conjunction) -> Option<Ground> {
        match self.answer.conjunctions().binary_search(&conjunction) {
            Ok(place) => Some(Ground::Conjunction { place }),
            Err(_) => {
                let place = self.pair_place(conjunction.lead?)?;
                Some(Ground::Pair { place })
            }
        }
    }

    // The place of a pair of integrity metadata among the rule's own.
    pub(crate) fn pair_place(&self, pair: usize) -> Option<usize> {
        let found = self.pairs.binary_search_by_key(&pair, |own| own.0).ok()?;
        Some(self.pairs.get(found)?.1)
    }

    // The widest of the conjunctions that hold on the branch wherever this one does.
    pub(crate) fn widest(&self, view: View, inner: Conjunction) -> Option<Conjunction> {
        let always = Conjunction::always();
        if self.answer.conjunctions().first() == Some(&always) {
            return Some(always);
        }
        let lead = inner.lead?;
        if !is_host(view.branch.names(), lead) {
            let alone = Conjunction::of(lead);
            return self.has(view, lead).then_some(alone);
        }
        let host = innermost(view, CheckPart::Host, inner.lead)?;
        let path = innermost(view, CheckPart::Path, inner.path);
        self.widest_at(view, None, path, host).or_else(|| {
            let port = innermost(view, CheckPart::Port, inner.port)?;
            self.widest_at(view, Some(port), path, host)
        })
    }

    // Whether the policy holds by this name alone: by a pair of integrity metadata, or by another word.
    fn has(&self, view: View, name: usize) -> bool {
        if view.part(name) == Some(CheckPart::Integrity) {
            return self.pair_place(name).is_some();
        }
        let alone = Conjunction::of(name);
        self.answer.conjunctions().binary_search(&alone).is_ok()
    }

    // The widest of the conjunctions with this port that hold wherever this path and this host do. The
    // outermost path goes first.
    fn widest_at(
        &self,
        view: View,
        port: Option<usize>,
        path: Option<usize>,
        host: usize,
    ) -> Option<Conjunction> {
        let names = view.branch.names();
        if let Some(found) = self.with_path(names, port, None, host) {
            return Some(found);
        }
        let mut widest = None;
        let mut next = path;
        while let Some(path) = next {
            if let Some(found) = self.with_path(names, port, Some(path), host) {
                widest = Some(found);
            }
            next = view.outer(path);
        }
        widest
    }

    // The conjunction with this port and path whose host is around this one.
    fn with_path(
        &self,
        names: &Names,
        port: Option<usize>,
        path: Option<usize>,
        host: usize,
    ) -> Option<Conjunction> {
        let wanted = (port, path, Some(host));
        let end = self.hosted.partition_point(|one| by_port(one) <= wanted);
        let found = self.hosted.get(..end)?.last()?;
        let fits = found.port == port && found.path == path;
        (fits && names.is_around(found.lead?, host)).then_some(*found)
    }
}

fn by_port(conjunction: &Conjunction) -> (Option<usize>, Option<usize>, Option<usize>) {
    (conjunction.port, conjunction.path, conjunction.lead)
}

// Whether the host of a conjunction lies under that of another with the same port and path.
fn lies_under(names: &Names, inner: &Conjunction, outer: &Conjunction) -> bool {
    match (inner.lead, outer.lead) {
        (Some(host), Some(around)) => {
            inner.port == outer.port && inner.path == outer.path && names.is_around(around, host)
        }
        _ => false,
    }
}

fn is_host(names: &Names, name: usize) -> bool {
    names
        .atoms()
        .get(name)
        .is_some_and(|atom| atom.part() == CheckPart::Host)
}

// The innermost of a name and of the place on its part: where the name holds already, that is the place.
fn innermost(view: View, part: CheckPart, name: Option<usize>) -> Option<usize> {
    match name {
        Some(name) if !view.holds(name) => Some(name),
        _ => view.place(part),
    }
}
