//! What a branch tells a plan.
ghost use Rattle.std.specs.Prelude.{◌<◌, IfSome};

use crate::parts::PARTS;
use crate::searching::Question;
use csp_answer::Conjunction;
use csp_branch::{Branch, part_number};
use csp_model::{CheckPart, Memory};
use std::alloc::Global;

// A branch of a question, and the pair of integrity metadata that was last said to hold. A check may have
// many pairs, but one that a policy refuses shows as much as several: a plan has a check hold one.
#[derive(Clone, Copy)]
pub(crate) struct View<'v> {
    pub(crate) question: Question<'v>,
    pub(crate) branch: &'v Branch,
    pub(crate) pair: Option<usize>,
}

impl<'v> View<'v> {
    pub(crate) fn part(self, name: usize) -> Option<CheckPart> {
        Some(self.branch.names().atoms().get(name)?.part())
    }

    // The name that holds on a part.
    pub(crate) fn place(self, part: CheckPart) -> Option<usize> {
        match part {
            CheckPart::Integrity => self.pair,
            _ => self.branch.place(part),
        }
    }

    fn known(self, name: usize) -> Option<bool> {
        if name < self.branch.names().atoms().len() {
            self.branch.known(name)
        } else {
            Some(false)
        }
    }

    pub(crate) fn holds(self, name: usize) -> bool {
        match self.part(name) {
            Some(CheckPart::Integrity) => self.pair == Some(name),
            _ => self.known(name) == Some(true),
        }
    }

    // Whether nothing is decided of the name.
    pub(crate) fn is_open(self, name: usize) -> bool {
        match self.part(name) {
            Some(CheckPart::Integrity) => self.pair.is_none() && self.known(name).is_none(),
            _ => self.known(name).is_none(),
        }
    }

    pub(crate) fn all_hold(self, conjunction: Conjunction) -> bool {
        names_in(conjunction)
            .into_iter()
            .flatten()
            .all(|name| self.holds(name))
    }

    // Whether all names of the conjunction hold or are open.
    pub(crate) fn may_hold(self, conjunction: Conjunction) -> bool {
        names_in(conjunction)
            .into_iter()
            .flatten()
            .all(|name| match (self.part(name), self.pair) {
                (Some(CheckPart::Integrity), Some(pair)) => pair == name,
                _ => self.known(name) != Some(false),
            })
    }

    // The innermost of the names around a name, but for itself.
    pub(crate) fn outer(self, name: usize) -> Option<usize>
        ensures { IfSome result (λ outer. outer < name) }
    {
        if name < self.branch.names().atoms().len() {
            self.branch.names().outer(name)
        } else {
            None
        }
    }

    fn end(self, name: usize) -> usize {
        if name < self.branch.names().atoms().len() {
            self.branch.names().end(name)
        } else {
            name
        }
    }

    // The name of a conjunction on a part.
    pub(crate) fn name_on(self, conjunction: Conjunction, part: CheckPart) -> Option<usize> {
        match part {
            CheckPart::Port => conjunction.port,
            CheckPart::Path => conjunction.path,
            _ => conjunction
                .lead
                .filter(|lead| self.part(*lead) == Some(part)),
        }
    }

    // The conjunctions that the places of the branch leave: those led by a name apart from its part's place
    // are left out.
    pub(crate) fn left_of<'c>(
        self,
        alloc: Global,
        conjunctions: &'c [Conjunction],
    ) -> Result<Vec<&'c [Conjunction]>, Memory> {
        let names = self.branch.names();
        let (unled, mut rest) = split_at_name(conjunctions, Some(0));
        let mut left = vec![in alloc; unled]?;
        for part in PARTS {
            let (on_part, others) = split_at_name(rest, Some(names.start(part_number(part) + 1)));
            match self.place(part) {
                Some(place) => self.add_about(place, on_part, &mut left)?,
                None => left.push(on_part)?,
            }
            rest = others;
        }
        Ok(left)
    }

    // Adds those led by a name around a place or under it.
    fn add_about<'c>(
        self,
        place: usize,
        conjunctions: &'c [Conjunction],
        left: &mut Vec<&'c [Conjunction]>,
    ) -> Result<(), Memory> {
        let (outside, rest) = split_at_name(conjunctions, Some(place));
        left.push(split_at_name(rest, Some(self.end(place))).0)?;
        let mut next = self.outer(place);
        while let Some(name) = next {
            left.push(led_by(outside, name))?;
            next = self.outer(name);
        }
        Ok(())
    }
}

// The names of a conjunction.
pub(crate) fn names_in(conjunction: Conjunction) -> [Option<usize>; 3] {
    [conjunction.lead, conjunction.path, conjunction.port]
}

// The conjunctions led by no name or by one before this one, and the others.
fn split_at_name(
    conjunctions: &[Conjunction],
    name: Option<usize>,
) -> (&[Conjunction], &[Conjunction]) {
    conjunctions.split_at(conjunctions.partition_point(|one| one.lead < name))
}

// Those led by this name.
fn led_by(conjunctions: &[Conjunction], name: usize) -> &[Conjunction] {
    let start = conjunctions.partition_point(|one| one.lead < Some(name));
    let end = conjunctions.partition_point(|one| one.lead <= Some(name));
    conjunctions.get(start..end).unwrap_or(&[])
}
