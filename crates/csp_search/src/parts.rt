//! The part of a check that a branch is split on.
use crate::goals::Goal;
use crate::view::{View, names_in};
use csp_answer::ShapeAnswer;
use csp_model::{Algorithm, CheckPart, Memory};
use std::alloc::Global;

// The parts of a check, in the order of their numbers.
pub(crate) const PARTS: [CheckPart; 9] = [
    CheckPart::Host,
    CheckPart::Path,
    CheckPart::Port,
    CheckPart::PlainScheme,
    CheckPart::Nonce,
    CheckPart::Integrity,
    CheckPart::Digest(Algorithm::Sha256),
    CheckPart::Digest(Algorithm::Sha384),
    CheckPart::Digest(Algorithm::Sha512),
];

// The part whose splits leave the fewest goals in sum, if a goal has an open name.
pub(crate) fn part_for(
    alloc: Global,
    view: View,
    goals: &[Goal],
    second: &ShapeAnswer,
) -> Result<Option<CheckPart>, Memory> {
    let mut best: Option<(usize, CheckPart)> = None;
    for part in PARTS {
        if let Some(sum) = goals_left(alloc, view, goals, part, second)?
            && best.is_none_or(|least| sum < least.0)
        {
            best = Some((sum, part));
        }
    }
    Ok(best.map(|least| least.1))
}

// How many goals are left in sum where a branch is split by the open names of these goals on a part, if
// there is one.
fn goals_left(
    alloc: Global,
    view: View,
    goals: &[Goal],
    part: CheckPart,
    second: &ShapeAnswer,
) -> Result<Option<usize>, Memory> {
    let mut names = Vec::new(alloc);
    for goal in goals {
        if let Some(name) = view.name_on(goal.conjunction, part)
            && !view.holds(name)
        {
            names.push((name, ends_at(view, goal, part)))?;
        }
    }
    if names.is_empty() {
        return Ok(None);
    }
    names.sort()?;
    let held = goals.len().saturating_sub(names.len());
    let mut sum = held.saturating_add(goals_below(alloc, view, &names, held)?);
    let is_met_on = |goal: &Goal| goal.met && view.name_on(goal.conjunction, part).is_some();
    if part == CheckPart::Integrity && goals.iter().any(is_met_on) {
        let refused = refused_pairs(view, second);
        sum = sum.saturating_add(refused.saturating_mul(held.saturating_add(1)));
    }
    Ok(Some(sum))
}

// How many goals are left in sum where a branch is split by these names. Each name is that of one goal, and
// is told with whether this goal holds there. At each name as many more goals are left as are held.
fn goals_below(
    alloc: Global,
    view: View,
    names: &[(usize, bool)],
    held: usize,
) -> Result<usize, Memory> {
    let mut sum = 0_usize;
    // The names around the present one, each with how many goals are left there.
    let mut outer: Vec<(usize, usize)> = Vec::new(alloc);
    for same in names.chunk_by(|one, other| one.0 == other.0) {
        let Some((name, _)) = same.first() else {
            continue;
        };
        let is_apart = |last: &(usize, usize)| !view.branch.names().is_around(last.0, *name);
        while outer.last().is_some_and(is_apart) {
            outer.pop();
        }
        let around = outer.last().map_or(held, |last| last.1);
        let here = around.saturating_add(same.len());
        let is_ended = same.iter().any(|one| one.1);
        sum = sum.saturating_add(if is_ended { 1 } else { here.saturating_add(1) });
        outer.push((*name, here))?;
    }
    Ok(sum)
}

// Whether the goal holds once its name on this part does.
fn ends_at(view: View, goal: &Goal, part: CheckPart) -> bool {
    names_in(goal.conjunction)
        .into_iter()
        .flatten()
        .all(|name| view.part(name) == Some(part) || view.holds(name))
}

// How many pairs are open that the second list's policy refuses.
fn refused_pairs(view: View, second: &ShapeAnswer) -> usize {
    let Some(rule) = second.integrity() else {
        return 0;
    };
    let others = rule.others.iter().filter(|pair| view.is_open(**pair));
    others
        .count()
        .saturating_add(usize::from(view.is_open(rule.outside)))
}
