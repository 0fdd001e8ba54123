//! What a policy can still hold by.
use crate::cover::Cover;
use crate::view::View;
use csp_answer::{Conjunction, ShapeAnswer};
use csp_model::Memory;
use std::alloc::Global;

// A conjunction that makes a policy of the first list hold, or one of the second list's policy in its place:
// it holds wherever the first does.
#[derive(Clone, Copy, Debug, PartialEq, Eq, PartialOrd, Ord)]
pub(crate) struct Goal {
    pub(crate) conjunction: Conjunction,
    // Whether the conjunction is one of the second list's policy.
    pub(crate) met: bool,
}

// By which conjunctions a policy can hold on the branch, each once, in ascending order.
pub(crate) fn goals_of(
    alloc: Global,
    view: View,
    answer: &ShapeAnswer,
    second: &Cover,
) -> Result<Vec<Goal>, Memory> {
    let mut goals = Vec::new(alloc);
    for some in view.left_of(alloc, answer.conjunctions())? {
        for conjunction in some {
            add(view, *conjunction, second, &mut goals)?;
        }
    }
    if let Some(rule) = answer.integrity() {
        for pair in &rule.own {
            add(view, Conjunction::of(*pair), second, &mut goals)?;
        }
    }
    goals.sort()?;
    goals.dedup();
    Ok(goals)
}

// Whether a policy can hold on the branch.
pub(crate) fn can_hold(alloc: Global, view: View, answer: &ShapeAnswer) -> Result<bool, Memory> {
    let left = view.left_of(alloc, answer.conjunctions())?;
    let mut conjunctions = left.iter().copied().flatten();
    if conjunctions.any(|one| view.may_hold(*one)) {
        return Ok(true);
    }
    let pairs = answer.integrity().map(|rule| rule.own.as_slice());
    let mut pairs = pairs.into_iter().flatten();
    Ok(pairs.any(|pair| view.may_hold(Conjunction::of(*pair))))
}

fn add(
    view: View,
    conjunction: Conjunction,
    second: &Cover,
    goals: &mut Vec<Goal>,
) -> Result<(), Memory> {
    if view.may_hold(conjunction) {
        let widest = second.widest(view, conjunction);
        goals.push(Goal {
            conjunction: widest.unwrap_or(conjunction),
            met: widest.is_some(),
        })?;
    }
    Ok(())
}
