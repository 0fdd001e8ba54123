//! How a search goes on: a plan that follows one policy of the first list at a time. No answer stands on it:
//! what it wishes for is looked at before it is done.
ghost use Rattle.csp_search.specs.Questions.{IsPosed};

use crate::cover::Cover;
use crate::goals::{Goal, can_hold, goals_of};
use crate::leaf::is_met;
use crate::named_question::{first_answer, second_answer};
use crate::parts::part_for;
use crate::searching::Question;
use crate::view::View;
use csp_answer::Ground;
use csp_branch::Branch;
use csp_model::{CheckPart, Memory};
use std::alloc::Global;

// A plan does no more tasks before it wishes for something: a few for each part of a check.
const MOST_TASKS: usize = 1000;

// What a plan wishes for next.
#[derive(Clone, Copy, Debug)]
pub(crate) enum Wish {
    // To end the branch by the policy of the second list. Where a ground is told, that alone is looked at.
    Met { ground: Option<Ground> },
    // To end it by this policy of the first list.
    Block { policy: u32 },
    // To split it by this name.
    Split { name: usize },
    // To look for a check on which no open name holds.
    Refute,
    Nothing,
}

// What a plan has to do in a branch.
#[derive(Drop)]
enum Task {
    // To end it by the policy of the second list, or by one of these policies of the first list.
    Solve { firsts: Vec<usize> },
    // To end it where the guide can hold by these goals alone.
    Follow(Following),
    // To go on where a name of the last frame holds.
    Enter { name: usize },
    // To go on where the last name that it was split by doesn't hold.
    Leave,
}

// A policy of the first list that is followed, by what it can hold, and those that are to be followed where
// it holds.
#[derive(Drop)]
struct Following {
    guide: usize,
    goals: Vec<Goal>,
    others: Vec<usize>,
}

// What a task comes to: what is wished for, if anything, and the task after it.
type Done = (Option<Wish>, Option<Task>);

// A part that a branch is split on, name by name.
#[derive(Drop)]
struct Frame {
    part: CheckPart,
    // The names that are still to come, the next one last.
    names: Vec<usize>,
    // The goals with a name on the part that is open, by these names.
    open: Vec<Goal>,
    // What is followed where none of the names holds.
    rest: Following,
    // What held on the part before, and which pair of integrity metadata did.
    place: Option<usize>,
    pair: Option<usize>,
}

#[derive(Drop)]
pub(crate) struct SearchPlan<'p> {
    alloc: Global,
    // The second list's policy, if it has an answer.
    cover: Option<Cover<'p>>,
    frames: Vec<Frame>,
    // None where a wish ends the branch, or the plan was given up.
    task: Option<Task>,
    is_given_up: bool,
    // The pair of integrity metadata that was last said to hold.
    pair: Option<usize>,
}

impl<'p> SearchPlan<'p> {
    pub(crate) fn new(
        alloc: Global,
        question: Question<'p>,
        branch: &Branch,
    ) -> Result<SearchPlan<'p>, Memory> {
        let cover = match second_answer(question) {
            Some(answer) => Some(Cover::new(alloc, branch.names(), answer)?),
            None => None,
        };
        let mut firsts = Vec::new(alloc);
        for place in 0..question.lists.first.policies.len() {
            if first_answer(question, place).is_some() {
                firsts.push(place)?;
            }
        }
        Ok(SearchPlan {
            alloc,
            cover,
            frames: Vec::new(alloc),
            task: Some(Task::Solve { firsts }),
            is_given_up: false,
            pair: None,
        })
    }

    // The branch was ended. The next one is that where the last name doesn't hold.
    pub(crate) fn close_branch(&mut self) {
        if !self.is_given_up {
            self.task = Some(Task::Leave);
        }
    }

    // Something else was done than what the plan wished for: it wishes for nothing more.
    pub(crate) fn give_up(&mut self) {
        self.is_given_up = true;
        self.task = None;
    }

    // What the plan wishes for in this branch.
    pub(crate) fn next(&mut self, question: Question, branch: &Branch) -> Result<Wish, Memory>
        requires { IsPosed question branch.now.atoms }
    {
        for _ in 0..MOST_TASKS {
            let Some(task) = self.task.take() else {
                return Ok(Wish::Nothing);
            };
            let (wish, task) = self.done(question, branch, task)?;
            self.task = task;
            if let Some(wish) = wish {
                return Ok(wish);
            }
        }
        Ok(Wish::Nothing)
    }

    fn done(&mut self, question: Question, branch: &Branch, task: Task) -> Result<Done, Memory>
        requires { IsPosed question branch.now.atoms }
    {
        let view = View {
            question,
            branch,
            pair: self.pair,
        };
        match task {
            Task::Solve { firsts } => self.solve(view, firsts),
            Task::Follow(following) => self.follow(view, following),
            Task::Enter { name } => self.enter(view, name),
            Task::Leave => self.leave(view),
        }
    }

    // Ends the branch, or follows the policy of the first list with the fewest goals that the second list's
    // policy doesn't meet.
    fn solve(&mut self, view: View, firsts: Vec<usize>) -> Result<Done, Memory>
        requires { IsPosed view.question view.branch.now.atoms }
    {
        if is_met(view.question, view.branch) {
            return Ok((Some(Wish::Met { ground: None }), None));
        }
        if let Some(first) = refusing(self.alloc, view, &firsts)? {
            return Ok((Some(block(first)), None));
        }
        match self.guide_among(view, firsts)? {
            Some(following) => Ok((None, Some(Task::Follow(following)))),
            None => Ok((Some(Wish::Refute), None)),
        }
    }

    // The policy that is followed, if there is one among these that doesn't hold yet. One that answers as the
    // second list's policy does is met by all that it can hold by.
    fn guide_among(&self, view: View, mut firsts: Vec<usize>) -> Result<Option<Following>, Memory> {
        let Some(cover) = &self.cover else {
            return Ok(None);
        };
        let answers_alike = |first: &usize| first_answer(view.question, *first)
            == Some(cover.answer());
        if let Some(place) = firsts.iter().position(answers_alike) {
            firsts.swap(0, place);
        }
        let mut best: Option<((usize, usize), usize, Vec<Goal>)> = None;
        for first in &firsts {
            let Some(answer) = first_answer(view.question, *first) else {
                continue;
            };
            let goals = goals_of(self.alloc, view, answer, cover)?;
            if goals.iter().any(|goal| view.all_hold(goal.conjunction)) {
                continue;
            }
            let unmet = goals.iter().filter(|goal| !goal.met).count();
            let score = (unmet, goals.len());
            if best.as_ref().is_none_or(|least| score < least.0) {
                best = Some((score, *first, goals));
            }
            if unmet == 0 {
                break;
            }
        }
        let Some((_, guide, goals)) = best else {
            return Ok(None);
        };
        firsts.retain(|first| *first != guide);
        Ok(Some(Following {
            guide,
            goals,
            others: firsts,
        }))
    }

    // Ends the branch where a goal holds or none is left, or else splits it on the part that leaves the
    // fewest goals.
    fn follow(&mut self, view: View, following: Following) -> Result<Done, Memory> {
        let Some(cover) = &self.cover else {
            return Ok((None, None));
        };
        let goals = following.goals.iter();
        let holding = goals.filter(|goal| view.all_hold(goal.conjunction));
        match holding.max_by_key(|goal| goal.met) {
            Some(goal) if goal.met => {
                let ground = cover.ground(goal.conjunction);
                return Ok((Some(Wish::Met { ground }), None));
            }
            Some(_) => {
                let firsts = following.others;
                return Ok((None, Some(Task::Solve { firsts })));
            }
            None => {}
        }
        let Some(part) = part_for(self.alloc, view, &following.goals, cover.answer())? else {
            return Ok((Some(block(following.guide)), None));
        };
        let frame = frame_on(self.alloc, view, cover, part, following)?;
        self.frames.push(frame)?;
        Ok((None, Some(Task::Leave)))
    }

    // Goes on at the next name of the last frame, or with the goals that have none on its part.
    fn leave(&mut self, view: View) -> Result<Done, Memory> {
        let Some(mut frame) = self.frames.pop() else {
            return Ok((None, None));
        };
        self.pair = frame.pair;
        let view = View {
            pair: frame.pair,
            ..view
        };
        while let Some(name) = frame.names.pop() {
            if view.is_open(name) {
                self.frames.push(frame)?;
                return Ok((Some(Wish::Split { name }), Some(Task::Enter { name })));
            }
        }
        Ok((None, Some(Task::Follow(frame.rest))))
    }

    // Goes on where the name holds: with the goals at the names around it, or with one of them that holds.
    fn enter(&mut self, view: View, name: usize) -> Result<Done, Memory> {
        let Some(frame) = self.frames.last() else {
            return Ok((None, None));
        };
        if frame.part == CheckPart::Integrity {
            self.pair = Some(name);
        }
        let view = View {
            pair: self.pair,
            ..view
        };
        let goals = goals_inside(self.alloc, view, frame, name)?;
        let is_decided = goals.is_empty()
            || goals.iter().any(|goal| view.all_hold(goal.conjunction));
        if !is_decided && let Some(other) = refusing(self.alloc, view, &frame.rest.others)? {
            return Ok((Some(block(other)), None));
        }
        let following = Following {
            guide: frame.rest.guide,
            goals,
            others: frame.rest.others.clone()?,
        };
        Ok((None, Some(Task::Follow(following))))
    }
}

// One of these policies of the first list that can't hold any more.
fn refusing(alloc: Global, view: View, firsts: &[usize]) -> Result<Option<usize>, Memory> {
    for first in firsts {
        if let Some(answer) = first_answer(view.question, *first)
            && !can_hold(alloc, view, answer)?
        {
            return Ok(Some(*first));
        }
    }
    Ok(None)
}

// The wish that a policy of the first list ends the branch.
fn block(first: usize) -> Wish {
    match u32::try_from(first) {
        Ok(policy) => Wish::Block { policy },
        Err(_) => Wish::Nothing,
    }
}

// The frame of a part: its open names, and what is followed where none of them holds.
fn frame_on(
    alloc: Global,
    view: View,
    cover: &Cover,
    part: CheckPart,
    following: Following,
) -> Result<Frame, Memory> {
    let mut open = Vec::new(alloc);
    let mut held = Vec::new(alloc);
    for goal in following.goals {
        match view.name_on(goal.conjunction, part) {
            Some(name) if !view.holds(name) => open.push(goal)?,
            _ => held.push(goal)?,
        }
    }
    let on_part = |goal: &Goal| view.name_on(goal.conjunction, part);
    open.sort_by(|one, other| on_part(one).cmp(&on_part(other)))?;
    Ok(Frame {
        part,
        names: names_on(alloc, view, cover, part, &open)?,
        open,
        rest: Following {
            guide: following.guide,
            goals: held,
            others: following.others,
        },
        place: view.place(part),
        pair: view.pair,
    })
}

// The open names of goals on a part, the outer ones first: they are taken from the end. Before a pair of
// integrity metadata can meet the second list's policy, all that this policy refuses has to be denied.
fn names_on(
    alloc: Global,
    view: View,
    cover: &Cover,
    part: CheckPart,
    open: &[Goal],
) -> Result<Vec<usize>, Memory> {
    let mut names = Vec::new(alloc);
    names.extend(
        open.iter()
            .filter_map(|goal| view.name_on(goal.conjunction, part)),
    )?;
    names.dedup();
    if part == CheckPart::Integrity
        && open.iter().any(|goal| goal.met)
        && let Some(rule) = cover.answer().integrity()
    {
        names.retain(|name| cover.pair_place(*name).is_some());
        let others = rule.others.iter().copied();
        names.extend(others.filter(|pair| view.is_open(*pair)))?;
        if view.is_open(rule.outside) {
            names.push(rule.outside)?;
        }
    }
    Ok(names)
}

// The goals that can hold where the name does, or one that holds.
fn goals_inside(
    alloc: Global,
    view: View,
    frame: &Frame,
    name: usize,
) -> Result<Vec<Goal>, Memory> {
    let mut goals = Vec::new(alloc);
    let on_part = |goal: &Goal| view.name_on(goal.conjunction, frame.part);
    let mut next = Some(name);
    while let Some(outer) = next {
        if Some(outer) == frame.place {
            break;
        }
        let from = frame.open.partition_point(|goal| on_part(goal) < next);
        let to = frame.open.partition_point(|goal| on_part(goal) <= next);
        for goal in frame.open.get(from..to).unwrap_or(&[]) {
            if view.all_hold(goal.conjunction) {
                return Ok(vec![in alloc; *goal]?);
            }
            goals.push(*goal)?;
        }
        next = view.outer(outer);
    }
    goals.extend_from_slice(&frame.rest.goals)?;
    Ok(goals)
}
