//! Rounds over the candidates of a list, until none can go.
ghost use Rattle.std.specs.Prelude.{◌≡◌, IfOk, IsTrue};
ghost use Rattle.csp_model.specs.Policies.{IsReadable};
ghost use Rattle.csp_tidy.specs.Asking as spec;
ghost use Rattle.csp_tidy.specs.Candidates.{IsCandidate};

use crate::asking::{TokenUse, ask};
use crate::candidates::{candidates, is_candidate};
use crate::place::TokenPlace;
use crate::tidying::Needed;
use csp_model::{Duplicate, List, Memory, PolicyList};
use std::alloc::Global;

// A list of which nothing can go, and an entry for each of its candidates.
#[derive(Drop)]
pub(crate) struct Settled {
    pub(crate) list: PolicyList,
    pub(crate) needed: List<Needed>,
}

// What comes of a round.
#[derive(Drop)]
pub(crate) enum Round {
    // Each candidate stays: an entry for each.
    Settled { needed: List<Needed> },
    // An equivalent list without at least one of them.
    Thinner { list: PolicyList },
}

// Goes round until no candidate can be taken away. One token that goes can let another one go.
pub(crate) fn settle(alloc: Global, list: &PolicyList) -> Result<Settled, Memory>
    requires readable { IsReadable list.now }
    ensures { IfOk result (spec.IsSettled list.now) }
{
    let mut current = list.copy(alloc)?;
    loop {
        match go_round(alloc, &current)? {
            Round::Settled { needed } => {
                return Ok(Settled {
                    list: current,
                    needed,
                });
            }
            Round::Thinner { list: thinner } => current = thinner,
        }
    }
}

// Asks of each candidate, from the last to the first, whether it can go.
fn go_round(alloc: Global, list: &PolicyList) -> Result<Round, Memory>
    requires readable { IsReadable list.now }
    ensures { IfOk result (spec.IsRound list.now) }
{
    let mut places = candidates(alloc, list)?;
    let mut needed = Vec::new(alloc);
    while let Some(place) = places.pop() {
        match ask(alloc, list, place)? {
            TokenUse::Needed { needed: entry } => needed.push(entry)?,
            TokenUse::Spare { list: thinner } => {
                let list = thin(alloc, thinner, places)?;
                return Ok(Round::Thinner { list });
            }
        }
    }
    needed.reverse();
    Ok(Round::Settled {
        needed: List::from_vec(needed),
    })
}

// Takes away what can go of the tokens at these places, from the last to the first.
fn thin(alloc: Global, list: PolicyList, places: Vec<TokenPlace>) -> Result<PolicyList, Memory>
    requires readable { IsReadable list }
    ensures { IfOk result (spec.IsThinner list) }
{
    let mut current = list;
    let mut places = places;
    while let Some(place) = places.pop() {
        if is_candidate(&current, place)
            && let TokenUse::Spare { list: thinner } = ask(alloc, &current, place)?
        {
            current = thinner;
        }
    }
    Ok(current)
}
