//! The search for a chain of pairs.
ghost use Rattle.std.specs.Prelude.{◌≡◌, ◌≢◌, ◌≤◌, All, Contains, IfOk, MatchOption};
ghost use Rattle.csp_order.specs.Chains.{IsApart, LeadsThrough};
ghost use Rattle.csp_order.specs.Pairs.{list_limit};
ghost use Rattle.csp_order.specs.Ways as spec;
ghost use Rattle.csp_order.specs.Ways.{IsClosed, GoesOn};

use crate::pair::Pair;
use crate::way::Way;
use csp_model::{List, Memory};
use std::alloc::Global;

// The lists on a chain of pairs from the first list of this pair to the second, breadth first.
pub(crate) fn chain(alloc: Global, pairs: &[Pair], ends: Pair) -> Result<Option<List<u32>>, Memory>
    requires few { ends.first ≤ list_limit }
    requires each { All (λ p. p.second ≤ list_limit) pairs.now }
    requires differ { ends.first ≢ ends.second }
    requires fresh { ¬ Contains pairs.now ends }
    ensures { IfOk result (λ found.
        MatchOption found (IsApart pairs.now ends) (LeadsThrough pairs.now ends)) }
{
    let mut ways = Vec::new(alloc);
    ways.push(Way {
        steps: Vec::new(alloc),
        end: ends.first,
    })?;
    while let Some((way, next)) = way_out(pairs, ways.as_slice()) {
        let mut steps = Vec::from_slice(alloc, way.steps.as_slice())?;
        if next == ends.second {
            return Ok(Some(List::from_vec(steps)));
        }
        steps.push(next)?;
        ways.push(Way { steps, end: next })?;
    }
    Ok(None)
}

// The first way from whose end a pair leads to a list that no way leads to yet, and that list.
fn way_out<'a>(pairs: &[Pair], ways: &'a [Way]) -> Option<(&'a Way, u32)>
    ensures { MatchOption result (IsClosed pairs.now ways.now)
        (λ found. GoesOn pairs.now ways.now found.0.now found.1) }
{
    for way in ways {
        for pair in pairs {
            if pair.first == way.end && !is_reached(ways, pair.second) {
                return Some((way, pair.second));
            }
        }
    }
    None
}

// Whether some way leads to a list.
fn is_reached(ways: &[Way], list: u32) -> bool
    ensures { result ≡ spec.is_reached ways.now list }
{
    ways.iter().any(|way| list == way.end)
}
