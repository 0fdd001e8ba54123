//! The pairs of lists.
ghost use Rattle.std.specs.Prelude.{◌≡◌, ◌≤◌, ◌<◌, ◌+◌, ◌-◌, IfOk, map};
ghost use Rattle.csp_order.specs.Pairs as spec;

use csp_model::Memory;
use std::alloc::Global;

// How many lists are put in order at most.
pub(crate) const LIST_LIMIT: u32 = 16;

/// The numbers of two lists, counted from 1.
#[derive(Clone, Copy, Debug, PartialEq, Eq)]
pub struct Pair {
    pub first: u32,
    pub second: u32,
}

// The pairs of two different ones of so many lists, by the first and then by the second.
pub(crate) fn pairs(alloc: Global, count: u32) -> Result<Vec<Pair>, Memory>
    requires { count ≤ spec.list_limit }
    ensures { IfOk result (λ made. made.items ≡ spec.pairs count) }
{
    let mut made = Vec::new(alloc);
    for first in 1..count + 1 {
        for second in 1..count + 1 {
            if second != first {
                made.push(Pair { first, second })?;
            }
        }
    }
    Ok(made)
}
