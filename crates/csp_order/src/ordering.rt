//! The relations of many lists.
ghost use Rattle.std.specs.Prelude.{◌≡◌, ◌≤◌, ◌↔◌, All, IfOk, IsTrue, length};
ghost use Rattle.csp_model.specs.Policies.{IsReadable};
ghost use Rattle.csp_order.specs.Pairs.{list_limit};
ghost use Rattle.csp_order.specs.Relations.{Includes, IsOrder, is_yes, pair_of};

use crate::known::Known;
use crate::pair::pairs;
use crate::relation::Relation;
use csp_model::{List, Memory, PolicyList};
use std::alloc::Global;

/// Says of each two of 2 to 16 lists of policies, as reading makes them, whether the second allows all that the
/// first allows, and why. The lists count from 1. The pairs come by their first list, and then by their second.
pub fn order(alloc: Global, lists: &List<PolicyList>) -> Result<List<Relation>, Memory>
    requires some { 2 ≤ length lists.now }
    requires few { length lists.now ≤ list_limit }
    requires readable { All IsReadable lists.now }
    ensures order { IfOk result (IsOrder lists.now) }
    // A pair has a proof or a chain exactly where the second list allows all that the first allows.
    ensures inclusion { IfOk result (λ relations.
        All (λ r. IsTrue (is_yes r.because) ↔ Includes lists.now (pair_of r)) relations) }
{
    let mut known = Known::new(alloc, lists.as_slice())?;
    let mut relations = List::new(alloc);
    let all = pairs(alloc, lists.len() as u32)?;
    for pair in all.as_slice() {
        let because = known.reason(alloc, *pair, relations.as_slice())?;
        relations.push(Relation {
            first: pair.first,
            second: pair.second,
            because,
        })?;
    }
    Ok(relations)
}
