//! One check that a list of policies allows and another doesn't, without a proof where there is none.
ghost use Rattle.std.specs.Prelude.{IfOk};
ghost use Rattle.csp_compare.specs.Differences.{IsDifferenceAmong};
ghost use Rattle.csp_model.specs.Policies.{IsReadable};

use crate::comparison::Comparison;
use csp_model::{Check, Memory, Name, PolicyList};
use std::alloc::Global;
use std::collections::BTreeSet;

/// A valid check with one of these effective directives that the first of two lists allows and the second
/// doesn't. None comes exactly where the second list allows every such check that the first allows. No proof
/// is made; `compare` makes one.
pub fn find_difference_among(
    alloc: Global,
    first: &PolicyList,
    second: &PolicyList,
    effective: &[Name],
) -> Result<Option<Check>, Memory>
    requires first { IsReadable first.now }
    requires second { IsReadable second.now }
    ensures { IfOk result (IsDifferenceAmong effective.now first.now second.now) }
{
    let (comparison, mut walker) = Comparison::new(alloc, first, second)?;
    comparison.difference_among(&mut walker, effective, &mut BTreeSet::new(alloc))
}
