//! Where a list of policies allows what another doesn't: one check for each effective directive.
ghost use Rattle.std.specs.Prelude.{IfOk};
ghost use Rattle.csp_compare.specs.Differences as spec;
ghost use Rattle.csp_model.specs.Policies.{IsReadable};

use crate::comparison::Comparison;
use csp_model::{Check, List, Memory, Name, PolicyList};
use std::alloc::Global;

/// That the first of two lists allows more than the second under one effective directive.
#[derive(Debug, Drop)]
pub struct Difference {
    /// The effective directive of the check.
    pub directive: Name,
    /// A valid check that the first list allows and the second doesn't.
    pub check: Check,
}

/// The differences under all effective directives, in the order of their names: one for each under which the
/// first list allows a valid check that the second doesn't. No proof is made; `compare` makes one where there
/// are none.
pub fn find_differences(
    alloc: Global,
    first: &PolicyList,
    second: &PolicyList,
) -> Result<List<Difference>, Memory>
    requires first { IsReadable first.now }
    requires second { IsReadable second.now }
    ensures { IfOk result (spec.AreDifferences first.now second.now) }
{
    let (comparison, mut walker) = Comparison::new(alloc, first, second)?;
    comparison.differences(&mut walker)
}
