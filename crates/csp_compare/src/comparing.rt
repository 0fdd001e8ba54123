//! The comparison of two lists.
ghost use Rattle.std.specs.Prelude.{IfOk};
ghost use Rattle.csp_compare.specs.Answers.{IsAnswer};
ghost use Rattle.csp_model.specs.Policies.{IsReadable};

use crate::comparison::Comparison;
use csp_model::{Check, Memory, PolicyList};
use csp_proof::Proof;
use std::alloc::Global;

/// Whether the second of two lists allows every valid check that the first allows.
#[derive(Debug, Drop)]
pub enum Answer {
    /// It does: a proof of the second format, in which no two trees have equal nodes of their own.
    Subsumed { proof: Proof },
    /// It doesn't: a valid check that the first list allows and the second doesn't.
    Counterexample { check: Check },
}

/// Compares two lists of policies, as reading makes them.
pub fn compare(alloc: Global, first: &PolicyList, second: &PolicyList) -> Result<Answer, Memory>
    requires first { IsReadable first.now }
    requires second { IsReadable second.now }
    ensures { IfOk result (IsAnswer first.now second.now) }
{
    let (comparison, mut walker) = Comparison::new(alloc, first, second)?;
    comparison.answer(&mut walker)
}
