//! Tidying a list of policies.
ghost use Rattle.std.specs.Prelude.{IfOk};
ghost use Rattle.csp_compare.specs.Answers.{IsPrinted};
ghost use Rattle.csp_model.specs.Inclusion.{Subsumes};
ghost use Rattle.csp_model.specs.Policies.{IsReadable};
ghost use Rattle.csp_tidy.specs.Tidied as spec;

use crate::rounds::{Settled, settle};
use csp_compare::{Answer, compare};
use csp_model::{Check, List, Memory, PolicyList};
use csp_proof::Proof;
use std::alloc::Global;

/// Why a token can't be taken away.
#[derive(Debug, Drop)]
pub struct Needed {
    /// The number of the token's policy in the list, counted from 0.
    pub policy: u32,
    /// The number of its directive in the policy, counted from 0.
    pub directive: u32,
    /// The number of the token in the directive, counted from 0.
    pub token: u32,
    /// Whether the list with the token allows the check. The list without it answers otherwise.
    pub allowed_with: bool,
    pub check: Check,
}

/// A list of which no token can be taken away.
#[derive(Debug, Drop)]
pub struct Tidied {
    pub list: PolicyList,
    /// An entry for each token that could be taken away by its kind, ordered by policy, directive and token.
    pub needed: List<Needed>,
    /// A proof that this list allows what the old one allows.
    pub forward: Proof,
    /// A proof that the old list allows what this one allows.
    pub backward: Proof,
}

/// Takes tokens of enforced policies away until none can go without a change of what the list allows. What
/// stays is not always the shortest list that allows the same. Of two equal tokens the later one goes.
///
/// The tokens are those of the directives that decide by sources: the fetch directives, `base-uri`,
/// `form-action` and `frame-ancestors`. A directive without tokens stays, since it allows nothing, and
/// `'report-sample'` stays, since it allows nothing anyway.
pub fn tidy(alloc: Global, list: &PolicyList) -> Result<Tidied, Memory>
    requires { IsReadable list.now }
    ensures { IfOk result (spec.IsTidied list.now) }
{
    let Settled {
        list: thinned,
        needed,
    } = settle(alloc, list)?;
    let forward = inclusion(alloc, list, &thinned)?;
    let backward = inclusion(alloc, &thinned, list)?;
    Ok(Tidied {
        list: thinned,
        needed,
        forward,
        backward,
    })
}

// A proof that the second list allows what the first allows, where it does.
fn inclusion(alloc: Global, first: &PolicyList, second: &PolicyList) -> Result<Proof, Memory>
    requires first { IsReadable first.now }
    requires second { IsReadable second.now }
    requires subsumes { Subsumes first.now second.now }
    ensures { IfOk result (IsPrinted first.now second.now) }
{
    match compare(alloc, first, second)? {
        Answer::Subsumed { proof } => Ok(proof),
        Answer::Counterexample { .. } => unreachable!(),
    }
}
