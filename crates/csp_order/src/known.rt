//! The reasons of pairs, found one after the other.
ghost use Rattle.std.specs.Prelude.{◌≡◌, ◌≤◌, ◌++◌, [], All, Contains, IfOk, length};
ghost use Rattle.csp_model.specs.Policies.{IsReadable};
ghost use Rattle.csp_order.specs.Chains.{IsApart};
ghost use Rattle.csp_order.specs.Pairs.{IsPair, list_limit};
ghost use Rattle.csp_order.specs.Relations as spec;
ghost use Rattle.csp_order.specs.Relations.{HasProof, IsReason, proved_by};

use crate::carrying::answer;
use crate::chain::chain;
use crate::pair::Pair;
use crate::relation::{Because, Relation};
use crate::trials::Trials;
use csp_compare::Answer;
use csp_model::{Memory, PolicyList};
use std::alloc::Global;
use std::marker::Model;

// What is known of lists so far: the pairs that have a proof, and the checks that told lists apart.
#[derive(Drop)]
pub(crate) struct Known<'a> {
    lists: &'a [PolicyList],
    proved: Vec<Pair>,
    trials: Trials<'a>,
}

impl<'a> Model for Known<'a> {
    ghost use Rattle.std.specs.Prelude.{◌≡◌};
    ghost use Rattle.csp_order.specs.Relations as relations;
    ghost use Rattle.csp_order.specs.Relations.{IsKnown};

    ghost Value = { relations.Known };

    ghost view = { λ a. record { lists = a.lists.now; proved = a.proved.items } };

    ghost invariant = { λ a. (a.trials ≡ a.lists.now) × IsKnown a.lists.now a.proved.items };
}

impl<'a> Known<'a> {
    // Nothing is known yet. Each list is made ready for checks.
    pub(crate) fn new(alloc: Global, lists: &'a [PolicyList]) -> Result<Known<'a>, Memory>
        requires few { length lists.now ≤ list_limit }
        requires readable { All IsReadable lists.now }
        ensures { IfOk result (λ made. made ≡ record { lists = lists.now; proved = [] }) }
    {
        Ok(Known {
            lists,
            proved: Vec::new(alloc),
            trials: Trials::new(alloc, lists)?,
        })
    }

    // The reason of a pair that has no proof yet, behind these relations. A chain is looked for first; then the
    // checks that told other lists apart are tried, since that takes microseconds; then the proofs of earlier
    // pairs; then the lists are compared.
    pub(crate) fn reason(
        &mut self,
        alloc: Global,
        pair: Pair,
        earlier: &[Relation],
    ) -> Result<Because, Memory>
        requires pair { IsPair (length self.old.lists) pair }
        requires fresh { ¬ Contains self.old.proved pair }
        requires proofs { All (HasProof self.old.lists) earlier.now }
        ensures reason { IfOk result (IsReason self.old.lists self.old.proved pair) }
        ensures known { IfOk result (λ because. self.new
            ≡ record self.old { proved = self.old.proved ++ proved_by pair because }) }
    {
        if let Some(lists) = chain(alloc, self.proved.as_slice(), pair)? {
            return Ok(Because::Through { lists });
        }
        if let Some(check) = self.trials.difference(alloc, pair)? {
            return Ok(Because::Check { check });
        }
        self.prove(alloc, pair, earlier)
    }

    // Proves a pair to which no chain leads, or finds a check that tells its lists apart.
    fn prove(&mut self, alloc: Global, pair: Pair, earlier: &[Relation]) -> Result<Because, Memory>
        requires pair { IsPair (length self.old.lists) pair }
        requires apart { IsApart self.old.proved pair }
        requires proofs { All (HasProof self.old.lists) earlier.now }
        ensures reason { IfOk result (IsReason self.old.lists self.old.proved pair) }
        ensures known { IfOk result (λ because. self.new
            ≡ record self.old { proved = self.old.proved ++ proved_by pair because }) }
    {
        match answer(alloc, self.lists, earlier, pair)? {
            Answer::Subsumed { proof } => {
                self.proved.push(pair)?;
                Ok(Because::Proof { proof })
            }
            Answer::Counterexample { check } => {
                self.trials.add(alloc, &check)?;
                Ok(Because::Check { check })
            }
        }
    }
}
