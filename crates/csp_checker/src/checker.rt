//! The checker.
ghost use Rattle.std.specs.Prelude.{◌≡◌, IfOk, IsOk, MatchResult, Some, None};
ghost use Rattle.csp_model.specs.Inclusion.{Subsumes};
ghost use Rattle.csp_model.specs.Policies.{IsReadable};
ghost use Rattle.csp_proof.specs.Accepts.{first_bad_node};
ghost use Rattle.csp_proof.specs.WellFormed.{IsWellFormed};
ghost use Rattle.csp_checker.specs.Checked.{Claim};

use crate::making::{pairs_of, splits_of, unmet_of};
use crate::prepared_claim::PreparedClaim;
use crate::trees::first_bad_line;
use csp_answer::{NamedAnswers, answers_of};
use csp_branch::Walker;
use csp_facts::vocabulary_of;
use csp_model::{Memory, PolicyList};
use csp_proof::Proof;
use csp_proof::laws::what_is_accepted_is_so;
use std::alloc::Global;
use std::marker::Model;

/// A proof breaks a rule.
#[derive(Clone, Copy, Debug, PartialEq, Eq)]
pub struct Rejected {
    /// The first line of the proof's text that breaks one, counted from 1.
    pub line: u128,
}

/// A checker of one proof that a list of policies is at least as strict as another.
#[derive(Drop)]
pub struct Checker<'a> {
    asked: PreparedClaim<'a>,
    walker: Walker,
}

impl<'a> Model for Checker<'a> {
    ghost use Rattle.csp_model.specs.Policies.{IsReadable};
    ghost use Rattle.csp_checker.specs.PreparedClaim.{Fits, IsAsked};
    ghost use Rattle.csp_checker.specs.Checked.{Claim};

    ghost Value = { Claim };

    ghost view = { λ c. record {
      first = c.asked.first.now;
      second = c.asked.second.now;
      proof = c.asked.proof.now;
    } };

    ghost invariant = { λ c. IsReadable c.asked.first.now × IsReadable c.asked.second.now
        × IsAsked c.asked × Fits c.asked c.walker };
}

impl<'a> Checker<'a> {
    /// A checker of this proof, with all the memory that it needs.
    pub fn new(
        alloc: Global,
        first: &'a PolicyList,
        second: &'a PolicyList,
        proof: &'a Proof,
    ) -> Result<Checker<'a>, Memory>
        requires first { IsReadable first.now }
        requires second { IsReadable second.now }
        requires formed { IsWellFormed proof.now }
        ensures { IfOk result (λ checker. checker
            ≡ record { first = first.now; second = second.now; proof = proof.now }) }
    {
        let trees = proof.trees.as_slice();
        let vocabulary = vocabulary_of(alloc, first, second)?;
        let splits = splits_of(alloc, trees)?;
        let NamedAnswers { names, table } = answers_of(
            alloc,
            first,
            second,
            &vocabulary,
            &splits.atoms,
        )?;
        let _last_line = proof.last_line;
        let asked = PreparedClaim {
            first,
            second,
            proof,
            table,
            pairs: pairs_of(alloc, second)?,
            unmet: unmet_of(alloc, trees)?,
        };
        let walker = Walker::new(alloc, names, splits.most)?;
        Ok(Checker { asked, walker })
    }

    /// Whether the proof keeps all rules. Then every valid check that the first list allows the second
    /// allows.
    ///
    /// Takes no memory, and gives the same answer each time.
    pub fn accepts(&mut self) -> Result<(), Rejected>
        ensures verdict { MatchResult result
            (λ _. first_bad_node self.old.first self.old.second self.old.proof ≡ None)
            (λ rejected. first_bad_node self.old.first self.old.second self.old.proof ≡ Some rejected.line) }
        ensures subsumes { IsOk result → Subsumes self.old.first self.old.second }
        ensures unchanged { self.new ≡ self.old }
    {
        what_is_accepted_is_so();
        match first_bad_line(&self.asked, &mut self.walker) {
            Some(line) => Err(Rejected { line }),
            None => Ok(()),
        }
    }
}
