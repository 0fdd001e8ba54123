//! A reporter that prints the last reports.
ghost use Rattle.std.specs.Prelude.{◌≡◌, ◌∷◌, ◌++◌, [], false, OnOk, OnErr, IsErrOf};
ghost use Rattle.csp_desk.specs.declared.reporter.Kind.TheVariants as kinds;

use crate::reporter::{AcceptError, Kind, Reporter};
use crate::texts::latest_text;
use csp_model::{Bytes, Duplicate, Memory, Trace, Violation};
use std::alloc::Global;
use std::collections::VecDeque;
use std::marker::Model;

/// Prints the reports of the last violations, `limit` at most, behind the number of those before them.
///
/// It keeps these alone, and never answers `Refused`. It answers `Memory` also where that number would reach
/// 2^64.
#[derive(Debug, Drop)]
pub struct Recent {
    latest: VecDeque<Violation>,
    earlier: usize,
    limit: u32,
    history: Trace<Violation>,
}

impl Model for Recent {
    ghost use Rattle.csp_desk.specs.Recent.{LimitedHistory, IsLatest};

    ghost Value = { LimitedHistory };

    ghost view = { λ a. record { limit = a.limit; held = a.history.items } };

    ghost invariant = { λ a. IsLatest a.limit a.history.items a.earlier a.latest.items };
}

impl Recent {
    /// A reporter that holds nothing. It keeps the allocator, and takes no memory.
    pub fn new(alloc: Global, limit: u32) -> Recent
        ensures kind { ⟦<Recent as Reporter>⟧.kind result ≡ kinds.Recent limit }
        ensures held { ⟦<Recent as Reporter>⟧.held result ≡ [] }
        ensures faults { ⟦<Recent as Reporter>⟧.faults result ≡ 0 }
        ensures may_refuse { ⟦<Recent as Reporter>⟧.may_refuse result ≡ false }
    {
        Recent {
            latest: VecDeque::new(alloc),
            earlier: 0,
            limit,
            history: Trace::new(),
        }
    }

    // Keeps a copy of a violation as the last one, and lets the first one go where there are too many.
    fn push(&mut self, alloc: Global, violation: &Violation) -> Result<(), Memory>
        ensures limit { self.new.limit ≡ self.old.limit }
        ensures took { OnOk result (self.new.held ≡ self.old.held ++ violation.now ∷ []) }
        ensures refused { OnErr result (self.new.held ≡ self.old.held) }
    {
        let Some(earlier) = self.earlier.checked_add(1) else {
            return Err(Memory);
        };
        let copy = violation.copy(alloc)?;
        self.latest.push_back(copy)?;
        if self.latest.len() > self.limit as usize {
            self.latest.pop_front();
            self.earlier = earlier;
        }
        self.history = self.history.then(violation);
        Ok(())
    }
}

impl Reporter for Recent {
    ghost kind = { λ r. kinds.Recent r.limit };

    ghost held = { λ r. r.held };

    ghost faults = { λ _. 0 };

    ghost may_refuse = { λ _. false };

    fn kind(&self) -> Kind {
        Kind::Recent { limit: self.limit }
    }

    fn accept(&mut self, alloc: Global, violation: &Violation) -> Result<(), AcceptError>
        ensures limit { self.new.limit ≡ self.old.limit }
        ensures took { OnOk result (self.new.held ≡ self.old.held ++ violation.now ∷ []) }
        ensures kept { OnErr result (self.new.held ≡ self.old.held) }
        ensures not_refused { IsErrOf result AcceptError.Refused → ⊥ }
    {
        self.push(alloc, violation)?;
        Ok(())
    }

    fn text(&self, alloc: Global) -> Result<Bytes, Memory> {
        latest_text(alloc, self.earlier, &self.latest)
    }
}
