//! A reporter that prints a count a directive.
ghost use Rattle.std.specs.List.{count_by};
ghost use Rattle.std.specs.Prelude.{◌≡◌, ◌∷◌, ◌++◌, ◌-◌, ◌^◌, [], false, OnOk, OnErr, IsErrOf};
ghost use Rattle.csp_desk.specs.Texts.{is_of};
ghost use Rattle.csp_desk.specs.declared.reporter.Kind.TheVariants as kinds;

use crate::counts::{NAMES, count, counts_text};
use crate::reporter::{AcceptError, Kind, Reporter};
use csp_model::{Bytes, Memory, Trace, Violation};
use std::alloc::Global;
use std::marker::Model;

/// Prints how many violations there are of each effective directive that occurs, in byte order of the names.
///
/// It keeps the counts and not the violations. It never answers `Refused`, and `Memory` only where the count
/// of the violation's directive would reach 2^64.
#[derive(Debug, Drop)]
pub struct Tally {
    // One for each name, in byte order of the names.
    counts: [usize; NAMES],
    history: Trace<Violation>,
}

impl Model for Tally {
    ghost use Rattle.std.specs.Prelude as std_words;
    ghost use Rattle.std.specs.Prelude.{◌≡◌};
    ghost use Rattle.csp_model.specs.declared.verdict.Violation.{Violation as ViolationValue};
    ghost use Rattle.csp_desk.specs.Texts.{counts_of};

    ghost Value = { std_words.List ViolationValue };

    ghost view = { λ a. a.history.items };

    ghost invariant = { λ a. a.counts ≡ counts_of a.history.items };
}

impl Tally {
    /// A reporter that holds nothing. It takes no memory.
    pub fn new(_alloc: Global) -> Tally
        ensures kind { ⟦<Tally as Reporter>⟧.kind result ≡ kinds.Tally }
        ensures held { ⟦<Tally as Reporter>⟧.held result ≡ [] }
        ensures faults { ⟦<Tally as Reporter>⟧.faults result ≡ 0 }
        ensures may_refuse { ⟦<Tally as Reporter>⟧.may_refuse result ≡ false }
    {
        Tally {
            counts: [0; NAMES],
            history: Trace::new(),
        }
    }

    // Counts a violation.
    fn push(&mut self, violation: &Violation) -> Result<(), Memory>
        ensures took { OnOk result (self.new ≡ self.old ++ violation.now ∷ []) }
        ensures full { OnErr result (count_by (is_of violation.now.effective) self.old ≡ 2 ^ 64 - 1) }
        ensures refused { OnErr result (self.new ≡ self.old) }
    {
        count(&mut self.counts, violation.effective)?;
        self.history = self.history.then(violation);
        Ok(())
    }
}

impl Reporter for Tally {
    ghost kind = { λ _. kinds.Tally };

    ghost held = { λ s. s };

    ghost faults = { λ _. 0 };

    ghost may_refuse = { λ _. false };

    fn kind(&self) -> Kind {
        Kind::Tally
    }

    fn accept(&mut self, _alloc: Global, violation: &Violation) -> Result<(), AcceptError>
        ensures took { OnOk result (self.new ≡ self.old ++ violation.now ∷ []) }
        ensures kept { OnErr result (self.new ≡ self.old) }
        ensures not_refused { IsErrOf result AcceptError.Refused → ⊥ }
        ensures full { OnErr result (count_by (is_of violation.now.effective) self.old ≡ 2 ^ 64 - 1) }
    {
        self.push(violation)?;
        Ok(())
    }

    fn text(&self, alloc: Global) -> Result<Bytes, Memory> {
        counts_text(alloc, &self.counts)
    }
}
