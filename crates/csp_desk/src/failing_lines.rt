//! A reporter that is told when to refuse.
ghost use Rattle.std.specs.Prelude.{◌≡◌, ◌↔◌, ◌≤◌, ◌∷◌, ◌++◌, [], true, OnOk, OnErr, IsErrOf, Contains};
ghost use Rattle.csp_io.specs.Told.{Rose};
ghost use Rattle.csp_desk.specs.declared.reporter.Kind.TheVariants as kinds;

use crate::lines::Lines;
use crate::reporter::{AcceptError, Kind, Reporter};
use crate::telling::Telling;
use csp_model::{Bytes, List, Memory, Violation};
use std::alloc::Global;

/// Prints as `Lines` does, and refuses the calls of `accept` that it is told.
#[derive(Debug, Drop)]
pub struct FailingLines {
    lines: Lines,
    failing: List<u64>,
    calls: u64,
    faults: u64,
}

impl FailingLines {
    ghost use Rattle.csp_desk.specs.FailingLines.{failing_calls, next_call};

    /// A reporter that holds nothing, and refuses the calls of `accept` whose numbers, counted from 0, are in
    /// `failing`. It keeps the allocator, and takes no memory.
    pub fn new(alloc: Global, failing: List<u64>) -> FailingLines
        ensures kind { ⟦<FailingLines as Reporter>⟧.kind result ≡ kinds.Lines }
        ensures held { ⟦<FailingLines as Reporter>⟧.held result ≡ [] }
        ensures faults { ⟦<FailingLines as Reporter>⟧.faults result ≡ 0 }
        ensures may_refuse { ⟦<FailingLines as Reporter>⟧.may_refuse result ≡ true }
        ensures failing { failing_calls result ≡ failing }
        ensures next { next_call result ≡ 0 }
    {
        FailingLines {
            lines: Lines::new(alloc),
            failing,
            calls: 0,
            faults: 0,
        }
    }
}

impl Reporter for FailingLines {
    ghost use Rattle.csp_desk.specs.FailingLines.{failing_held, failing_faults, failing_calls, next_call};
    ghost use Rattle.csp_desk.specs.FailingLines.{IsCounted};

    ghost kind = { λ _. kinds.Lines };

    ghost held = { failing_held };

    ghost faults = { failing_faults };

    ghost may_refuse = { λ _. true };

    fn kind(&self) -> Kind {
        Kind::Lines
    }

    fn accept(&mut self, alloc: Global, violation: &Violation) -> Result<(), AcceptError>
        ensures later { failing_faults self.old ≤ failing_faults self.new }
        ensures took { OnOk result (failing_held self.new ≡ failing_held self.old ++ violation.now ∷ []) }
        ensures refused { OnErr result (failing_held self.new ≡ failing_held self.old) }
        ensures cause { IsErrOf result AcceptError.Refused
            → Rose (failing_faults self.old) (failing_faults self.new) }
        ensures no_fault { (IsErrOf result AcceptError.Refused → ⊥)
            → failing_faults self.new ≡ failing_faults self.old }

        // It refuses exactly the calls that it was told.
        ensures fails { IsErrOf result AcceptError.Refused
            ↔ Contains (failing_calls self.old) (next_call self.old) }
        ensures counted { IsCounted self.old self.new }
    {
        let call = self.calls;
        self.calls = call.saturating_add(1);
        if self.failing.as_slice().contains(&call) {
            self.faults = self.faults.saturating_add(1);
            return Err(AcceptError::Refused);
        }
        self.lines.push(alloc, violation)?;
        Ok(())
    }

    fn text(&self, alloc: Global) -> Result<Bytes, Memory> {
        self.lines.text(alloc)
    }

    fn tell(&self, alloc: Global) -> Result<Telling<'_>, Memory> {
        self.lines.tell(alloc)
    }
}
