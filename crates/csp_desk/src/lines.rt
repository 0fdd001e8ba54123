//! A reporter that prints a report a line.
ghost use Rattle.std.specs.Prelude.{◌≡◌, ◌∷◌, ◌++◌, [], false, OnOk, OnErr, IsErrOf};
ghost use Rattle.csp_desk.specs.declared.reporter.Kind.TheVariants as kinds;

use crate::reporter::{AcceptError, Kind, Reporter};
use crate::telling::{Telling, concatenate};
use crate::weave::Weave;
use csp_model::{Bytes, Memory, Trace, Violation};
use std::alloc::Global;
use std::marker::Model;

/// Prints the report of each violation on a line of its own.
///
/// It keeps what it prints and not the violations, and once what many lines have behind what is blocked. It
/// never answers `Refused`.
#[derive(Debug, Drop)]
pub struct Lines {
    text: Weave,
    history: Trace<Violation>,
}

impl Model for Lines {
    ghost use Rattle.std.specs.Prelude as std_words;
    ghost use Rattle.std.specs.Prelude.{◌≡◌};
    ghost use Rattle.csp_model.specs.declared.verdict.Violation.{Violation as ViolationValue};
    ghost use Rattle.csp_desk.specs.Texts.{lines_text};

    ghost Value = { std_words.List ViolationValue };

    ghost view = { λ a. a.history.items };

    ghost invariant = { λ a. a.text ≡ lines_text a.history.items };
}

impl Lines {
    /// A reporter that holds nothing. It keeps the allocator, and takes no memory.
    pub fn new(alloc: Global) -> Lines
        ensures kind { ⟦<Lines as Reporter>⟧.kind result ≡ kinds.Lines }
        ensures held { ⟦<Lines as Reporter>⟧.held result ≡ [] }
        ensures faults { ⟦<Lines as Reporter>⟧.faults result ≡ 0 }
        ensures may_refuse { ⟦<Lines as Reporter>⟧.may_refuse result ≡ false }
    {
        Lines {
            text: Weave::new(alloc),
            history: Trace::new(),
        }
    }

    // Prints a violation behind those that it holds.
    pub(crate) fn push(&mut self, alloc: Global, violation: &Violation) -> Result<(), Memory>
        ensures took { OnOk result (self.new ≡ self.old ++ violation.now ∷ []) }
        ensures refused { OnErr result (self.new ≡ self.old) }
    {
        self.text.push(alloc, violation)?;
        self.history = self.history.then(violation);
        Ok(())
    }
}

impl Reporter for Lines {
    ghost kind = { λ _. kinds.Lines };

    ghost held = { λ s. s };

    ghost faults = { λ _. 0 };

    ghost may_refuse = { λ _. false };

    fn kind(&self) -> Kind {
        Kind::Lines
    }

    fn accept(&mut self, alloc: Global, violation: &Violation) -> Result<(), AcceptError>
        ensures took { OnOk result (self.new ≡ self.old ++ violation.now ∷ []) }
        ensures kept { OnErr result (self.new ≡ self.old) }
        ensures not_refused { IsErrOf result AcceptError.Refused → ⊥ }
    {
        self.push(alloc, violation)?;
        Ok(())
    }

    fn text(&self, alloc: Global) -> Result<Bytes, Memory> {
        let pieces = self.text.pieces(alloc)?;
        concatenate(alloc, pieces.as_slice())
    }

    fn tell(&self, alloc: Global) -> Result<Telling<'_>, Memory> {
        Ok(Telling::Held(self.text.pieces(alloc)?))
    }
}
