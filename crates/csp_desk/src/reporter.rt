//! What takes violations.
ghost use Rattle.std.specs.Prelude.{◌≡◌, ◌≤◌, ◌∷◌, ◌++◌, [], ℕ, Bool, List as Items, OnOk, OnErr, IfOk};
ghost use Rattle.std.specs.Prelude.{IsErrOf, IsTrue};
ghost use Rattle.csp_io.specs.Told.{Rose};
ghost use Rattle.csp_model.specs.declared.verdict.Violation.{Violation as ViolationValue};
ghost use Rattle.csp_desk.specs.declared.reporter.AcceptError.TheVariants as accept_error;

use crate::telling::Telling;
use csp_model::{Bytes, Memory, Violation};
use std::alloc::Global;
use thiserror::Error;

/// What a reporter tells of the violations that it holds.
#[derive(Clone, Copy, Debug, PartialEq, Eq)]
pub enum Kind {
    /// A report of each violation, one a line.
    Lines,

    /// A line with the number of violations for each effective directive that occurs.
    Tally,

    /// The reports of the last `limit` violations, behind the number of those before them.
    Recent { limit: u32 },
}

/// Why a reporter didn't take a violation.
#[derive(Clone, Copy, Debug, PartialEq, Eq, Error)]
pub enum AcceptError {
    /// The reporter refused, and its count of faults rose.
    #[error("the reporter refused the violation")]
    Refused,

    /// There was no memory.
    #[error("no memory")]
    Memory,
}

impl From<Memory> for AcceptError {
    ghost from_gives = { λ _ error. error ≡ accept_error.Memory };

    fn from(_: Memory) -> AcceptError {
        AcceptError::Memory
    }
}

/// Takes violations, and tells them as a text.
///
/// A reporter of another crate says which violations it holds, and may print them by `text_of`.
pub trait Reporter: Drop {
    ghost use Rattle.csp_desk.specs.declared.reporter.Kind.{Kind as KindValue};
    ghost use Rattle.csp_desk.specs.Tellings.{telling_text};
    ghost use Rattle.csp_desk.specs.Texts.{report_text};

    /// Its kind, which no call changes.
    ghost kind: { Self → KindValue };

    /// The violations that it took, in order.
    ghost held: { Self → Items ViolationValue };

    /// How often it has refused one. It never falls.
    ghost faults: { Self → ℕ };

    /// Whether it may refuse one at all, which no call changes.
    ghost may_refuse: { Self → Bool };

    /// Its kind.
    fn kind(&self) -> Kind
        ensures { result ≡ kind self.now };

    /// Takes a violation, behind those that it holds.
    ///
    /// It answers `Refused` only if it is one that may, and only where the count of faults rose. After either
    /// error it holds what it held.
    fn accept(&mut self, alloc: Global, violation: &Violation) -> Result<(), AcceptError>
        ensures same_kind { kind self.new ≡ kind self.old }
        ensures same_may_refuse { may_refuse self.new ≡ may_refuse self.old }
        ensures later { faults self.old ≤ faults self.new }
        ensures took { OnOk result (held self.new ≡ held self.old ++ violation.now ∷ []) }
        ensures refused { OnErr result (held self.new ≡ held self.old) }
        ensures may { IsErrOf result AcceptError.Refused → IsTrue (may_refuse self.old) }
        ensures cause { IsErrOf result AcceptError.Refused → Rose (faults self.old) (faults self.new) }
        ensures no_fault { (IsErrOf result AcceptError.Refused → ⊥) → faults self.new ≡ faults self.old };

    /// What a reporter of its kind tells of what it holds.
    fn text(&self, alloc: Global) -> Result<Bytes, Memory>
        ensures { IfOk result (λ text. text ≡ report_text (kind self.now) (held self.now)) };

    /// The same text, made or in pieces that the reporter holds, which then nobody has to copy.
    ///
    /// A reporter that holds no pieces of it need not write this method.
    fn tell(&self, alloc: Global) -> Result<Telling<'_>, Memory>
        ensures { IfOk result
            (λ told. telling_text told ≡ report_text (kind self.now) (held self.now)) }
    {
        Ok(Telling::Made(self.text(alloc)?))
    }
}
