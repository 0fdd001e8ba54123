//! A reporter that csp_desk doesn't know.
ghost use Rattle.std.specs.Prelude.{◌≡◌, [], true, OnOk, OnErr};
ghost use Rattle.csp_desk.specs.declared.Kind.TheVariants as kinds;

use csp_desk::{AcceptError, Kind, Lines, Reporter};
use csp_model::{Bytes, Memory, Violation};
use std::alloc::Global;

// Tells as `Lines` does of as many violations as it has room for, and refuses the others.
#[derive(Drop)]
pub(crate) struct Limited {
    taken: Lines,
    room: u32,
    faults: u64,
}

impl Limited {
    pub(crate) fn new(alloc: Global, room: u32) -> Limited {
        Limited {
            taken: Lines::new(alloc),
            room,
            faults: 0,
        }
    }
}

impl Reporter for Limited {
    ghost kind = { λ _. kinds.Lines };

    ghost held = { λ s. s.taken };

    ghost faults = { λ s. s.faults };

    ghost may_refuse = { λ _. true };

    fn kind(&self) -> Kind {
        Kind::Lines
    }

    fn accept(&mut self, alloc: Global, violation: &Violation) -> Result<(), AcceptError> {
        if self.room == 0 {
            self.faults = self.faults.saturating_add(1);
            return Err(AcceptError::Refused);
        }
        self.room -= 1;
        self.taken.accept(alloc, violation)
    }

    fn text(&self, alloc: Global) -> Result<Bytes, Memory> {
        self.taken.text(alloc)
    }
}
