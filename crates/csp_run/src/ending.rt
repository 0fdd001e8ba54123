//! Writes the text of an end.
ghost use Rattle.std.specs.Prelude.{◌≡◌, ◌≤◌, IfOk, OnOk, OnErr, map};
ghost use Rattle.csp_io.specs.Told.{Rose, GrewBy, GrewByPrefix};
ghost use Rattle.csp_run.specs.Due.{End, end_status, end_text};
ghost use Rattle.csp_run.specs.Shown.{IsPrintedOf, end_of};

use crate::fault::{Fault, status_of};
use crate::fault_text::write_fault;
use crate::gathered::write_sections;
use crate::output::Outcome;
use csp_desk::{Reporter, sections_of};
use csp_io::{Failed, Sink, write_all};
use csp_output::Status;
use std::alloc::Global;

// Writes the text of such an end, and gives its status. What a reporter doesn't lend is made first. Where
// there is no memory for it, that is the end.
pub(crate) fn write_end<S: Sink>(
    alloc: Global,
    out: &mut S,
    end: Result<Outcome, Fault>,
    desk: &[Box<dyn Reporter>],
) -> Result<Status, Failed>
    ensures written { IfOk result (λ status. (printed : End)
        × IsPrintedOf (end_of (map (λ b. kind b) desk.now) (map (λ b. held b) desk.now) end) printed
        × (status ≡ end_status printed)
        × GrewBy (S.taken out.old) (S.taken out.new) (end_text printed)) }
    ensures prefix { OnErr result ((printed : End)
        × IsPrintedOf (end_of (map (λ b. kind b) desk.now) (map (λ b. held b) desk.now) end) printed
        × GrewByPrefix (S.taken out.old) (S.taken out.new) (end_text printed)) }
    ensures later { S.faults out.old ≤ S.faults out.new }
    ensures cause { OnErr result (Rose (S.faults out.old) (S.faults out.new)) }
    ensures no_fault { OnOk result (S.faults out.new ≡ S.faults out.old) }
{
    match end {
        Ok(Outcome::Text(built)) => match write_all(out, built.text.as_slice()) {
            Ok(()) => Ok(built.status),
            Err(failed) => Err(failed),
        },
        Ok(Outcome::Reporters) => match sections_of(alloc, desk) {
            Ok(sections) => match write_sections(alloc, out, sections.as_slice()) {
                Ok(()) => Ok(Status::Clean),
                Err(failed) => Err(failed),
            },
            Err(_) => match write_fault(out, Fault::Memory) {
                Ok(()) => Ok(Status::NoMemory),
                Err(failed) => Err(failed),
            },
        },
        Err(fault) => match write_fault(out, fault) {
            Ok(()) => Ok(status_of(fault)),
            Err(failed) => Err(failed),
        },
    }
}
